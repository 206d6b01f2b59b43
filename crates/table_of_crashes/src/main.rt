//! Prints what a tree in memory answers to runs of steps: what it holds and refuses, which of its calls fail, and
//! what a crash leaves of its build folder by each choice.
//!
//! A line has a step, and then whether it was done, or what was found.
#![tactic(auto)]

mod cases;
mod steps;

use anyhow::Error;
use cases::{RUNS, Run};
use steps::answer;
use tree_mem::MemTree;

fn print_run<R: Print + AllocGlobal>(rt: &R, run: &Run) -> Result<(), Error> {
    println!(rt; "# {}", run.title)?;
    let Ok(mut tree) = MemTree::new(rt.alloc()) else {
        return Ok(());
    };
    for step in run.steps {
        let found = answer(rt.alloc(), &mut tree, step)?;
        println!(rt; "{step}{found}")?;
    }
    Ok(())
}

fn main(rt: HostRuntime) -> Result<(), Error> {
    for run in &RUNS {
        print_run(&rt, run)?;
    }
    Ok(())
}
