//! Sends random changes of small modules through the core of a build in waves, in random orders of taking and
//! finishing, and compares what is built, what has changed, where each file is traced from and the final graph
//! with the plain definition by rounds. Prints the counts. With words it does the work of builds over large projects: see `USAGE`.
#![tactic(auto)]

mod builds;
mod modules;
mod numbers;
mod order;
mod rounds;
mod task;
mod work;

use anyhow::{Error, anyhow};
use builds::built;
use numbers::{Numbers, random_change};
use rounds::{Outcome, by_rounds};
use std::rt::Env;
use std::{env, io};
use task::Task;
use work::worked;

const USAGE: &str = "\
usage: table_of_waves                          the table
       table_of_waves work PART SHAPE FILES    a part of the work with a project of so many files: files, priors,
                                               graph, leaf or root; of the shape mill, star, chain or dense";

/// How many changes are tried.
const CHANGES: u32 = 5000;

/// How often the core and the rounds came to the same, and what was seen.
#[derive(Clone, Copy, Debug)]
struct Counts {
    alike: u32,
    due: u32,
    woken: u32,
    changed: u32,
    traced: u32,
}

fn count<const N: usize>(marks: &[bool; N]) -> u32 {
    let mut sum = 0u32;
    for mark in marks {
        if *mark {
            sum = sum.wrapping_add(1);
        }
    }
    sum
}

fn count_traced(outcome: &Outcome) -> u32 {
    let mut sum = 0u32;
    for from in &outcome.traced {
        if from.is_some() {
            sum = sum.wrapping_add(1);
        }
    }
    sum
}

// Prints the table.
fn print_table<R: Print + AllocGlobal>(rt: &R) -> Result<(), Error> {
    let mut numbers = Numbers::new(7);
    let mut counts = Counts {
        alike: 0,
        due: 0,
        woken: 0,
        changed: 0,
        traced: 0,
    };
    for _ in 0..CHANGES {
        let change = random_change(&mut numbers);
        let wanted = by_rounds(&change);
        let Ok((found, ends)) = built(rt.alloc(), &change, &mut numbers) else {
            println!(rt; "no memory")?;
            return Ok(());
        };
        if ends && found == wanted {
            counts.alike = counts.alike.wrapping_add(1);
        }
        counts.due = counts.due.wrapping_add(count(&wanted.due));
        counts.woken = counts
            .woken
            .wrapping_add(count(&wanted.due).wrapping_sub(count(&change.first)));
        counts.changed = counts.changed.wrapping_add(count(&wanted.changed));
        counts.traced = counts.traced.wrapping_add(count_traced(&wanted));
    }
    println!(rt; "changes tried: {CHANGES}")?;
    println!(rt; "built as by rounds: {}", counts.alike)?;
    println!(rt;
        "files due: {}, of which woken: {}",
        counts.due, counts.woken
    )?;
    println!(rt; "keys changed: {}", counts.changed)?;
    println!(rt; "files traced from a key: {}", counts.traced)?;
    Ok(())
}

// The words behind the program's name.
fn words<R: Env + AllocGlobal>(rt: &R) -> io::Result<Vec<String>> {
    let mut words = Vec::new(rt.alloc());
    for word in env::args(rt)?.skip(1) {
        words.push(word)?;
    }
    Ok(words)
}

fn main(rt: HostRuntime) -> Result<(), Error> {
    let words = words(&rt)?;
    match Task::from_words(&words) {
        None => Err(anyhow!("{USAGE}")),
        Some(Task::Table) => print_table(&rt),
        Some(Task::Work(part, shape, files)) => {
            let line = worked(rt.alloc(), part, shape, files)?;
            println!(rt; "{line}")?;
            Ok(())
        }
    }
}
