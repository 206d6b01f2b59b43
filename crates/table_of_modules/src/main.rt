//! Prints what the modules of a table come to: their error lines, and of their files object texts, partial texts and nodes.
//! With words it answers to other modules: see `USAGE`.
#![tactic(auto)]

mod answers;
mod cases;
mod modules;
mod nodes;

use answers::module_answer;
use anyhow::{Error, anyhow};
use cases::MODULES;
use modules::{Module, modules_from};
use std::rt::Env;
use std::{env, io};

const USAGE: &str = "\
usage: table_of_modules                     the table
       table_of_modules answers MODULE..    what each module comes to; a module is -- and then PATH TEXT for each of its
                                            files, by path";

// The words behind the program's name.
fn words<R: Env + AllocGlobal>(rt: &R) -> io::Result<Vec<String>> {
    let mut words = Vec::new(rt.alloc());
    for word in env::args(rt)?.skip(1) {
        words.push(word)?;
    }
    Ok(words)
}

// Prints what a module comes to.
fn print_module<R: Print + AllocGlobal>(rt: &R, module: &Module) -> Result<(), Error> {
    let answer = module_answer(rt.alloc(), module)?;
    print!(rt; "{answer}")?;
    Ok(())
}

// Prints the whole table.
fn print_table<R: Print + AllocGlobal>(rt: &R) -> Result<(), Error> {
    for case in &MODULES {
        println!(rt; "## {}", case.title)?;
        let module = Module::from_case(rt.alloc(), case)?;
        print_module(rt, &module)?;
    }
    Ok(())
}

// Prints what each module comes to.
fn print_answers<R: Print + AllocGlobal>(rt: &R, words: &[String]) -> Result<(), Error> {
    let modules = modules_from(rt.alloc(), words)?;
    for module in &modules {
        println!(rt; "## module")?;
        print_module(rt, module)?;
    }
    Ok(())
}

fn main(rt: HostRuntime) -> Result<(), Error> {
    let words = words(&rt)?;
    let Some((word, rest)) = words.split_first() else {
        return print_table(&rt);
    };
    match word.as_str() {
        "answers" => print_answers(&rt, rest),
        _ => Err(anyhow!("{USAGE}")),
    }
}
