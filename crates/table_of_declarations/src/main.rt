//! Prints the keys of the declarations of some projects, and which declarations have each of them.
//!
//! A line has the path of a file, the number of a declaration in it, one of its keys, and the
//! declarations of the project that have the key, each as the number of its file and its own. Of a project
//! of 2,000 files it prints how many providers all keys have together. With words it prints that alone, of a
//! project of so many files: see `USAGE`.
#![tactic(auto)]

mod answers;
mod cases;
mod task;
mod work;

use answers::{index_of, shown_file, shown_providers};
use anyhow::{Error, anyhow};
use cases::{PROJECTS, Project};
use decl_index::Index;
use std::rt::Env;
use std::{env, io};
use task::Task;

const USAGE: &str = "\
usage: table_of_declarations               the table
       table_of_declarations work FILES    how many providers the keys of a project of so many files have";

// Prints the keys of the declarations of each file.
fn print_files<R: Print + AllocGlobal>(rt: &R, index: &Index) -> Result<(), Error> {
    for file in index.files() {
        print!(rt; "{}", shown_file(rt.alloc(), index, file)?)?;
    }
    Ok(())
}

// Prints what is answered to keys that are asked for.
fn print_asked<R: Print + AllocGlobal>(rt: &R, index: &Index, names: &[&str]) -> Result<(), Error> {
    for name in names {
        println!(rt; "asked: {}", shown_providers(rt.alloc(), index, name)?)?;
    }
    Ok(())
}

fn print_project<R: Print + AllocGlobal>(rt: &R, project: &Project) -> Result<(), Error> {
    println!(rt; "# {}", project.title)?;
    let index = index_of(rt.alloc(), project.files)?;
    print_files(rt, &index)?;
    print_asked(rt, &index, project.asked)
}

/// How many files the project has that is made and not written down.
const MADE_FILES: usize = 2_000;

// Prints how many providers the keys of a project of many files have.
fn print_made<R: Print + AllocGlobal>(rt: &R) -> Result<(), Error> {
    let count = work::providers(rt.alloc(), MADE_FILES)?;
    println!(rt; "# {MADE_FILES} files\n{count} providers")?;
    Ok(())
}

// Prints the keys of the projects.
fn print_table<R: Print + AllocGlobal>(rt: &R) -> Result<(), Error> {
    for project in &PROJECTS {
        print_project(rt, project)?;
    }
    print_made(rt)
}

// The words behind the program's name.
fn words<R: Env + AllocGlobal>(rt: &R) -> io::Result<Vec<String>> {
    let mut words = Vec::new(rt.alloc());
    for word in env::args(rt)?.skip(1) {
        words.push(word)?;
    }
    Ok(words)
}

fn main(rt: HostRuntime) -> Result<(), Error> {
    let words = words(&rt)?;
    match Task::from_words(&words) {
        None => Err(anyhow!("{USAGE}")),
        Some(Task::Table) => print_table(&rt),
        Some(Task::Work(files)) => {
            let count = work::providers(rt.alloc(), files)?;
            println!(rt; "{count}")?;
            Ok(())
        }
    }
}
