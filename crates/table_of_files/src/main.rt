//! Prints what `file_map`, `build_record` and `module_merge` answer to a table of texts, and then does the work for as
//! many files as a build may have: it assigns their names, writes and reads a record of them, makes an
//! image of as many objects, and prints how long the texts are. With words it does the work alone, for so many
//! files: see `USAGE`.
#![tactic(auto)]

mod answers;
mod cases;
mod modules;
mod order;
mod task;
mod work;

use answers::{map_answer, names_answer, record_answer, shown_case, text_of};
use anyhow::{Error, anyhow};
use cases::{ASSIGNED, LONG_MAPS, MAPS, RECORDS};
use modules::{IMAGES, PARTIALS, TEXTS, image_answer, kind_answer, module_answer};
use std::rt::Env;
use std::{env, io};
use task::Task;
use work::lengths;

const USAGE: &str = "\
usage: table_of_files               the table
       table_of_files work FILES    the work alone, for so many files: how long the texts are";

/// The most source files of a build.
const MOST_SOURCES: usize = 2000;

// Prints the table.
fn print_table<R: Print + AllocGlobal>(rt: &R) -> Result<(), Error> {
    let alloc = rt.alloc();
    for text in &MAPS {
        println!(rt; "map {text}\n  {}", map_answer(alloc, text)?)?;
    }
    for case in &LONG_MAPS {
        let answer = map_answer(alloc, text_of(alloc, case)?.as_str())?;
        println!(rt; "map {}\n  {answer}", shown_case(alloc, case)?)?;
    }
    for text in &RECORDS {
        println!(rt; "record {text}\n  {}", record_answer(alloc, text)?)?;
    }
    for (map, path) in &ASSIGNED {
        let answer = names_answer(alloc, map, path)?;
        println!(rt; "names of {path} by {map}\n  {answer}")?;
    }
    for text in &TEXTS {
        println!(rt; "text {text}\n  {}", kind_answer(text))?;
    }
    for objects in &IMAGES {
        println!(rt; "image\n{}", image_answer(alloc, objects)?)?;
    }
    println!(rt; "module\n{}", module_answer(alloc, &PARTIALS)?)?;
    let lengths = lengths(alloc, MOST_SOURCES)?;
    println!(rt; "as many sources as a build may have\n  {lengths}")?;
    Ok(())
}

// The words behind the program's name.
fn words<R: Env + AllocGlobal>(rt: &R) -> io::Result<Vec<String>> {
    let mut words = Vec::new(rt.alloc());
    for word in env::args(rt)?.skip(1) {
        words.push(word)?;
    }
    Ok(words)
}

fn main(rt: HostRuntime) -> Result<(), Error> {
    let words = words(&rt)?;
    match Task::from_words(&words) {
        None => Err(anyhow!("{USAGE}")),
        Some(Task::Table) => print_table(&rt),
        Some(Task::Work(files)) => {
            let lengths = lengths(rt.alloc(), files)?;
            println!(rt; "{lengths}")?;
            Ok(())
        }
    }
}
