//! Prints what `parse_file` and `tokens` answer to a table of texts. With words it answers to other texts, or does
//! the work that is timed: see `USAGE`.
#![tactic(auto)]

mod answers;
mod cases;
mod shapes;
mod work;

use answers::{bytes_of, file_answer, project_answer, shown_pieces, size_answer, token_answer};
use anyhow::{Error, anyhow};
use cases::{BYTES, GROUPS, LONG_TEXTS, PROJECT, TOKEN_TEXTS};
use shapes::Shape;
use std::rt::Env;
use std::{env, io};
use swift_token::MAX_FILE_BYTES;
use work::Task;

const USAGE: &str = "\
usage: table_of_sources                                       the table
       table_of_sources answers TEXT..                        what `parse_file` answers to each text
       table_of_sources work WORK SHAPE BYTES FILES TIMES     the work so many times over files of the shape and the
                                                              length, and how much it found: WORK is texts, tokens or
                                                              trees";

// Prints the answers to the texts of files that are written out.
fn print_groups<R: Print + AllocGlobal>(rt: &R) -> Result<(), Error> {
    let alloc = rt.alloc();
    for group in &GROUPS {
        println!(rt; "# {}", group.title)?;
        for text in group.texts {
            let answer = file_answer(alloc, text.as_bytes())?;
            println!(rt; "{text:?}\n  {answer}")?;
        }
    }
    Ok(())
}

// Prints the answers to the texts at the limits.
fn print_limits<R: Print + AllocGlobal>(rt: &R) -> Result<(), Error> {
    let alloc = rt.alloc();
    println!(rt; "# long texts")?;
    for text in &LONG_TEXTS {
        let bytes = bytes_of(alloc, text)?;
        let answer = file_answer(alloc, &bytes)?;
        println!(rt; "{}\n  {answer}", shown_pieces(alloc, text)?)?;
    }
    println!(rt; "# bytes")?;
    for bytes in &BYTES {
        let answer = file_answer(alloc, bytes)?;
        println!(rt; "{bytes:?}\n  {answer}")?;
    }
    Ok(())
}

// Prints the answers to a file that has every construct and as many bytes as a file may have, and one byte more.
fn print_sizes<R: Print + AllocGlobal>(rt: &R) -> Result<(), Error> {
    let alloc = rt.alloc();
    println!(rt; "# every construct")?;
    for bytes in [MAX_FILE_BYTES, MAX_FILE_BYTES + 1] {
        let text = Shape::Constructs.text(alloc, bytes)?;
        let answer = size_answer(alloc, text.as_str())?;
        println!(rt; "{bytes} bytes\n  {answer}")?;
    }
    Ok(())
}

// Prints the answers to the files of a project, and the tokens of some texts.
fn print_rest<R: Print + AllocGlobal>(rt: &R) -> Result<(), Error> {
    let alloc = rt.alloc();
    println!(rt; "# a project")?;
    for (path, text) in &PROJECT {
        let answer = project_answer(alloc, path, text)?;
        println!(rt; "{path}\n  {answer}")?;
    }
    println!(rt; "# tokens")?;
    for text in &TOKEN_TEXTS {
        let answer = token_answer(alloc, text)?;
        print!(rt; "{text:?}\n{answer}")?;
    }
    Ok(())
}

// The words behind the program's name.
fn words<R: Env + AllocGlobal>(rt: &R) -> io::Result<Vec<String>> {
    let mut words = Vec::new(rt.alloc());
    for word in env::args(rt)?.skip(1) {
        words.push(word)?;
    }
    Ok(words)
}

// Prints the whole table.
fn print_table<R: Print + AllocGlobal>(rt: &R) -> Result<(), Error> {
    print_groups(rt)?;
    print_limits(rt)?;
    print_sizes(rt)?;
    print_rest(rt)
}

// Prints the answer to each text.
fn print_answers<R: Print + AllocGlobal>(rt: &R, texts: &[String]) -> Result<(), Error> {
    for text in texts {
        println!(rt; "{}", file_answer(rt.alloc(), text.as_str().as_bytes())?)?;
    }
    Ok(())
}

// Does the work that the words ask for, and prints how much it found.
fn print_work<R: Print + AllocGlobal>(rt: &R, words: &[String]) -> Result<(), Error> {
    match Task::from_words(words) {
        Some(task) => {
            let found = task.run(rt.alloc())?;
            println!(rt; "{found}")?;
            Ok(())
        }
        None => Err(anyhow!("{USAGE}")),
    }
}

fn main(rt: HostRuntime) -> Result<(), Error> {
    let words = words(&rt)?;
    let Some((word, rest)) = words.split_first() else {
        return print_table(&rt);
    };
    match word.as_str() {
        "answers" => print_answers(&rt, rest),
        "work" => print_work(&rt, rest),
        _ => Err(anyhow!("{USAGE}")),
    }
}
