//! Writes and reads dependency files.
//!
//! Without words it writes the file of a small graph, and prints its bytes and the graph that is
//! read from them. With words it makes a large graph: see `USAGE`.
#![tactic(auto)]

mod answers;
mod example;
mod files;
mod keys;
mod large;
mod shown;
mod task;

use anyhow::{Error, anyhow};
use files::{Counts, bytes_of, count, graph_in};
use large::Shape;
use std::alloc::Global;
use std::io::Read;
use std::rt::Env;
use std::{env, io};
use task::Task;

const USAGE: &str = "\
usage: dependency_files                          the table: an example's bytes, and what is read from them
       dependency_files answers                  for each line of hexadecimal digits on standard input, which are a
                                                 file: the items of its bits behind the signature, and on the next
                                                 line what it holds
       dependency_files bytes N U I              the file of a graph of N nodes with U uses each, from I identifiers
       dependency_files graph N U I              that graph, as text
       dependency_files work write N U I TIMES   writes that file so many times, and prints the bytes written
       dependency_files work read N U I TIMES    writes it once, reads it so many times, and prints what was read
       dependency_files work input TIMES         reads the file on standard input so many times
       dependency_files work records TIMES       counts the records of the bitstream on standard input so many times";

// The graph behind the example: as many nodes as a module may have files.
const LARGE: Shape = Shape {
    nodes: 2000,
    uses: 20,
    identifiers: 1000,
};

// Prints the file of the example and the graph that is read from it, and then what is read of a large
// graph's file.
fn print_example<R: Print + AllocGlobal>(rt: &R) -> Result<(), Error> {
    let alloc = rt.alloc();
    let bytes = bytes_of(alloc, &example::graph(alloc)?)?;
    shown::print_bytes(rt, &bytes)?;
    shown::print_graph(rt, &graph_in(alloc, &bytes)?)?;
    print_counts(rt, &bytes_of(alloc, &large::graph(alloc, LARGE)?)?, 1)
}

// Prints the file of a large graph as it is.
fn print_file<R: Print + AllocGlobal>(rt: &R, shape: Shape) -> Result<(), Error> {
    let alloc = rt.alloc();
    let bytes = bytes_of(alloc, &large::graph(alloc, shape)?)?;
    rt.write_all(&bytes)?;
    Ok(())
}

// How many bytes there are in all, where the file of a large graph is written so many times.
fn written(alloc: Global, shape: Shape, times: usize) -> Result<u128, Error> {
    let graph = large::graph(alloc, shape)?;
    let mut total = 0u128;
    for _ in 0..times {
        total = total.wrapping_add(bytes_of(alloc, &graph)?.len() as u128);
    }
    Ok(total)
}

// Reads a file so many times, and prints how many nodes and uses there are in all.
fn print_counts<R: Print + AllocGlobal>(rt: &R, bytes: &[u8], times: usize) -> Result<(), Error> {
    let mut total = Counts::default();
    for _ in 0..times {
        total = total.and(count(rt.alloc(), bytes)?);
    }
    println!(rt;
        "{} bytes, {} nodes, {} uses",
        bytes.len(),
        total.nodes,
        total.uses
    )?;
    Ok(())
}

// Reads the file on standard input.
fn print_input<R: Print + Input + AllocGlobal>(rt: &R, times: usize) -> Result<(), Error> {
    let mut bytes = Vec::new(rt.alloc());
    rt.reader().read_to_end(&mut bytes)?;
    print_counts(rt, &bytes, times)
}

// The bytes behind the four of the signature.
fn behind_signature(bytes: &[u8]) -> &[u8] {
    match bytes {
        [_, _, _, _, rest @ ..] => rest,
        _ => &[],
    }
}

// Counts the records of the bitstream on standard input so many times, and prints how many there are in
// all.
fn print_records<R: Print + Input + AllocGlobal>(rt: &R, times: usize) -> Result<(), Error> {
    let mut bytes = Vec::new(rt.alloc());
    rt.reader().read_to_end(&mut bytes)?;
    let mut total = 0u128;
    for _ in 0..times {
        total = total.wrapping_add(answers::count_records(rt.alloc(), &bytes) as u128);
    }
    println!(rt; "{} bytes, {} records", bytes.len(), total)?;
    Ok(())
}

// Prints what is read from each file on standard input, whose bytes are the hexadecimal digits of a line.
fn print_answers<R: Print + Input + AllocGlobal>(rt: &R) -> Result<(), Error> {
    let alloc = rt.alloc();
    let mut text = String::new(alloc);
    rt.reader().read_to_string(&mut text)?;
    for digits in text.as_str().lines() {
        let bytes = hex::decode(alloc, digits)?;
        println!(rt; "{}", answers::items(alloc, behind_signature(&bytes))?)?;
        println!(rt; "{}", answers::graphs(alloc, &bytes)?)?;
    }
    Ok(())
}

// The words behind the program's name.
fn words<R: Env + AllocGlobal>(rt: &R) -> io::Result<Vec<String>> {
    let mut words = Vec::new(rt.alloc());
    for word in env::args(rt)?.skip(1) {
        words.push(word)?;
    }
    Ok(words)
}

fn main(rt: HostRuntime) -> Result<(), Error> {
    let alloc = rt.alloc();
    let words = words(&rt)?;
    match Task::from_words(&words) {
        None => Err(anyhow!("{USAGE}")),
        Some(Task::Table) => print_example(&rt),
        Some(Task::Bytes(shape)) => print_file(&rt, shape),
        Some(Task::Graph(shape)) => shown::print_graph(&rt, &large::graph(alloc, shape)?),
        Some(Task::Write(shape, times)) => {
            println!(rt; "{} bytes", written(alloc, shape, times)?)?;
            Ok(())
        }
        Some(Task::Read(shape, times)) => {
            let bytes = bytes_of(alloc, &large::graph(alloc, shape)?)?;
            print_counts(&rt, &bytes, times)
        }
        Some(Task::Input(times)) => print_input(&rt, times),
        Some(Task::Records(times)) => print_records(&rt, times),
        Some(Task::Answers) => print_answers(&rt),
    }
}
