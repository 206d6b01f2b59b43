//! Builds over a tree in memory that are stopped.

use crate::folders::{File, files_of, have_same_files};
use anyhow::{Error, anyhow};
use driver_cmd::{Status, drive_alone};
use drv_outside::{Stamp, Text};
use std::alloc::Global;
use tree_mem::{MemSink, MemTree};

/// What the build is that left the folder.
#[derive(Clone, Copy)]
pub enum Earlier {
    Ended,
    /// Its gate is shut.
    Stopped,
}

/// So many calls of a build pass before its gate is shut and settled.
const CALLS_BEFORE_WRITES: u64 = 12;

fn put(tree: &mut MemTree, path: &str, secs: u64, text: &str) -> Result<(), Error> {
    let size = text.len() as u64;
    let stamp = Stamp {
        secs,
        nanos: 0,
        size,
    };
    match tree.put_source(path, stamp, text.as_bytes()) {
        Ok(()) => Ok(()),
        Err(_) => Err(anyhow!("a source can't be put")),
    }
}

fn words_of(alloc: Global) -> Result<Vec<Text>, Error> {
    let mut words = Vec::new(alloc);
    for word in ["build", "-module-name", "M"] {
        words.push(Text::from_slice(alloc, word.as_bytes())?)?;
    }
    Ok(words)
}

fn build<R: AllocGlobal>(rt: &R, tree: &mut MemTree) -> Result<Status, Error> {
    let words = words_of(rt.alloc())?;
    let mut out = MemSink::new(rt.alloc());
    Ok(drive_alone(rt, &words, tree, &mut out))
}

fn new_tree(alloc: Global) -> Result<MemTree, Error> {
    match MemTree::new(alloc) {
        Ok(tree) => Ok(tree),
        Err(_) => Err(anyhow!("no tree can be made")),
    }
}

fn put_new_sources(tree: &mut MemTree) -> Result<(), Error> {
    put(tree, "a.swift", 2, "let one = 2\n")?;
    put(tree, "c.swift", 1, "func run() { print(one) }\n")
}

// A tree in which the sources were edited after a build.
fn edited<R: AllocGlobal>(rt: &R, earlier: Earlier) -> Result<MemTree, Error> {
    let mut tree = new_tree(rt.alloc())?;
    put(&mut tree, "a.swift", 1, "let one = 1\n")?;
    put(&mut tree, "b.swift", 1, "let two = one + one\n")?;
    if let Earlier::Stopped = earlier {
        tree.stop_after(CALLS_BEFORE_WRITES);
    }
    build(rt, &mut tree)?;
    crash(&mut tree, 0)?;
    tree.remove_source("b.swift");
    put_new_sources(&mut tree)?;
    Ok(tree)
}

// A crash lets all calls pass from then on.
fn crash(tree: &mut MemTree, choice: u64) -> Result<(), Error> {
    match tree.crash(choice) {
        Ok(()) => Ok(()),
        Err(_) => Err(anyhow!("no memory for a crash")),
    }
}

/// The folder of a build from nothing.
pub fn clean_files<R: AllocGlobal>(rt: &R) -> Result<Vec<File>, Error> {
    let mut tree = new_tree(rt.alloc())?;
    put_new_sources(&mut tree)?;
    build(rt, &mut tree)?;
    files_of(rt.alloc(), &mut tree)
}

// Whether one more build leaves the clean folder.
fn is_clean_once_built<R: AllocGlobal>(
    rt: &R,
    tree: &mut MemTree,
    clean: &[File],
) -> Result<bool, Error> {
    let status = build(rt, tree)?;
    let files = files_of(rt.alloc(), tree)?;
    Ok(status == Status::Done && have_same_files(&files, clean))
}

/// How many calls a whole build makes.
pub fn calls_of<R: AllocGlobal>(rt: &R, earlier: Earlier) -> Result<u64, Error> {
    let mut tree = edited(rt, earlier)?;
    let before = tree.calls().len();
    build(rt, &mut tree)?;
    Ok(tree.calls().len().saturating_sub(before) as u64)
}

/// Whether a build that was stopped after so many calls, behind a crash with this choice, ends clean once it is built again.
pub fn ends_clean<R: AllocGlobal>(
    rt: &R,
    earlier: Earlier,
    calls: u64,
    choice: u64,
    clean: &[File],
) -> Result<bool, Error> {
    let mut tree = edited(rt, earlier)?;
    tree.stop_after(calls);
    if build(rt, &mut tree)? != Status::TreeFault {
        return Ok(false);
    }
    crash(&mut tree, choice)?;
    is_clean_once_built(rt, &mut tree, clean)
}

/// Whether a build one of whose calls fails ends with status 3, and ends clean once it is built again.
pub fn fails_cleanly<R: AllocGlobal>(
    rt: &R,
    earlier: Earlier,
    number: u64,
    clean: &[File],
) -> Result<bool, Error> {
    let mut tree = edited(rt, earlier)?;
    let mut numbers = Vec::new(rt.alloc());
    match u32::try_from(number) {
        Ok(number) => numbers.push(number)?,
        Err(_) => return Err(anyhow!("a build has too many calls")),
    }
    tree.fail_calls(numbers);
    if build(rt, &mut tree)? != Status::TreeFault {
        return Ok(false);
    }
    tree.fail_calls(Vec::new(rt.alloc()));
    is_clean_once_built(rt, &mut tree, clean)
}
