//! Prints the object texts of three files, whose checked bodies are written down here: those of the bank in
//! `docs/OBJECTS.md`, and one with every form of control.
#![tactic(auto)]

mod account;
mod bank;
mod code;
mod control;
mod known;

use anyhow::{Error, anyhow};
use dep_key::{NoMemory, Path};
use known::Known;
use object_emit::{Unit, object};
use std::alloc::Global;

// The object text of a file.
fn text_of(alloc: Global, known: &Known, path: &str, units: &[Unit]) -> Result<String, Error> {
    let Ok(path) = Path::from_str(alloc, path) else {
        return Err(anyhow!("out of memory"));
    };
    let Ok(text) = object(alloc, known, &path, units) else {
        return Err(anyhow!("out of memory"));
    };
    let text = String::from_utf8(text.into_vec())?;
    Ok(text)
}

// Prints the object text of a file.
fn print_object<R: Print + AllocGlobal>(
    rt: &R,
    known: &Known,
    path: &str,
    units: Result<Vec<Unit>, NoMemory>,
) -> Result<(), Error> {
    let Ok(units) = units else {
        return Err(anyhow!("out of memory"));
    };
    let text = text_of(rt.alloc(), known, path, &units)?;
    print!(rt; "{text}")?;
    Ok(())
}

fn main(rt: HostRuntime) -> Result<(), Error> {
    let alloc = rt.alloc();
    let Ok(known) = Known::new(alloc) else {
        return Err(anyhow!("out of memory"));
    };
    print_object(&rt, &known, "Bank.swift", bank::units(alloc))?;
    print_object(&rt, &known, "Account.swift", account::units(alloc))?;
    print_object(&rt, &known, "control.swift", control::units(alloc))
}
