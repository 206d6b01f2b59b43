//! The driver: builds a project folder, prints to standard output, and ends with the build's status.
#![tactic(auto)]

ghost use Rattle.std.specs.Prelude.{◌≡◌, Err};
ghost use Rattle.drv_outside.specs.declared.status.Status.{Status};
ghost use Rattle.driver_cmd.specs.Command.{NamesNoFolder};

mod disk;
mod failure;
mod folder;
mod output;
mod walk;
mod words;

use driver_cmd::{Status, drive, folder_name};
use drv_outside::{OpenGate, Sink, Text};
use failure::Failure;
use folder::FolderTree;
use output::Output;
use std::fs::File;
use std::io;
use std::process::ExitCode;
use std::rt::{Env, Files};

const HELP: &str = "\
usage: driver FOLDER build -module-name MODULE

Builds the Swift files below FOLDER into FOLDER/swift-build. A second build of a folder waits for
the first one.

  driver --help       prints this text; so do -h and help
  driver --version    prints the version

Status: 0 built, 1 errors in the sources, 2 usage, 3 reading or writing failed, 4 out of memory,
5 output failed, 6 bad output file map.
";

const VERSION: &str = "driver 0.1.0\n";

fn asks_for_help(word: &[u8]) -> bool {
    matches!(word, b"--help" | b"-h" | b"help")
}

// The text that an only word of the command line asks for.
fn asked_text(words: &[Text]) -> Option<&'static str> {
    match words {
        [word] if asks_for_help(word.as_slice()) => Some(HELP),
        [word] if word.as_slice() == b"--version".as_slice() => Some(VERSION),
        _ => None,
    }
}

// Builds a folder, as the words say. What failed first is left in `failure`.
fn build_folder<R: Files<File = File> + Print + Eprint + AllocGlobal + Clone + Drop>(
    rt: &R,
    folder: &str,
    words: &[Text],
    failure: &mut Option<Failure>,
) -> Result<Status, Status> {
    let folder = String::from_str(rt.alloc(), folder)?;
    let mut tree = FolderTree::new(rt.clone()?, folder);
    let mut out = Output::new(rt.clone()?);
    let status = drive(rt, words, &mut tree, &OpenGate, &mut out);
    *failure = tree.into_failure();
    Ok(status)
}

// Builds the folder that the first word names, as the other words say.
fn build<R: Files<File = File> + Print + Eprint + AllocGlobal + Clone + Drop>(
    rt: &R,
    words: &[Text],
    failure: &mut Option<Failure>,
) -> Result<Status, Status>
    ensures { NamesNoFolder words.now → result ≡ Err (Status.Usage 0) }
{
    match words {
        [] => Err(Status::Usage { at: 0 }),
        [word, words @ ..] => match folder_name(word) {
            Some(folder) => build_folder(rt, folder, words, failure),
            None => Err(Status::Usage { at: 0 }),
        },
    }
}

// Prints a text that was asked for.
fn print<R: Print + Clone + Drop>(rt: &R, text: &str) -> Result<Status, Status> {
    let mut out = Output::new(rt.clone()?);
    out.put(text.as_bytes()).map_err(|_| Status::SinkFault)?;
    Ok(Status::Done)
}

// Does what the command line asks.
fn run<R: Files<File = File> + Env + Print + Eprint + AllocGlobal + Clone + Drop>(
    rt: &R,
    failure: &mut Option<Failure>,
) -> Result<Status, Status> {
    let words = words::command_line(rt, rt.alloc())?;
    match asked_text(&words) {
        Some(text) => print(rt, text),
        None => build(rt, &words, failure),
    }
}

// The stated line for a fault of the folder, and then what failed and why.
fn explain_fault(rt: &impl Eprint, failure: &Option<Failure>) -> io::Result<()> {
    eprintln!(rt; "driver: reading or writing failed")?;
    match failure {
        Some(failure) => eprintln!(rt; "  {failure}"),
        None => Ok(()),
    }
}

// Says on standard error why there was no build. Where that can't be written, the status says it.
fn explain(rt: &impl Eprint, status: &Status, failure: &Option<Failure>) {
    let _ = match status {
        Status::Done | Status::Errors => Ok(()),
        Status::Usage { at } => {
            eprintln!(rt; "driver: usage, word {at}\n  driver --help prints the words")
        }
        Status::TreeFault => explain_fault(rt, failure),
        Status::NoMemory => eprintln!(rt; "driver: out of memory"),
        Status::SinkFault => eprintln!(rt; "driver: output failed"),
        Status::BadMap { .. } => eprintln!(rt; "driver: bad output file map"),
    };
}

fn main(rt: HostRuntime) -> ExitCode {
    let mut failure = None;
    let (Ok(status) | Err(status)) = run(&rt, &mut failure);
    explain(&rt, &status, &failure);
    ExitCode::from(status.number())
}
