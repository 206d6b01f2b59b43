//! Stops a build at each of its calls, crashes the machine in each way, and builds again: prints how often the folder was
//! then that of a clean build.
//!
//! The build runs over the folder of an earlier one, of which a source was changed and another removed, and a second time over
//! such a folder whose gate is shut.
#![tactic(auto)]

mod builds;
mod folders;

use anyhow::Error;
use builds::{Earlier, calls_of, clean_files, ends_clean, fails_cleanly};
use folders::File;

/// By its digit a crash leaves under each name in doubt what reads give, what was settled last, nothing, or the byte 01.
const CHOICES: [u64; 4] = [0, 5, 14, 15];

// How many of the crashes after so many calls end with the clean folder.
fn clean_after<R: AllocGlobal>(
    rt: &R,
    earlier: Earlier,
    calls: u64,
    clean: &[File],
) -> Result<usize, Error> {
    let mut ends = 0usize;
    for choice in &CHOICES {
        if ends_clean(rt, earlier, calls, *choice, clean)? {
            ends = ends.saturating_add(1);
        }
    }
    Ok(ends)
}

fn print_stops<R: Print + AllocGlobal>(
    rt: &R,
    earlier: Earlier,
    calls: u64,
    clean: &[File],
) -> Result<(), Error> {
    for passing in 0..calls {
        let ends = clean_after(rt, earlier, passing, clean)?;
        let all = CHOICES.len();
        println!(rt; "stopped after {passing}: {ends} of {all} crashes, built again, end clean")?;
    }
    Ok(())
}

fn print_failures<R: Print + AllocGlobal>(
    rt: &R,
    earlier: Earlier,
    calls: u64,
    clean: &[File],
) -> Result<(), Error> {
    let mut ends = 0u64;
    for number in 0..calls {
        if fails_cleanly(rt, earlier, number, clean)? {
            ends = ends.saturating_add(1);
        }
    }
    println!(rt;
        "{ends} of {calls} calls that fail alone end with status 3, and built again, end clean"
    )?;
    Ok(())
}

fn print_table<R: Print + AllocGlobal>(rt: &R, earlier: Earlier, title: &str) -> Result<(), Error> {
    let clean = clean_files(rt)?;
    let calls = calls_of(rt, earlier)?;
    println!(rt; "# {title}: {calls} calls")?;
    print_stops(rt, earlier, calls, &clean)?;
    print_failures(rt, earlier, calls, &clean)
}

fn main(rt: HostRuntime) -> Result<(), Error> {
    print_table(&rt, Earlier::Ended, "over the folder of a build that ended")?;
    print_table(
        &rt,
        Earlier::Stopped,
        "over the folder of a build that was stopped",
    )?;
    Ok(())
}
