//! Which files are in the first wave, and why.

ghost use Rattle.std.specs.Prelude.{◌≡◌, ◌+◌, ◌++◌, ℕ, List, map, length, Some, IfOk, OnOk, option_copied};
ghost use Rattle.std.specs.BTreeMap.{get};
ghost use Rattle.std.specs.BTreeSet.{contains};
ghost use Rattle.dep_graph.specs.Arcs.{path_order};
ghost use Rattle.wave_plan.specs.declared.plan.Why.{Why};
ghost use Rattle.wave_plan.specs.Reasons.{recorded_at, is_same_stamp, has_changed, misses_output, reason_of, reasons, numbered, first_files, all_files};

use crate::named::copy_of_path;
use crate::{FirstFile, Why};
use build_record::FileState;
use dep_key::{FileNo, Name, NoMemory, Path};
use drv_outside::{Entry, Stamp};
use file_map::FileNames;
use sqlite_items::Items;
use std::alloc::Global;
use std::collections::{BTreeMap, BTreeSet};

/// The recorded files, under their paths.
pub fn recorded_files(
    alloc: Global,
    mut files: Items<FileState>,
) -> Result<BTreeMap<Path, FileState>, NoMemory>
    ensures { IfOk result (λ recorded. (path : List ℕ) → get path_order recorded path ≡ recorded_at files path) }
{
    let mut recorded = BTreeMap::new(alloc);
    // From the last on, so that of files with one path the first would count.
    while let Some(file) = files.pop() {
        let path = copy_of_path(alloc, &file.path)?;
        recorded.insert(path, file)?;
    }
    Ok(recorded)
}

// Whether two stamps are the same.
fn is_same_stamp(one: Stamp, other: Stamp) -> bool
    ensures { result ≡ is_same_stamp one other }
{
    one.secs == other.secs && one.nanos == other.nanos && one.size == other.size
}

// Whether a listed file isn't the recorded one.
fn has_changed(file: &FileState, entry: &Entry) -> bool
    ensures { result ≡ has_changed file.now entry.now }
{
    !is_same_stamp(file.stamp, entry.stamp)
}

// Whether the folder lacks one of the outputs of a file.
fn misses_output(held: &BTreeSet<Name>, outputs: &FileNames) -> bool
    ensures { result ≡ misses_output (contains path_order held.now) outputs.now }
{
    !(held.contains(&outputs.object)
        && held.contains(&outputs.partial)
        && held.contains(&outputs.deps))
}

// Why a listed file is in the first wave, where it is.
fn reason_of(recorded: Option<&FileState>, entry: &Entry, misses: bool) -> Option<Why>
    ensures { result ≡ reason_of (option_copied recorded.entry) entry.now misses }
{
    match recorded {
        None => Some(Why::New),
        Some(file) => {
            if has_changed(file, entry) {
                Some(Why::Changed)
            } else if !file.clean {
                Some(Why::Dirty)
            } else if misses {
                Some(Why::MissingOutput)
            } else {
                None
            }
        }
    }
}

// Why a listed file is in the first wave beside this record and these names, where it is.
fn reason(
    recorded: &BTreeMap<Path, FileState>,
    held: &BTreeSet<Name>,
    entry: &Entry,
    outputs: &FileNames,
) -> Option<Why>
    ensures { result ≡ reason_of (get path_order recorded.now entry.now.path) entry.now (misses_output (contains path_order held.now) outputs.now) }
{
    let misses = misses_output(held, outputs);
    reason_of(recorded.get(&entry.path), entry, misses)
}

// The reason of each listed file that has one.
fn reasons(
    alloc: Global,
    recorded: &BTreeMap<Path, FileState>,
    held: &BTreeSet<Name>,
    listed: &[Entry],
    outputs: &[FileNames],
) -> Result<Vec<Option<Why>>, NoMemory>
    requires { length outputs.now ≡ length listed.now }
    ensures { IfOk result (λ found. found.items ≡ reasons (get path_order recorded.now) (contains path_order held.now) listed.now outputs.now) }
{
    let mut found = Vec::new(alloc);
    for (place, entry) in listed.iter().enumerate() {
        found.push(reason(recorded, held, entry, &outputs[place]))?;
    }
    Ok(found)
}

// The next number of a file.
fn next_number(no: FileNo) -> Result<FileNo, NoMemory>
    ensures { IfOk result (λ next. next ≡ no + 1) }
{
    match no.checked_add(1) {
        Some(next) => Ok(next),
        None => Err(NoMemory),
    }
}

// Adds a file, where it has a reason.
fn push_file(first: &mut Vec<FirstFile>, no: FileNo, reason: Option<Why>) -> Result<(), NoMemory>
    ensures { OnOk result (first.new.items ≡ first.old.items ++ numbered no reason) }
{
    match reason {
        Some(why) => {
            first.push(FirstFile { no, why })?;
            Ok(())
        }
        None => Ok(()),
    }
}

// The files with a reason, by their numbers.
fn first_files(alloc: Global, reasons: Vec<Option<Why>>) -> Result<Vec<FirstFile>, NoMemory>
    ensures { IfOk result (λ first. first.items ≡ first_files 0 reasons.items) }
{
    let mut first = Vec::new(alloc);
    let mut no = 0;
    for reason in reasons {
        push_file(&mut first, no, reason)?;
        no = next_number(no)?;
    }
    Ok(first)
}

/// The listed files with a reason to be compiled, by path.
pub fn files_with_reasons(
    alloc: Global,
    recorded: &BTreeMap<Path, FileState>,
    held: &BTreeSet<Name>,
    listed: &[Entry],
    outputs: &[FileNames],
) -> Result<Vec<FirstFile>, NoMemory>
    requires { length outputs.now ≡ length listed.now }
    ensures { IfOk result (λ first. first.items ≡ first_files 0 (reasons (get path_order recorded.now) (contains path_order held.now) listed.now outputs.now)) }
{
    let reasons = reasons(alloc, recorded, held, listed, outputs)?;
    let first = first_files(alloc, reasons)?;
    Ok(first)
}

// Each listed file is compiled for want of valid priors.
fn without_priors(alloc: Global, listed: &[Entry]) -> Result<Vec<Option<Why>>, NoMemory>
    ensures { IfOk result (λ found. found.items ≡ map (λ entry. Some Why.NoPriors) listed.now) }
{
    let mut found = Vec::new(alloc);
    for _entry in listed {
        found.push(Some(Why::NoPriors))?;
    }
    Ok(found)
}

/// All listed files, by path, each for want of valid priors.
pub fn all_files(alloc: Global, listed: &[Entry]) -> Result<Vec<FirstFile>, NoMemory>
    ensures { IfOk result (λ first. first.items ≡ all_files listed.now) }
{
    let reasons = without_priors(alloc, listed)?;
    let first = first_files(alloc, reasons)?;
    Ok(first)
}
