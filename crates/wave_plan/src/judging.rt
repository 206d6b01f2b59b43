//! Whether the priors of a folder are valid.

ghost use Rattle.std.specs.Prelude.{◌≡◌, ◌≢◌, ◌↔◌, IsTrue, IfOk, MatchOption, MatchResult};
ghost use Rattle.priors_store.specs.Priors.{ArePriors};
ghost use Rattle.wave_plan.specs.declared.plan.Seen.{Seen};
ghost use Rattle.wave_plan.specs.declared.plan.Asked.{Asked};
ghost use Rattle.wave_plan.specs.declared.plan.PriorsWhy.{PriorsWhy};
ghost use Rattle.wave_plan.specs.Validity.{open_gate, HasRecordText, HasRecord, HasAskedRecord, AreValid, IsFirstFault, IsRefusedPriors};
ghost use Rattle.wave_plan.specs.Told.{told};

use crate::found::Found;
use crate::{Asked, PriorsWhy, Seen};
use build_record::{BuildRecord, RecordEnd};
use dep_key::{FileGraph, NoMemory, Text};
use std::alloc::Global;
use swiftdeps::{DepsFault, Header};

/// The byte of a gate that may be trusted.
const OPEN: u8 = 1;

// Whether a gate may be trusted.
fn is_open(gate: &Text) -> bool
    ensures { IsTrue result ↔ (gate.now ≡ open_gate) }
{
    gate.as_slice() == [OPEN].as_slice()
}

// The text of the record, where the folder may be trusted.
fn record_text(seen: &Seen) -> Result<&Text, PriorsWhy>
    ensures { MatchResult result (λ text. HasRecordText seen.now text.now) (λ why. (asked : Asked) → IsFirstFault seen.now asked why) }
{
    let Some(gate) = &seen.gate else {
        return Err(PriorsWhy::NoGate);
    };
    if !is_open(gate) {
        return Err(PriorsWhy::GateClosed);
    }
    match &seen.build_record {
        Some(text) => Ok(text),
        None => Err(PriorsWhy::NoRecord),
    }
}

// The record that a text is.
fn read_record(alloc: Global, text: &Text) -> Result<Result<BuildRecord, PriorsWhy>, NoMemory>
    ensures { (seen : Seen) (asked : Asked) → HasRecordText seen text.now → IfOk result (λ answer. MatchResult answer (HasRecord seen) (IsFirstFault seen asked)) }
{
    match build_record::decode(alloc, text.as_slice()) {
        Ok(read) => Ok(Ok(read)),
        Err(RecordEnd::Fault(fault)) => Ok(Err(PriorsWhy::Record(fault))),
        Err(RecordEnd::NoMemory) => Err(NoMemory),
    }
}

// The record of a folder that may be trusted.
fn held_record(alloc: Global, seen: &Seen) -> Result<Result<BuildRecord, PriorsWhy>, NoMemory>
    ensures { (asked : Asked) → IfOk result (λ answer. MatchResult answer (HasRecord seen.now) (IsFirstFault seen.now asked)) }
{
    match record_text(seen) {
        Ok(text) => read_record(alloc, text),
        Err(why) => Ok(Err(why)),
    }
}

fn copy_of(alloc: Global, text: &Text) -> Result<Text, NoMemory>
    ensures { IfOk result (λ copy. copy ≡ text.now) }
{
    let copy = Text::from_slice(alloc, text.as_slice())?;
    Ok(copy)
}

fn copy_of_map(alloc: Global, map: &Option<Text>) -> Result<Option<Text>, NoMemory>
    ensures { IfOk result (λ copy. copy ≡ map.now) }
{
    match map {
        Some(text) => {
            let copy = copy_of(alloc, text)?;
            Ok(Some(copy))
        }
        None => Ok(None),
    }
}

// Why a record is that of another module, where it is.
fn other_module(alloc: Global, found: &Text, asked: &Text) -> Result<Option<PriorsWhy>, NoMemory>
    ensures { IfOk result (λ why. MatchOption why (found.now ≡ asked.now) (λ why. (found.now ≢ asked.now) × (why ≡ PriorsWhy.OtherModule found.now asked.now))) }
{
    if found == asked {
        return Ok(None);
    }
    let found = copy_of(alloc, found)?;
    let asked = copy_of(alloc, asked)?;
    Ok(Some(PriorsWhy::OtherModule { found, asked }))
}

// Why a record is that of another output file map, where it is.
fn other_map(
    alloc: Global,
    found: &Option<Text>,
    asked: &Option<Text>,
) -> Result<Option<PriorsWhy>, NoMemory>
    ensures { IfOk result (λ why. MatchOption why (found.now ≡ asked.now) (λ why. (found.now ≢ asked.now) × (why ≡ PriorsWhy.OtherMap found.now asked.now))) }
{
    if found == asked {
        return Ok(None);
    }
    let found = copy_of_map(alloc, found)?;
    let asked = copy_of_map(alloc, asked)?;
    Ok(Some(PriorsWhy::OtherMap { found, asked }))
}

// Why a record isn't the one that is asked for, where it isn't.
fn other_record(
    alloc: Global,
    found: &BuildRecord,
    asked: &Asked,
) -> Result<Option<PriorsWhy>, NoMemory>
    ensures { (seen : Seen) → HasRecord seen found.now → IfOk result (λ why. MatchOption why (HasAskedRecord seen asked.now found.now) (IsFirstFault seen asked.now)) }
{
    match other_module(alloc, &found.module, &asked.module)? {
        Some(why) => Ok(Some(why)),
        None => other_map(alloc, &found.map, &asked.map),
    }
}

// The record of the module and of the output file map that are asked for.
fn asked_record(
    alloc: Global,
    seen: &Seen,
    asked: &Asked,
) -> Result<Result<BuildRecord, PriorsWhy>, NoMemory>
    ensures { IfOk result (λ answer. MatchResult answer (HasAskedRecord seen.now asked.now) (IsFirstFault seen.now asked.now)) }
{
    match held_record(alloc, seen)? {
        Ok(read) => match other_record(alloc, &read, asked)? {
            Some(why) => Ok(Err(why)),
            None => Ok(Ok(read)),
        },
        Err(why) => Ok(Err(why)),
    }
}

// The version and the graph of priors.
fn read_priors(
    alloc: Global,
    text: &Text,
) -> Result<Result<(Header, Vec<FileGraph>), PriorsWhy>, NoMemory>
    ensures { IfOk result (λ answer. MatchResult answer (λ x. ArePriors x.0.version x.1.items text.now) (IsRefusedPriors text.now)) }
{
    match priors_store::decode(alloc, text.as_slice()) {
        Ok(read) => Ok(Ok(read)),
        Err(DepsFault::NoMemory) => Err(NoMemory),
        Err(fault) => Ok(Err(PriorsWhy::Priors(fault))),
    }
}

// What priors tell beside this record.
fn with_priors(
    alloc: Global,
    seen: &Seen,
    build_record: BuildRecord,
) -> Result<Result<Found, PriorsWhy>, NoMemory>
    ensures { (asked : Asked) → HasAskedRecord seen.now asked build_record → IfOk result (λ answer. MatchResult answer (λ found. AreValid seen.now asked (told found)) (IsFirstFault seen.now asked)) }
{
    let Some(text) = &seen.priors else {
        return Ok(Err(PriorsWhy::NoPriors));
    };
    match read_priors(alloc, text)? {
        Ok((header, graph)) => Ok(Ok(Found {
            build_record,
            version: header.version,
            graph,
        })),
        Err(why) => Ok(Err(why)),
    }
}

/// What a folder tells of the build before, or the first reason why its priors aren't valid.
pub fn last_build(
    alloc: Global,
    seen: &Seen,
    asked: &Asked,
) -> Result<Result<Found, PriorsWhy>, NoMemory>
    ensures { IfOk result (λ answer. MatchResult answer (λ found. AreValid seen.now asked.now (told found)) (IsFirstFault seen.now asked.now)) }
{
    match asked_record(alloc, seen, asked)? {
        Ok(read) => with_priors(alloc, seen, read),
        Err(why) => Ok(Err(why)),
    }
}
