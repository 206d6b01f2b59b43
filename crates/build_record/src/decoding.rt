ghost use Rattle.std.specs.Prelude.{◌≡◌, [], IfOk, IfErr, IfSome, IsUtf8, option_map, option_and_then, codes};
ghost use Rattle.drv_outside.specs.declared.faults.RecordFault.TheVariants.{Field};
ghost use Rattle.serde_json.specs.Find.{get, as_object};
ghost use Rattle.serde_json.specs.View.{view, members_view};
ghost use Rattle.build_record.specs.Reading.{text_or_null, is_member_name, other_name, of_files, files_after, fields_of, record_of, IsTextOfRecord, IsEnd};
ghost use Rattle.build_record.specs.Sources.{AreSources, CanBeWritten};

use crate::files::files_of;
use crate::{BuildRecord, RecordEnd};
use drv_outside::{NoMemory, RecordFault, Text};
use serde_json::{Map, Value};
use std::alloc::Global;

fn is_member_name(name: &str) -> bool
    ensures { result ≡ is_member_name name.now }
{
    name == "files" || name == "map" || name == "module" || name == "version"
}

fn other_name(members: &Map<String, Value>) -> Option<&str>
    ensures { option_map (λ name. name.now) result ≡ other_name (members_view members.now.entries) }
{
    for (name, _) in members.iter() {
        if !is_member_name(name.as_str()) {
            return Some(name.as_str());
        }
    }
    None
}

fn other_member(value: &Value) -> Option<&str>
    ensures { option_map (λ name. name.now) result ≡ option_and_then other_name (as_object (view value.now)) }
{
    let members = value.as_object()?;
    other_name(members)
}

fn text_or_null(value: &Value) -> Option<Option<&str>>
    ensures { option_map (option_map (λ text. text.now)) result ≡ text_or_null (view value.now) }
{
    match value {
        Value::Null => Some(None),
        Value::String(text) => Some(Some(text.as_str())),
        _ => None,
    }
}

type Answer = Result<BuildRecord, RecordFault>;

fn field_fault(alloc: Global, name: &str) -> Result<RecordFault, NoMemory>
    ensures { IfOk result (λ fault. fault ≡ Field name.now) }
{
    let name = Text::from_slice(alloc, name.as_bytes())?;
    Ok(RecordFault::Field { name })
}

fn copy_of(alloc: Global, text: &str) -> Result<Text, NoMemory>
    ensures same { IfOk result (λ copy. copy ≡ text.now) }
    ensures utf8 { IfOk result IsUtf8 }
{
    let copy = Text::from_slice(alloc, text.as_bytes())?;
    Ok(copy)
}

fn text_of(alloc: Global, text: Option<&str>) -> Result<Option<Text>, NoMemory>
    ensures same { IfOk result (λ copy. copy ≡ option_map (λ t. t.now) text.entry) }
    ensures utf8 { IfOk result (λ copy. IfSome copy IsUtf8) }
{
    match text {
        Some(text) => {
            let copy = copy_of(alloc, text)?;
            Ok(Some(copy))
        }
        None => Ok(None),
    }
}

fn record_with(
    alloc: Global,
    name: &str,
    map: Option<&str>,
    files: &Map<String, Value>,
) -> Result<Answer, NoMemory>
    ensures answer { IfOk result (λ answer. answer ≡ of_files name.now (option_map (λ text. text.now) map.entry) (files_after [] (members_view files.now.entries))) }
    ensures writable { IfOk result (λ answer. IfOk answer CanBeWritten) }
{
    let map = text_of(alloc, map)?;
    let module = copy_of(alloc, name)?;
    match files_of(alloc, files)? {
        Ok(files) => Ok(Ok(BuildRecord { module, map, files })),
        Err(fault) => Ok(Err(fault)),
    }
}

#[tactic(auto, unfolding(crate::specs::Reading::fields_of))]
fn fields_of(alloc: Global, value: &Value) -> Result<Answer, NoMemory>
    ensures answer { IfOk result (λ answer. answer ≡ fields_of (view value.now)) }
    ensures writable { IfOk result (λ answer. IfOk answer CanBeWritten) }
{
    let Some(files) = value.get("files").and_then(Value::as_object) else {
        return Ok(Err(field_fault(alloc, "files")?));
    };
    let Some(map) = value.get("map").and_then(text_or_null) else {
        return Ok(Err(field_fault(alloc, "map")?));
    };
    let Some(module) = value.get("module").and_then(Value::as_str) else {
        return Ok(Err(field_fault(alloc, "module")?));
    };
    if let Some(name) = other_member(value) {
        return Ok(Err(field_fault(alloc, name)?));
    }
    let answer = record_with(alloc, module, map, files)?;
    Ok(answer)
}

#[tactic(auto, unfolding(crate::specs::Reading::record_of))]
fn record_of(alloc: Global, value: &Value) -> Result<Answer, NoMemory>
    ensures answer { IfOk result (λ answer. answer ≡ record_of (view value.now)) }
    ensures writable { IfOk result (λ answer. IfOk answer CanBeWritten) }
{
    let Some(found) = value.get("version").and_then(Value::as_u64) else {
        return Ok(Err(field_fault(alloc, "version")?));
    };
    if found != 1 {
        return Ok(Err(RecordFault::Version { found }));
    }
    let answer = fields_of(alloc, value)?;
    Ok(answer)
}

/// The record that these bytes are the text of.
///
/// JSON is read as `serde_json` reads it: of a member that comes twice the last counts. The record can
/// be given to `encode` as it is, and its files are by path, each path once.
///
/// # Errors
///
/// The first fault: no JSON text; no unsigned number `version`, or one that isn't 1; the first of
/// `files`, `map` and `module` that is missing or has another form; the least other member; the
/// least file whose path isn't plain or that has another form. `NoMemory` where memory was wanted.
pub fn decode(alloc: Global, bytes: &[u8]) -> Result<BuildRecord, RecordEnd>
    ensures record { IfOk result (λ r. IsTextOfRecord bytes.now r) }
    ensures sources { IfOk result (λ r. AreSources r.files) }
    ensures module { IfOk result (λ r. IsUtf8 r.module) }
    ensures map { IfOk result (λ r. IfSome r.map IsUtf8) }
    ensures fault { IfErr result (λ end. IsEnd bytes.now end) }
{
    let value = match Value::from_slice(alloc, bytes) {
        Ok(value) => value,
        Err(error) if error.is_memory() => return Err(RecordEnd::NoMemory),
        Err(_) => return Err(RecordEnd::Fault(RecordFault::NotJson)),
    };
    match record_of(alloc, &value) {
        Ok(Ok(record)) => Ok(record),
        Ok(Err(fault)) => Err(RecordEnd::Fault(fault)),
        Err(_) => Err(RecordEnd::NoMemory),
    }
}
