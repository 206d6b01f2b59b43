ghost use Rattle.std.specs.Prelude.{◌≡◌, ◌++◌, IfOk, IfErr, OnOk};
ghost use Rattle.serde_json.specs.Find.{as_object};
ghost use Rattle.serde_json.specs.View.{view, members_view};
ghost use Rattle.file_map.specs.Kinds.{name_under, names_under, names_at, given_names};
ghost use Rattle.file_map.specs.Reading.{IsMapFault, IsValueFault, IsTextOfMap, IsEnd};
ghost use Rattle.file_map.specs.Repeated.{IsRepeatFault};
ghost use Rattle.file_map.specs.Table.{members};

use crate::faults::keys_fault;
use crate::known::is_known;
use crate::repeated::repeat_fault;
use crate::{FileMap, MapEnd, MapFault};
use drv_outside::{Name, NoMemory};
use serde_json::{Map, Value};
use std::alloc::Global;

// Adds the name that a known kind gives.
fn push_name(
    alloc: Global,
    names: &mut Vec<Name>,
    key: &str,
    kind: &str,
    value: &Value,
) -> Result<(), NoMemory>
    ensures { OnOk result (names.new.items ≡ names.old.items ++ name_under key.now kind.now (view value.now)) }
{
    if is_known(key, kind) {
        if let Some(name) = value.as_str() {
            names.push(Name::from_str(alloc, name)?)?;
        }
    }
    Ok(())
}

// Adds the names that known kinds give under a key.
fn push_names(
    alloc: Global,
    names: &mut Vec<Name>,
    key: &str,
    kinds: &Map<String, Value>,
) -> Result<(), NoMemory>
    ensures { OnOk result (names.new.items ≡ names.old.items ++ names_under key.now (members_view kinds.now.entries)) }
{
    for (kind, value) in kinds.iter() {
        push_name(alloc, names, key, kind.as_str(), value)?;
    }
    Ok(())
}

// Adds the names that known kinds give under a key with this value.
fn push_names_at(
    alloc: Global,
    names: &mut Vec<Name>,
    key: &str,
    value: &Value,
) -> Result<(), NoMemory>
    ensures { OnOk result (names.new.items ≡ names.old.items ++ names_at key.now (view value.now)) }
{
    if let Some(kinds) = value.as_object() {
        push_names(alloc, names, key, kinds)?;
    }
    Ok(())
}

// The names that known kinds give, by key and kind.
fn given_names(alloc: Global, keys: &Map<String, Value>) -> Result<Vec<Name>, NoMemory>
    ensures { IfOk result (λ names. names.items ≡ given_names (members_view keys.now.entries)) }
{
    let mut names = Vec::new(alloc);
    for (key, value) in keys.iter() {
        push_names_at(alloc, &mut names, key.as_str(), value)?;
    }
    Ok(names)
}

// The least name that known kinds give twice.
fn names_fault(alloc: Global, keys: &Map<String, Value>) -> Result<Option<MapFault>, NoMemory>
    ensures { IfOk result (λ fault. IsRepeatFault (given_names (members_view keys.now.entries)) fault) }
{
    let names = given_names(alloc, keys)?;
    let fault = repeat_fault(alloc, &names)?;
    Ok(fault)
}

// The first fault of an object.
fn map_fault(alloc: Global, keys: &Map<String, Value>) -> Result<Option<MapFault>, NoMemory>
    ensures { IfOk result (λ fault. IsMapFault (members_view keys.now.entries) fault) }
{
    match keys_fault(alloc, keys)? {
        Some(fault) => Ok(Some(fault)),
        None => {
            let fault = names_fault(alloc, keys)?;
            Ok(fault)
        }
    }
}

// The first fault of a value.
fn value_fault(alloc: Global, value: &Value) -> Result<Option<MapFault>, NoMemory>
    ensures { IfOk result (λ fault. IsValueFault (view value.now) fault) }
{
    let Some(keys) = value.as_object() else {
        return Ok(Some(MapFault::NotTable));
    };
    let fault = map_fault(alloc, keys)?;
    Ok(fault)
}

/// The output file map that these bytes are the text of.
///
/// It is a JSON object from the path of a source to an object from a kind of output to a name. The
/// known kinds of a source are `object`, `swiftmodule` (the partial module text) and
/// `swift-dependencies`. Under the empty key stand the outputs of the module, with the kinds
/// `swiftmodule`, `swift-dependencies` (the build record), `image`, `priors` and `gate`. Other kinds
/// are passed over. JSON is read as `serde_json` reads it: of a member that comes twice the last
/// counts.
///
/// # Errors
///
/// The first fault: no JSON text; no object; then, by key and kind in byte order, a key that has no
/// object, a known kind that has no text, and one whose text isn't a plain name; then the least name
/// that known kinds give twice. `NoMemory` where memory was wanted.
pub fn read(alloc: Global, bytes: &[u8]) -> Result<FileMap, MapEnd>
    ensures map { IfOk result (λ map. IsTextOfMap bytes.now (members map)) }
    ensures fault { IfErr result (λ end. IsEnd bytes.now end) }
{
    let value = match Value::from_slice(alloc, bytes) {
        Ok(value) => value,
        Err(error) if error.is_memory() => return Err(MapEnd::NoMemory),
        Err(_) => return Err(MapEnd::Fault(MapFault::NotJson)),
    };
    match value_fault(alloc, &value) {
        Ok(None) => Ok(FileMap::from_table(value)),
        Ok(Some(fault)) => Err(MapEnd::Fault(fault)),
        Err(_) => Err(MapEnd::NoMemory),
    }
}
