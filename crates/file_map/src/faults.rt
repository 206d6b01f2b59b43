ghost use Rattle.std.specs.Prelude.{◌≡◌, IfOk, option_map};
ghost use Rattle.serde_json.specs.Find.{as_object};
ghost use Rattle.serde_json.specs.View.{view, members_view};
ghost use Rattle.file_map.specs.Reading.{name_fault, output_fault, outputs_fault, object_fault, keys_fault};

use crate::MapFault;
use crate::known::is_known;
use drv_outside::{NoMemory, Text, is_plain_name};
use serde_json::{Map, Value};
use std::alloc::Global;

fn name_fault(
    alloc: Global,
    key: &str,
    kind: &str,
    name: Option<&str>,
) -> Result<Option<MapFault>, NoMemory>
    ensures { IfOk result (λ fault. fault ≡ name_fault key.now kind.now (option_map (λ name. name.now) name.entry)) }
{
    let Some(name) = name else {
        let key = Text::from_slice(alloc, key.as_bytes())?;
        let kind = Text::from_slice(alloc, kind.as_bytes())?;
        return Ok(Some(MapFault::Kind { key, kind }));
    };
    if is_plain_name(name) {
        return Ok(None);
    }
    let key = Text::from_slice(alloc, key.as_bytes())?;
    let kind = Text::from_slice(alloc, kind.as_bytes())?;
    Ok(Some(MapFault::PathNotPlain { key, kind }))
}

fn output_fault(
    alloc: Global,
    key: &str,
    kind: &str,
    value: &Value,
) -> Result<Option<MapFault>, NoMemory>
    ensures { IfOk result (λ fault. fault ≡ output_fault key.now kind.now (view value.now)) }
{
    if !is_known(key, kind) {
        return Ok(None);
    }
    let fault = name_fault(alloc, key, kind, value.as_str())?;
    Ok(fault)
}

fn outputs_fault(
    alloc: Global,
    key: &str,
    kinds: &Map<String, Value>,
) -> Result<Option<MapFault>, NoMemory>
    ensures { IfOk result (λ fault. fault ≡ outputs_fault key.now (members_view kinds.now.entries)) }
{
    for (kind, value) in kinds.iter() {
        if let Some(fault) = output_fault(alloc, key, kind.as_str(), value)? {
            return Ok(Some(fault));
        }
    }
    Ok(None)
}

fn object_fault(alloc: Global, key: &str, value: &Value) -> Result<Option<MapFault>, NoMemory>
    ensures { IfOk result (λ fault. fault ≡ object_fault key.now (as_object (view value.now))) }
{
    let Some(kinds) = value.as_object() else {
        let key = Text::from_slice(alloc, key.as_bytes())?;
        return Ok(Some(MapFault::NotObject { key }));
    };
    let fault = outputs_fault(alloc, key, kinds)?;
    Ok(fault)
}

// The fault of the first key that has one.
pub(crate) fn keys_fault(
    alloc: Global,
    keys: &Map<String, Value>,
) -> Result<Option<MapFault>, NoMemory>
    ensures { IfOk result (λ fault. fault ≡ keys_fault (members_view keys.now.entries)) }
{
    for (key, value) in keys.iter() {
        if let Some(fault) = object_fault(alloc, key.as_str(), value)? {
            return Ok(Some(fault));
        }
    }
    Ok(None)
}
