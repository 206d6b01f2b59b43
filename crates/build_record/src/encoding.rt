ghost use Rattle.std.specs.Prelude.{◌≡◌, IsTrue, IfOk, IfSome, IsUtf8};
ghost use Rattle.std.specs.List.{list_all};
ghost use Rattle.serde_json.specs.Data.{no_members, string, object};
ghost use Rattle.serde_json.specs.View.{view, members_view};
ghost use Rattle.build_record.specs.Format.{stamp_value, with_files, map_value, record_value, record_text};
ghost use Rattle.build_record.specs.Reading.{IsTextOfRecord};
ghost use Rattle.build_record.specs.Sources.{nanos_fit, AreSources};

use crate::{BuildRecord, FileState};
use drv_outside::{NoMemory, Text};
use serde_json::{Map, Value, json};
use std::alloc::{AllocError, Global};

fn text_value(alloc: Global, text: &Text) -> Result<Value, AllocError>
    requires { IsUtf8 text.now }
    ensures { IfOk result (λ value. view value ≡ string text.now) }
{
    let text = std::str::from_utf8(text.as_slice()).unwrap();
    let value = Value::try_from_str(alloc, text)?;
    Ok(value)
}

fn map_value(alloc: Global, map: &Option<Text>) -> Result<Value, AllocError>
    requires { IfSome map.now IsUtf8 }
    ensures { IfOk result (λ value. view value ≡ map_value map.now) }
{
    match map {
        Some(text) => {
            let value = text_value(alloc, text)?;
            Ok(value)
        }
        None => Ok(Value::Null),
    }
}

// The nanoseconds of a file's stamp. They fit 32 bits.
fn nanos_of(file: &FileState) -> u32
    ensures value { result ≡ file.now.stamp.nanos }
    ensures fit { IsTrue (nanos_fit file.now) }
{
    file.stamp.nanos
}

fn file_value(alloc: Global, file: &FileState) -> Result<Value, AllocError>
    ensures value { IfOk result (λ value. view value ≡ stamp_value file.now.stamp file.now.clean) }
    ensures fits { IsTrue (nanos_fit file.now) }
{
    let stamp = file.stamp;
    let nanos = nanos_of(file);
    let word = if file.clean { "clean" } else { "dirty" };
    let value = json!(in alloc; [stamp.secs, nanos, stamp.size, word])?;
    Ok(value)
}

fn files_value(alloc: Global, files: &[FileState]) -> Result<Value, AllocError>
    ensures value { IfOk result (λ value. view value ≡ object (with_files no_members files.now)) }
    ensures fit { IfOk result (λ _. IsTrue (list_all nanos_fit files.now)) }
{
    let mut members = Map::new(alloc);
    for file in files {
        let value = file_value(alloc, file)?;
        serde_json::put(&mut members, alloc, file.path.as_str(), value)?;
    }
    Ok(Value::Object(members))
}

fn record_value(alloc: Global, state: &BuildRecord) -> Result<Value, AllocError>
    requires module { IsUtf8 state.now.module }
    requires map { IfSome state.now.map IsUtf8 }
    ensures value { IfOk result (λ value. view value ≡ record_value state.now) }
    ensures fit { IfOk result (λ _. IsTrue (list_all nanos_fit state.now.files)) }
{
    let files = files_value(alloc, state.files.as_slice())?;
    let mut members = Map::new(alloc);
    serde_json::put(&mut members, alloc, "files", files)?;
    let map = map_value(alloc, &state.map)?;
    serde_json::put(&mut members, alloc, "map", map)?;
    let module = text_value(alloc, &state.module)?;
    serde_json::put(&mut members, alloc, "module", module)?;
    serde_json::put(&mut members, alloc, "version", Value::from(1u64))?;
    Ok(Value::Object(members))
}

/// The text of a record. `decode` reads it back as the record, where its paths are plain and ascend.
pub fn encode(alloc: Global, state: &BuildRecord) -> Result<Text, NoMemory>
    requires module { IsUtf8 state.now.module }
    requires map { IfSome state.now.map IsUtf8 }
    ensures text { IfOk result (λ text. text ≡ record_text state.now) }
    ensures read_back { AreSources state.now.files → IfOk result (λ text. IsTextOfRecord text state.now) }
{
    let value = record_value(alloc, state)?;
    let text = value.to_string(alloc)?;
    Ok(Text::from_vec(text.into_bytes()))
}
