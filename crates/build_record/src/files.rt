ghost use Rattle.std.specs.Prelude.{◌≡◌, [], IfOk};
ghost use Rattle.serde_json.specs.View.{view, members_view};
ghost use Rattle.build_record.specs.Reading.{number_at, stamp_of, clean_word, clean_of, file_of, files_after};
ghost use Rattle.build_record.specs.Sources.{AreSources};

use crate::FileState;
use drv_outside::{NoMemory, Path, RecordFault, Stamp, Text, is_plain_path};
use serde_json::{Map, Value};
use sqlite_items::Items;
use std::alloc::Global;

fn number_at(value: &Value, place: usize) -> Option<u64>
    ensures { result ≡ number_at place (view value.now) }
{
    value.get(place).and_then(Value::as_u64)
}

fn stamp_of(value: &Value) -> Option<Stamp>
    ensures { result ≡ stamp_of (view value.now) }
{
    let secs = number_at(value, 0)?;
    let nanos = number_at(value, 1)?;
    let size = number_at(value, 2)?;
    if nanos < 4294967296 {
        let nanos = nanos as u32;
        Some(Stamp { secs, nanos, size })
    } else {
        None
    }
}

fn clean_word(word: &str) -> Option<bool>
    ensures { result ≡ clean_word word.now }
{
    if word == "clean" {
        Some(true)
    } else if word == "dirty" {
        Some(false)
    } else {
        None
    }
}

fn clean_of(value: &Value) -> Option<bool>
    ensures { result ≡ clean_of (view value.now) }
{
    if value.get(4usize).is_some() {
        return None;
    }
    let word = value.get(3usize).and_then(Value::as_str)?;
    clean_word(word)
}

fn file_of(alloc: Global, path: &str, value: &Value) -> Result<Option<FileState>, NoMemory>
    ensures { IfOk result (λ file. file ≡ file_of path.now (view value.now)) }
{
    if !is_plain_path(path) {
        return Ok(None);
    }
    let Some(stamp) = stamp_of(value) else {
        return Ok(None);
    };
    let Some(clean) = clean_of(value) else {
        return Ok(None);
    };
    let path = Path::from_str(alloc, path)?;
    Ok(Some(FileState { path, stamp, clean }))
}

/// The files that these members are, or the first that is none.
pub fn files_of(
    alloc: Global,
    members: &Map<String, Value>,
) -> Result<Result<Items<FileState>, RecordFault>, NoMemory>
    ensures files { IfOk result (λ files. files ≡ files_after [] (members_view members.now.entries)) }
    ensures sources { IfOk result (λ files. IfOk files AreSources) }
{
    let mut files = Items::new(alloc);
    for (path, value) in members.iter() {
        let Some(file) = file_of(alloc, path.as_str(), value)? else {
            let path = Text::from_slice(alloc, path.as_bytes())?;
            return Ok(Err(RecordFault::File { path }));
        };
        files.push(file)?;
    }
    Ok(Ok(files))
}
