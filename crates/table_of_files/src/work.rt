use crate::order::{are_objects, are_plain, are_sorted};
use anyhow::{Error, anyhow};
use build_record::{BuildRecord, FileState, decode, encode};
use drv_outside::{Path, Stamp, Text};
use file_map::{assign, read};
use module_merge::image;
use sqlite_items::Items;
use std::alloc::{AllocError, Global};

// The text of a map that names the object of each file.
fn map_text(alloc: Global, files: usize) -> Result<String, AllocError> {
    let mut text = String::from_str(alloc, "{")?;
    for file in 0..files {
        if file > 0 {
            text.push_str(",")?;
        }
        let entry = format!(in alloc; "\"f{file:04}.swift\":{{\"object\":\"o{file:04}\"}}")?;
        text.push_str(entry.as_str())?;
    }
    text.push_str("}")?;
    Ok(text)
}

fn paths_of(alloc: Global, files: usize) -> Result<Vec<Path>, AllocError> {
    let mut paths = Vec::new(alloc);
    for file in 0..files {
        paths.push(Path::from_string(format!(in alloc; "f{file:04}.swift")?))?;
    }
    Ok(paths)
}

// How many files names are assigned for.
fn names(alloc: Global, files: usize) -> Result<usize, Error> {
    let text = map_text(alloc, files)?;
    let paths = paths_of(alloc, files)?;
    let Ok(map) = read(alloc, text.as_bytes()) else {
        return Err(anyhow!("the map isn't read"));
    };
    if !are_plain(&paths) {
        return Err(anyhow!("a path isn't plain"));
    }
    if !are_sorted(&paths) {
        return Err(anyhow!("the paths don't ascend"));
    }
    match assign(alloc, &map, "Bench", &paths) {
        Ok(names) => Ok(names.files.len()),
        Err(_) => Err(anyhow!("names aren't assigned")),
    }
}

fn states(alloc: Global, files: usize) -> Result<Vec<FileState>, AllocError> {
    let mut states = Vec::new(alloc);
    for file in 0..files {
        let path = Path::from_string(format!(in alloc; "f{file:04}.swift")?);
        let stamp = Stamp {
            secs: 1700000000,
            nanos: 123456789,
            size: 1000,
        };
        states.push(FileState {
            path,
            stamp,
            clean: true,
        })?;
    }
    Ok(states)
}

// How many files the record of a text has.
fn files_in(alloc: Global, text: &Text) -> usize {
    match decode(alloc, text.as_slice()) {
        Ok(record) => record.files.len(),
        Err(_) => 0,
    }
}

// How long the text of a record is, once it is written and read.
fn record(alloc: Global, files: usize) -> Result<usize, Error> {
    let state = BuildRecord {
        module: Text::from_slice(alloc, b"Bench")?,
        map: None,
        files: Items::from_vec(states(alloc, files)?),
    };
    let Ok(text) = encode(alloc, &state) else {
        return Err(anyhow!("out of memory"));
    };
    if files_in(alloc, &text) == files {
        Ok(text.as_slice().len())
    } else {
        Err(anyhow!("the record isn't read back"))
    }
}

// An object with ten globals, which use those of the file before.
fn object(alloc: Global, file: usize) -> Result<Text, AllocError> {
    let mut text = format!(in alloc; "object f{file:04}.swift\n")?;
    let used = if file > 0 { file - 1 } else { 0 };
    for number in 0..10usize {
        let lines = format!(in alloc;
            "global g{file}_{number} 1\nfunc g{file}_{number}:init 0 0 0\n load g{used}_{number} 0 1\n store g{file}_{number} 0 1\n return 0\nend\n"
        )?;
        text.push_str(lines.as_str())?;
    }
    Ok(Text::from_vec(text.into_bytes()))
}

// How long the image of as many objects is.
fn image_length(alloc: Global, files: usize) -> Result<usize, Error> {
    let mut objects = Vec::new(alloc);
    for file in 0..files {
        objects.push(object(alloc, file)?)?;
    }
    if !are_objects(&objects) {
        return Err(anyhow!("an object has another form"));
    }
    match image(alloc, "Bench", &objects) {
        Ok(text) => Ok(text.as_slice().len()),
        Err(_) => Err(anyhow!("there is no image")),
    }
}

/// The work for so many files, and what it gave.
pub fn lengths(alloc: Global, files: usize) -> Result<String, Error> {
    let named = names(alloc, files)?;
    let record = record(alloc, files)?;
    let image = image_length(alloc, files)?;
    let text = format!(in alloc; "{named} files, record {record}, image {image}")?;
    Ok(text)
}
