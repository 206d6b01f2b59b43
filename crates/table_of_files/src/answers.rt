use crate::cases::Case;
use build_record::{RecordEnd, decode, encode};
use drv_outside::{MapFault, Path, RecordFault, Text, is_plain_path};
use file_map::{MapEnd, Names, assign, read};
use std::alloc::{AllocError, Global};

/// The text of a case.
pub fn text_of(alloc: Global, case: &Case) -> Result<String, AllocError> {
    let mut text = String::from_str(alloc, case.front)?;
    for _ in 0..case.count {
        text.push_str(case.filler)?;
    }
    if case.filler == "[" {
        for _ in 0..case.count {
            text.push_str("]")?;
        }
    }
    text.push_str(case.back)?;
    Ok(text)
}

/// A case as it is printed.
pub fn shown_case(alloc: Global, case: &Case) -> Result<String, AllocError> {
    let Case {
        front,
        filler,
        count,
        back,
    } = case;
    format!(in alloc; "{front}{filler}*{count}{back}")
}

/// A text as it is printed, or `?` where it is no UTF-8.
pub fn shown(text: &Text) -> &str {
    str::from_utf8(text.as_slice()).unwrap_or("?")
}

fn map_fault(alloc: Global, fault: &MapFault) -> Result<String, AllocError> {
    match fault {
        MapFault::Absent => String::from_str(alloc, "Absent"),
        MapFault::NotJson => String::from_str(alloc, "NotJson"),
        MapFault::NotTable => String::from_str(alloc, "NotTable"),
        MapFault::NotObject { key } => format!(in alloc; "NotObject \"{}\"", shown(key)),
        MapFault::Kind { key, kind } => {
            format!(in alloc; "Kind \"{}\" \"{}\"", shown(key), shown(kind))
        }
        MapFault::PathNotPlain { key, kind } => {
            format!(in alloc; "PathNotPlain \"{}\" \"{}\"", shown(key), shown(kind))
        }
        MapFault::PathRepeated { path } => {
            format!(in alloc; "PathRepeated \"{}\"", path.as_str())
        }
    }
}

/// What `file_map::read` answers to a text.
pub fn map_answer(alloc: Global, text: &str) -> Result<String, AllocError> {
    match read(alloc, text.as_bytes()) {
        Ok(_) => String::from_str(alloc, "a map"),
        Err(MapEnd::Fault(fault)) => map_fault(alloc, &fault),
        Err(MapEnd::NoMemory) => Err(AllocError),
    }
}

fn names_text(alloc: Global, names: &Names) -> Result<String, AllocError> {
    let mut text = String::new(alloc);
    for file in names.files.as_slice() {
        text.push_str(file.object.as_str())?;
        text.push_str(" ")?;
        text.push_str(file.partial.as_str())?;
        text.push_str(" ")?;
        text.push_str(file.deps.as_str())?;
        text.push_str(" ")?;
    }
    let own = format!(in alloc;
        "{} {} {} {} {}",
        names.module.as_str(),
        names.image.as_str(),
        names.priors.as_str(),
        names.build_record.as_str(),
        names.gate.as_str()
    )?;
    text.push_str(own.as_str())?;
    Ok(text)
}

/// What `file_map::assign` answers to the map of a text, for the module M and one source.
pub fn names_answer(alloc: Global, map: &str, path: &str) -> Result<String, AllocError> {
    if !is_plain_path(path) {
        return String::from_str(alloc, "no plain path");
    }
    let Ok(map) = read(alloc, map.as_bytes()) else {
        return String::from_str(alloc, "no map");
    };
    let mut paths = Vec::new(alloc);
    paths.push(Path::from_str(alloc, path)?)?;
    match assign(alloc, &map, "M", &paths) {
        Ok(names) => names_text(alloc, &names),
        Err(MapEnd::Fault(fault)) => map_fault(alloc, &fault),
        Err(MapEnd::NoMemory) => Err(AllocError),
    }
}

fn record_fault(alloc: Global, fault: &RecordFault) -> Result<String, AllocError> {
    match fault {
        RecordFault::NotJson => String::from_str(alloc, "NotJson"),
        RecordFault::Field { name } => format!(in alloc; "Field \"{}\"", shown(name)),
        RecordFault::Version { found } => format!(in alloc; "Version {found}"),
        RecordFault::File { path } => format!(in alloc; "File \"{}\"", shown(path)),
    }
}

/// What `build_record::decode` answers to a text, and the text that `encode` makes of the record again.
pub fn record_answer(alloc: Global, text: &str) -> Result<String, AllocError> {
    match decode(alloc, text.as_bytes()) {
        Ok(record) => {
            let Ok(text) = encode(alloc, &record) else {
                return Err(AllocError);
            };
            let files = record.files.len();
            format!(in alloc;
                "a record of \"{}\", {files} files: {}",
                shown(&record.module),
                shown(&text)
            )
        }
        Err(RecordEnd::Fault(fault)) => record_fault(alloc, &fault),
        Err(RecordEnd::NoMemory) => Err(AllocError),
    }
}
