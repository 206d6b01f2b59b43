//! The sources below the project folder.

ghost use Rattle.std.specs.Prelude.{IfOk};
ghost use Rattle.drv_outside.specs.TreeState.{AscendByPath};

use crate::disk::joined;
use crate::failure::Failure;
use drv_outside::{Entry, Path, Stamp, ascend_by_path};
use std::alloc::Global;
use std::fs::Metadata;
use std::io::{ErrorKind, Read};
use std::rt::Files;
use std::time::UNIX_EPOCH;
use std::{fs, io};

/// The name of the build folder in the project folder.
pub const BUILD_FOLDER: &str = "swift-build";

// A folder may stand this many levels below the project folder.
const MOST_LEVELS: u32 = 100;

// How many bytes of names are asked for at once.
const NAMES_AT_ONCE: usize = 65_536;

// The stamp of a file: when it was changed, and its size. A time before 1970 is refused.
fn stamp_of(metadata: &Metadata) -> io::Result<Stamp> {
    let size = metadata.len();
    match metadata.modified()?.duration_since(UNIX_EPOCH) {
        Ok(since) => Ok(Stamp {
            secs: since.as_secs(),
            nanos: since.subsec_nanos(),
            size,
        }),
        Err(_) => Err(io::Error::from(ErrorKind::InvalidData)),
    }
}

// A folder that is still to be read: its path below the project folder, and how many levels of
// folders it may have in it.
#[derive(Drop)]
struct Pending {
    below: String,
    levels: u32,
}

// What a walk has found and what it still has to read.
#[derive(Drop)]
struct Walk {
    pending: Vec<Pending>,
    entries: Vec<Entry>,
}

fn below(alloc: Global, folder: &str, name: &str) -> io::Result<String> {
    if folder.is_empty() {
        return Ok(String::from_str(alloc, name)?);
    }
    joined(alloc, folder, name)
}

// The names in a folder, each with a zero byte behind it, as the system gives them. They needn't be
// UTF-8.
fn names_in<R: Files + AllocGlobal>(rt: &R, folder: &str) -> io::Result<Vec<u8>> {
    let alloc = rt.alloc();
    let mut some = vec![in alloc; 0u8; NAMES_AT_ONCE]?;
    let mut names = Vec::new(alloc);
    let mut dir = rt.open_dir(folder)?;
    for _ in 0..u64::MAX {
        let count = dir.read(&mut some)?;
        if count == 0 {
            break;
        }
        names.extend_from_slice(&some[..count])?;
    }
    Ok(names)
}

// Whether a name is passed over: a hidden one anywhere, and the build folder in the project folder.
fn is_passed_over(folder: &str, name: &[u8]) -> bool {
    match name {
        [] | [b'.', ..] => true,
        _ => folder.is_empty() && name == BUILD_FOLDER.as_bytes(),
    }
}

// Takes what stands under a name in a folder into the walk: a source, or a folder.
fn take<R: Files + AllocGlobal>(
    rt: &R,
    whole: &str,
    levels: u32,
    path: &str,
    walk: &mut Walk,
) -> io::Result<()> {
    let metadata = fs::symlink_metadata(rt, whole)?;
    let path = String::from_str(rt.alloc(), path)?;
    if metadata.is_dir() {
        let Some(levels) = levels.checked_sub(1) else {
            let message = "more than 100 levels below the project folder";
            return Err(io::Error::new(ErrorKind::InvalidData, message));
        };
        walk.pending.push(Pending {
            below: path,
            levels,
        })?;
    } else if metadata.is_file() && path.ends_with(".swift") {
        let stamp = stamp_of(&metadata)?;
        let path = Path::from_string(path);
        walk.entries.push(Entry { path, stamp })?;
    }
    Ok(())
}

// Takes what stands under a name in a folder into the walk. A name that isn't UTF-8 is refused, since
// what stands under it can't be asked for.
fn take_name<R: Files + AllocGlobal>(
    rt: &R,
    whole: &str,
    folder: &Pending,
    name: &[u8],
    walk: &mut Walk,
) -> Result<(), Failure> {
    let alloc = rt.alloc();
    let parent = folder.below.as_str();
    let Ok(name) = str::from_utf8(name) else {
        let error = io::Error::new(ErrorKind::InvalidFilename, "a name in it isn't UTF-8");
        return Err(Failure::at(alloc, parent, error));
    };
    let path = below(alloc, parent, name).map_err(|e| Failure::at(alloc, parent, e))?;
    let whole = joined(alloc, whole, name).map_err(|e| Failure::at(alloc, parent, e))?;
    take(rt, whole.as_str(), folder.levels, path.as_str(), walk).map_err(|e| Failure::at(
        alloc,
        path.as_str(),
        e,
    ))
}

// Reads one folder: its sources, and the folders in it.
fn read_one<R: Files + AllocGlobal>(
    rt: &R,
    whole: &str,
    folder: &Pending,
    walk: &mut Walk,
) -> Result<(), Failure> {
    let parent = folder.below.as_str();
    let names = names_in(rt, whole).map_err(|e| Failure::at(rt.alloc(), parent, e))?;
    for name in names.split(|byte| *byte == 0) {
        if !is_passed_over(parent, name) {
            take_name(rt, whole, folder, name, walk)?;
        }
    }
    Ok(())
}

// Entries in byte order of path. A path that is there twice is refused.
fn in_order(alloc: Global, mut entries: Vec<Entry>) -> Result<Vec<Entry>, Failure>
    ensures { IfOk result (λ entries. AscendByPath entries.items) }
{
    entries.sort_by(|a, b| a.path.cmp(&b.path))?;
    if !ascend_by_path(&entries) {
        let error = io::Error::new(ErrorKind::InvalidData, "a path is listed twice");
        return Err(Failure::at(alloc, "", error));
    }
    Ok(entries)
}

/// The files below a folder whose names end with `.swift`, in byte order of path. Hidden names and
/// the build folder are passed over, and links aren't followed. A path that is found twice is a
/// fault.
pub fn sources<R: Files + AllocGlobal + Clone + Drop>(
    rt: &R,
    folder: &str,
) -> Result<Vec<Entry>, Failure>
    ensures { IfOk result (λ entries. AscendByPath entries.items) }
{
    let alloc = rt.alloc();
    let mut walk = Walk {
        pending: Vec::new(alloc),
        entries: Vec::new(alloc),
    };
    walk.pending.push(Pending {
        below: String::new(alloc),
        levels: MOST_LEVELS,
    })?;
    // A folder may hold any number of folders, so no count falls by which a `while let` would be seen to end.
    for _ in 0..u64::MAX {
        let Some(next) = walk.pending.pop() else {
            break;
        };
        let whole = joined(alloc, folder, next.below.as_str()).map_err(|e| Failure::at(
            alloc,
            next.below.as_str(),
            e,
        ))?;
        read_one(rt, whole.as_str(), &next, &mut walk)?;
    }
    let Walk { entries, .. } = walk;
    let ordered = in_order(alloc, entries)?;
    Ok(ordered)
}
