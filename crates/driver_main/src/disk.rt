//! What the folder adapter does with real files.

ghost use Rattle.std.specs.Prelude.{All, IsTrue, IfOk};
ghost use Rattle.drv_outside.specs.Plain.{is_plain_name};

use drv_outside::{Name, is_plain_name};
use std::alloc::{AllocError, Global};
use std::fs::{File, Metadata, OpenFile};
use std::io::{ErrorKind, Read, Write};
use std::os::unix::fs::MetadataExt;
use std::rt::Files;
use std::{fs, io};

/// A larger file is refused: 1 GiB.
const MOST_BYTES: u64 = 1_073_741_824;

/// `FOLDER/NAME`
pub fn joined(alloc: Global, folder: &str, name: &str) -> io::Result<String> {
    Ok(format!(in alloc; "{folder}/{name}")?)
}

// What stands at a path, links not followed, or None where there is nothing.
fn standing<R: Files>(rt: &R, path: &str) -> io::Result<Option<Metadata>> {
    match fs::symlink_metadata(rt, path) {
        Ok(metadata) => Ok(Some(metadata)),
        Err(e) if e.kind() == ErrorKind::NotFound => Ok(None),
        Err(e) => Err(e),
    }
}

// Refuses what is no file, or a larger file than is read.
fn check_file(metadata: &Metadata) -> io::Result<()> {
    if metadata.is_dir() {
        return Err(io::Error::from(ErrorKind::IsADirectory));
    }
    if !metadata.is_file() {
        return Err(io::Error::new(ErrorKind::InvalidData, "not a file"));
    }
    if metadata.len() > MOST_BYTES {
        return Err(io::Error::from(ErrorKind::FileTooLarge));
    }
    Ok(())
}

// Opens the file that was seen at a path. What was put there since, as a link, is refused.
fn open_seen<R: Files>(rt: &R, path: &str, seen: &Metadata) -> io::Result<R::File> {
    check_file(seen)?;
    let file = fs::open(rt, path)?;
    let opened = file.metadata()?;
    if (opened.dev(), opened.ino()) != (seen.dev(), seen.ino()) {
        return Err(io::Error::new(ErrorKind::InvalidData, "replaced while it was read"));
    }
    Ok(file)
}

// The first `most` bytes of the file that was seen at a path.
fn bytes_seen<R: Files + AllocGlobal>(
    rt: &R,
    path: &str,
    seen: &Metadata,
    most: u64,
) -> io::Result<Vec<u8>> {
    let mut bytes = Vec::new(rt.alloc());
    let file = open_seen(rt, path, seen)?;
    file.take(most).read_to_end(&mut bytes)?;
    Ok(bytes)
}

/// The first `most` bytes of a file.
pub fn first_bytes<R: Files + AllocGlobal>(rt: &R, path: &str, most: u64) -> io::Result<Vec<u8>> {
    let seen = fs::symlink_metadata(rt, path)?;
    bytes_seen(rt, path, &seen, most)
}

/// All bytes of a file, or None where there is none.
pub fn all_bytes<R: Files + AllocGlobal>(rt: &R, path: &str) -> io::Result<Option<Vec<u8>>> {
    match standing(rt, path)? {
        Some(seen) => Ok(Some(bytes_seen(rt, path, &seen, MOST_BYTES)?)),
        None => Ok(None),
    }
}

// Whether a folder stands at a path. What stands there and is none is refused.
fn is_folder<R: Files>(rt: &R, path: &str) -> io::Result<bool> {
    match standing(rt, path)? {
        None => Ok(false),
        Some(metadata) if metadata.is_dir() => Ok(true),
        Some(_) => Err(io::Error::from(ErrorKind::NotADirectory)),
    }
}

// The names of the files of a folder, in byte order. A folder that isn't there has none, and a name
// that isn't UTF-8 is passed over.
fn file_names<R: Files + AllocGlobal + Clone + Drop>(
    rt: &R,
    folder: &str,
) -> io::Result<Vec<Name>> {
    let alloc = rt.alloc();
    let mut names = Vec::new(alloc);
    if !is_folder(rt, folder)? {
        return Ok(names);
    }
    for entry in fs::read_dir(rt, folder)? {
        let entry = match entry {
            Ok(entry) => entry,
            Err(e) if e.kind() == ErrorKind::InvalidFilename => continue,
            Err(e) => return Err(e),
        };
        if entry.file_type()?.is_file() {
            names.push(Name::from_str(alloc, entry.file_name())?)?;
        }
    }
    names.sort()?;
    Ok(names)
}

// Those of the names that are plain, in their order.
fn only_plain(alloc: Global, names: Vec<Name>) -> Result<Vec<Name>, AllocError>
    ensures { IfOk result (λ plain. All (λ name. IsTrue (is_plain_name name)) plain.items) }
{
    let mut plain = Vec::new(alloc);
    for name in names {
        if is_plain_name(name.as_str()) {
            plain.push(name)?;
        }
    }
    Ok(plain)
}

/// The plain names of the files of a folder, in byte order. A folder that isn't there has none.
pub fn plain_names<R: Files + AllocGlobal + Clone + Drop>(
    rt: &R,
    folder: &str,
) -> io::Result<Vec<Name>>
    ensures { IfOk result (λ plain. All (λ name. IsTrue (is_plain_name name)) plain.items) }
{
    let names = file_names(rt, folder)?;
    let plain = only_plain(rt.alloc(), names)?;
    Ok(plain)
}

/// Writes a file anew, and gives it still open. What stood under its name is removed first: another
/// link to it keeps its bytes, nothing is written through a link, and a file without the right to be
/// written is no hindrance.
pub fn write_anew<R: Files>(rt: &R, path: &str, bytes: &[u8]) -> io::Result<R::File> {
    remove(rt, path)?;
    let mut file = File::create_new(rt, path)?;
    file.write_all(bytes)?;
    Ok(file)
}

/// Removes a file, where it is there.
pub fn remove<R: Files>(rt: &R, path: &str) -> io::Result<()> {
    match fs::remove_file(rt, path) {
        Err(e) if e.kind() == ErrorKind::NotFound => Ok(()),
        removed => removed,
    }
}

/// Makes a folder where it isn't there.
pub fn make_folder<R: Files>(rt: &R, path: &str) -> io::Result<()> {
    if !is_folder(rt, path)? {
        fs::create_dir(rt, path)?;
    }
    Ok(())
}

/// Brings a file or a folder to the disk. One that isn't there has nothing to bring.
pub fn sync_whole<R: Files>(rt: &R, path: &str) -> io::Result<()> {
    match fs::open(rt, path) {
        Ok(file) => file.sync_all(),
        Err(e) if e.kind() == ErrorKind::NotFound => Ok(()),
        Err(e) => Err(e),
    }
}
