ghost use Rattle.std.specs.Prelude.{◌≡◌, ◌≤◌, None, All, IsTrue, IfOk};
ghost use Rattle.drv_outside.specs.Faults.{CountRose};
ghost use Rattle.drv_outside.specs.Plain.{is_plain_name};
ghost use Rattle.drv_outside.specs.TreeState.{AscendByPath};
ghost use Rattle.drv_outside.specs.declared.types.TreeEnd.{TreeEnd};

use crate::failure::Failure;
use crate::{disk, walk};
use drv_outside::{Entry, Fault, Name, Text, Tree, TreeEnd, counted_fault};
use std::alloc::Global;
use std::fs::{File, OpenFile, TryLockError};
use std::io::ErrorKind;
use std::rt::Files;
use std::{fs, io};

// So many written files are kept open at once, to be brought to the disk.
const MOST_OPEN: usize = 128;

/// A real project folder, with its build folder at `swift-build` in it. It tells its count of
/// faults alone.
///
/// While it is listed and built, no other driver builds it: an advisory lock on the project folder is
/// taken at the listing and held to the end.
#[derive(Drop)]
pub struct FolderTree<R: Files<File = File> + Eprint + AllocGlobal + Clone + Drop> {
    rt: R,
    folder: String,

    // The project folder, locked.
    lock: Option<File>,

    // The files that were written and not yet brought to the disk.
    unsynced: Vec<File>,

    // Whether what earlier processes wrote is known to be on the disk.
    earlier_synced: bool,

    // Whether a file couldn't be brought to the disk. The system may tell of lost bytes once alone,
    // so no later sync can succeed.
    sync_failed: bool,

    // The first thing that failed.
    failure: Option<Failure>,

    faults: u64,
}

impl<R: Files<File = File> + Eprint + AllocGlobal + Clone + Drop> FolderTree<R> {
    pub fn new(rt: R, folder: String) -> Self {
        let unsynced = Vec::new(rt.alloc());
        FolderTree {
            rt,
            folder,
            lock: None,
            unsynced,
            earlier_synced: false,
            sync_failed: false,
            failure: None,
            faults: 0,
        }
    }

    /// The first thing that failed, if anything did.
    pub fn into_failure(self) -> Option<Failure> {
        self.failure
    }

    // What a failed write, removal or sync answers.
    fn fault(&mut self, failure: Failure) -> Fault
        ensures rose { CountRose self.old.faults self.new.faults }
        ensures later { self.old.faults ≤ self.new.faults }
    {
        if self.failure.is_none() {
            self.failure = Some(failure);
        }
        self.faults = counted_fault(self.faults);
        Fault
    }

    // What a failed reading call answers. Want of memory is no fault of the tree.
    fn end(&mut self, failure: Failure) -> TreeEnd
        ensures rose { result ≡ TreeEnd.Failed → CountRose self.old.faults self.new.faults }
        ensures stays { result ≡ TreeEnd.NoMemory → self.new.faults ≡ self.old.faults }
        ensures later { self.old.faults ≤ self.new.faults }
    {
        if failure.is_no_memory() {
            return TreeEnd::NoMemory;
        }
        let _ = self.fault(failure);
        TreeEnd::Failed
    }
}

// `swift-build/NAME`, as it is told on standard error.
fn shown_build_file(alloc: Global, name: &str, error: io::Error) -> Failure {
    match disk::joined(alloc, walk::BUILD_FOLDER, name) {
        Ok(path) => Failure::at(alloc, path.as_str(), error),
        Err(e) => Failure::at(alloc, walk::BUILD_FOLDER, e),
    }
}

fn build_folder(alloc: Global, folder: &str) -> io::Result<String> {
    disk::joined(alloc, folder, walk::BUILD_FOLDER)
}

fn build_file(alloc: Global, folder: &str, name: &str) -> io::Result<String> {
    let whole = build_folder(alloc, folder)?;
    disk::joined(alloc, whole.as_str(), name)
}

// Waits until no other driver builds the folder, and says so once. A file system without locks has
// none to wait for.
fn lock_folder<R: Files<File = File> + Eprint>(rt: &R, folder: &str) -> io::Result<File> {
    let opened = fs::open(rt, folder)?;
    if let Err(TryLockError::WouldBlock) = opened.try_lock() {
        let _ = eprintln!(rt; "driver: waiting for another build of {folder}");
        opened.lock()?;
    }
    Ok(opened)
}

// The sources of the folder, which is locked first.
fn listed_sources<R: Files<File = File> + Eprint + AllocGlobal + Clone + Drop>(
    tree: &mut FolderTree<R>,
) -> Result<Vec<Entry>, Failure>
    ensures faults { tree.new.faults ≡ tree.old.faults }
    ensures ordered { IfOk result (λ entries. AscendByPath entries.items) }
{
    if tree.lock.is_none() {
        match lock_folder(&tree.rt, tree.folder.as_str()) {
            Ok(lock) => tree.lock = Some(lock),
            Err(e) => return Err(Failure::at(tree.rt.alloc(), "", e)),
        }
    }
    let entries = walk::sources(&tree.rt, tree.folder.as_str())?;
    Ok(entries)
}

fn source_bytes<R: Files + AllocGlobal>(
    rt: &R,
    folder: &str,
    path: &str,
    most: usize,
) -> io::Result<Text> {
    let whole = disk::joined(rt.alloc(), folder, path)?;
    Ok(Text::from_vec(disk::first_bytes(rt, whole.as_str(), most as u64)?))
}

fn map_bytes<R: Files + AllocGlobal>(rt: &R, folder: &str, path: &str) -> io::Result<Option<Text>> {
    let whole = disk::joined(rt.alloc(), folder, path)?;
    Ok(disk::all_bytes(rt, whole.as_str())?.map(Text::from_vec))
}

fn file_bytes<R: Files + AllocGlobal>(
    rt: &R,
    folder: &str,
    name: &str,
) -> io::Result<Option<Text>> {
    let whole = build_file(rt.alloc(), folder, name)?;
    Ok(disk::all_bytes(rt, whole.as_str())?.map(Text::from_vec))
}

fn build_names<R: Files + AllocGlobal + Clone + Drop>(rt: &R, folder: &str) -> io::Result<Vec<Name>>
    ensures { IfOk result (λ plain. All (λ name. IsTrue (is_plain_name name)) plain.items) }
{
    let whole = build_folder(rt.alloc(), folder)?;
    let names = disk::plain_names(rt, whole.as_str())?;
    Ok(names)
}

// Brings the files that are kept open to the disk, and closes them.
fn sync_written<R: Files<File = File> + Eprint + AllocGlobal + Clone + Drop>(
    tree: &mut FolderTree<R>,
) -> io::Result<()>
    ensures { tree.new.faults ≡ tree.old.faults }
{
    for file in &tree.unsynced {
        if let Err(e) = file.sync_all() {
            tree.sync_failed = true;
            return Err(e);
        }
    }
    tree.unsynced.clear();
    Ok(())
}

// Writes a file of the build folder, which is made where it isn't there, and keeps it open.
fn write_build_file<R: Files<File = File> + Eprint + AllocGlobal + Clone + Drop>(
    tree: &mut FolderTree<R>,
    name: &str,
    bytes: &[u8],
) -> io::Result<()>
    ensures { tree.new.faults ≡ tree.old.faults }
{
    let alloc = tree.rt.alloc();
    let folder = build_folder(alloc, tree.folder.as_str())?;
    disk::make_folder(&tree.rt, folder.as_str())?;
    if tree.unsynced.len() == MOST_OPEN {
        sync_written(tree)?;
    }
    let whole = disk::joined(alloc, folder.as_str(), name)?;
    let file = disk::write_anew(&tree.rt, whole.as_str(), bytes)?;
    tree.unsynced.push(file)?;
    Ok(())
}

fn remove_build_file<R: Files + AllocGlobal>(rt: &R, folder: &str, name: &str) -> io::Result<()> {
    let whole = build_file(rt.alloc(), folder, name)?;
    disk::remove(rt, whole.as_str())
}

// Brings all files of the build folder to the disk: an earlier process may have been stopped before it did.
fn sync_earlier<R: Files + AllocGlobal + Clone + Drop>(
    rt: &R,
    folder: &str,
) -> Result<(), Failure> {
    let alloc = rt.alloc();
    let names = build_names(rt, folder).map_err(|e| Failure::at(alloc, walk::BUILD_FOLDER, e))?;
    for name in &names {
        let name = name.as_str();
        let whole = build_file(alloc, folder, name).map_err(|e| shown_build_file(alloc, name, e))?;
        disk::sync_whole(rt, whole.as_str()).map_err(|e| shown_build_file(alloc, name, e))?;
    }
    disk::sync_whole(rt, folder).map_err(|e| Failure::at(alloc, "", e))
}

// Brings all that isn't known to be on the disk there, and the build folder itself.
fn sync_tree<R: Files<File = File> + Eprint + AllocGlobal + Clone + Drop>(
    tree: &mut FolderTree<R>,
) -> Result<(), Failure>
    ensures { tree.new.faults ≡ tree.old.faults }
{
    let alloc = tree.rt.alloc();
    if tree.sync_failed {
        let error = io::Error::new(ErrorKind::Other, "an earlier write was lost");
        return Err(Failure::at(alloc, walk::BUILD_FOLDER, error));
    }
    sync_written(tree).map_err(|e| Failure::at(alloc, walk::BUILD_FOLDER, e))?;
    if !tree.earlier_synced {
        sync_earlier(&tree.rt, tree.folder.as_str())?;
    }
    let build = build_folder(alloc, tree.folder.as_str()).map_err(|e| Failure::at(
        alloc,
        walk::BUILD_FOLDER,
        e,
    ))?;
    disk::sync_whole(&tree.rt, build.as_str()).map_err(|e| Failure::at(
        alloc,
        walk::BUILD_FOLDER,
        e,
    ))?;
    tree.earlier_synced = true;
    Ok(())
}

impl<R: Files<File = File> + Eprint + AllocGlobal + Clone + Drop> Tree for FolderTree<R> {
    ghost observed = { λ _. None };

    ghost faults = { λ tree. tree.faults };

    fn list(&mut self, _alloc: Global) -> Result<Vec<Entry>, TreeEnd> {
        match listed_sources(self) {
            Ok(entries) => Ok(entries),
            Err(failure) => Err(self.end(failure)),
        }
    }

    fn read_source(&mut self, alloc: Global, path: &str, most: usize) -> Result<Text, TreeEnd> {
        match source_bytes(&self.rt, self.folder.as_str(), path, most) {
            Ok(text) => Ok(text),
            Err(e) => Err(self.end(Failure::at(alloc, path, e))),
        }
    }

    fn read_map(&mut self, alloc: Global, path: &str) -> Result<Option<Text>, TreeEnd> {
        match map_bytes(&self.rt, self.folder.as_str(), path) {
            Ok(found) => Ok(found),
            Err(e) => Err(self.end(Failure::at(alloc, path, e))),
        }
    }

    fn names(&mut self, alloc: Global) -> Result<Vec<Name>, TreeEnd> {
        match build_names(&self.rt, self.folder.as_str()) {
            Ok(names) => Ok(names),
            Err(e) => Err(self.end(Failure::at(alloc, walk::BUILD_FOLDER, e))),
        }
    }

    fn read_file(&mut self, alloc: Global, name: &str) -> Result<Option<Text>, TreeEnd> {
        match file_bytes(&self.rt, self.folder.as_str(), name) {
            Ok(found) => Ok(found),
            Err(e) => Err(self.end(shown_build_file(alloc, name, e))),
        }
    }

    fn write_file(&mut self, name: &str, bytes: &[u8]) -> Result<(), Fault> {
        if let Err(e) = write_build_file(self, name, bytes) {
            let failure = shown_build_file(self.rt.alloc(), name, e);
            return Err(self.fault(failure));
        }
        Ok(())
    }

    fn remove_file(&mut self, name: &str) -> Result<(), Fault> {
        if let Err(e) = remove_build_file(&self.rt, self.folder.as_str(), name) {
            let failure = shown_build_file(self.rt.alloc(), name, e);
            return Err(self.fault(failure));
        }
        Ok(())
    }

    fn sync(&mut self) -> Result<(), Fault> {
        match sync_tree(self) {
            Ok(()) => Ok(()),
            Err(failure) => {
                self.sync_failed = true;
                Err(self.fault(failure))
            }
        }
    }
}
