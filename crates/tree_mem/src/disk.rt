ghost use Rattle.std.specs.Prelude.{◌≡◌, ◌++◌, [], ◌∷◌, cond, All, IsTrue, IfOk, OnOk, OnErr, is_some};
ghost use Rattle.std.specs.FinMap as finite;
ghost use Rattle.drv_outside.specs.Disk.{after, dropped, settled, doubted, left_by_crash};
ghost use Rattle.drv_outside.specs.Plain.{is_plain_name};
ghost use Rattle.drv_outside.specs.declared.types.Call.{Call};
ghost use Rattle.tree_mem.specs.declared.disk.Change.{Change};
ghost use Rattle.tree_mem.specs.Disk.{after_doubt, disk_now, earlier_disks};

use crate::copies::copied;
use crate::doubts::MemDoubts;
use crate::folder::MemFolder;
use drv_outside::{Name, Text};
use std::alloc::{AllocError, Global};
use std::mem;

/// What a call changed, so that the moment before it can be observed.
#[derive(Drop)]
pub enum Change {
    /// Nothing.
    Unchanged,
    /// This name came into doubt, or was written or removed once more.
    File {
        name: Name,
        replaced: Option<Text>,
        was_in_doubt: bool,
    },
    /// What was in doubt was settled.
    Settled(MemDoubts),
}

/// A build folder with the names that a crash may leave otherwise, and what each call since the
/// first moment that is observed changed.
#[derive(Drop)]
pub struct MemDisk {
    alloc: Global,
    folder: MemFolder,
    doubts: MemDoubts,
    changes: Vec<Change>,
}

impl MemDisk {
    pub fn new(alloc: Global) -> MemDisk
        ensures disk { disk_now result ≡ settled finite.empty }
        ensures earlier { earlier_disks result ≡ [] }
    {
        MemDisk {
            alloc,
            folder: MemFolder::new(alloc),
            doubts: MemDoubts::new(alloc),
            changes: Vec::new(alloc),
        }
    }

    /// A moment passes in which nothing changes.
    pub fn pass(&mut self) -> Result<(), AllocError>
        ensures disk { disk_now self.new ≡ disk_now self.old }
        ensures earlier { OnOk result (earlier_disks self.new ≡ earlier_disks self.old ++ disk_now self.old ∷ []) }
        ensures err { OnErr result (earlier_disks self.new ≡ earlier_disks self.old) }
    {
        self.changes.push(Change::Unchanged)?;
        Ok(())
    }

    /// Settles what was written and removed.
    pub fn sync(&mut self) -> Result<(), AllocError>
        ensures disk { OnOk result (disk_now self.new ≡ settled (disk_now self.old).folder) }
        ensures earlier { OnOk result (earlier_disks self.new ≡ earlier_disks self.old ++ disk_now self.old ∷ []) }
        ensures err { OnErr result (earlier_disks self.new ≡ earlier_disks self.old) }
        ensures same { OnErr result (disk_now self.new ≡ disk_now self.old) }
    {
        self.changes.reserve(1)?;
        let doubts = mem::replace(&mut self.doubts, MemDoubts::new(self.alloc));
        self.changes.push(Change::Settled(doubts)).unwrap();
        Ok(())
    }

    /// Writes a file, which comes into doubt.
    pub fn write(&mut self, name: Name, bytes: Text) -> Result<(), AllocError>
        requires plain { IsTrue (is_plain_name name) }
        ensures disk { OnOk result (disk_now self.new ≡ after (Call.Write name bytes) (disk_now self.old)) }
        ensures earlier { OnOk result (earlier_disks self.new ≡ earlier_disks self.old ++ disk_now self.old ∷ []) }
        ensures err { OnErr result (earlier_disks self.new ≡ earlier_disks self.old) }
        ensures same { OnErr result (disk_now self.new ≡ disk_now self.old) }
    {
        let change = change_of(&self.folder, &self.doubts, &name)?;
        self.changes.reserve(1)?;
        set(&mut self.doubts, &mut self.folder, name, bytes)?;
        self.changes.push(change).unwrap();
        Ok(())
    }

    /// Removes a file. Its name comes into doubt.
    pub fn remove(&mut self, name: &Name) -> Result<(), AllocError>
        requires plain { IsTrue (is_plain_name name.now) }
        ensures disk { OnOk result (disk_now self.new ≡ after (Call.Remove name.now) (disk_now self.old)) }
        ensures earlier { OnOk result (earlier_disks self.new ≡ earlier_disks self.old ++ disk_now self.old ∷ []) }
        ensures err { OnErr result (earlier_disks self.new ≡ earlier_disks self.old) }
        ensures same { OnErr result (disk_now self.new ≡ disk_now self.old) }
    {
        let change = change_of(&self.folder, &self.doubts, name)?;
        self.changes.reserve(1)?;
        enter(&mut self.doubts, &self.folder, name)?;
        self.folder.remove(name);
        self.changes.push(change).unwrap();
        Ok(())
    }

    /// A name comes into doubt, as a call to write or remove it fails.
    pub fn doubt(&mut self, name: &Name) -> Result<(), AllocError>
        requires plain { IsTrue (is_plain_name name.now) }
        ensures disk { OnOk result (disk_now self.new ≡ after_doubt name.now (disk_now self.old)) }
        ensures earlier { OnOk result (earlier_disks self.new ≡ earlier_disks self.old ++ disk_now self.old ∷ []) }
        ensures err { OnErr result (earlier_disks self.new ≡ earlier_disks self.old) }
        ensures same { OnErr result (disk_now self.new ≡ disk_now self.old) }
    {
        let change = change_of(&self.folder, &self.doubts, name)?;
        self.changes.reserve(1)?;
        enter(&mut self.doubts, &self.folder, name)?;
        self.changes.push(change).unwrap();
        Ok(())
    }

    /// Removes a file behind the driver's back, without memory, and tells whether it was there. It is
    /// settled at once, and of earlier moments nothing is told any more.
    pub fn drop_named(&mut self, name: &str) -> bool
        ensures disk { disk_now self.new ≡ dropped name.now (disk_now self.old) }
        ensures earlier { earlier_disks self.new ≡ [] }
        ensures was_there { result ≡ is_some (finite.get (disk_now self.old).folder name.now) }
    {
        self.changes.clear();
        self.doubts.remove_named(name);
        self.folder.remove_named(name)
    }

    /// A crash leaves one of the images, by a base-4 digit of the choice for each name in doubt. All is
    /// settled then, and of earlier moments nothing is told any more. A refusal changes nothing.
    pub fn crash(&mut self, choice: u64) -> Result<(), AllocError>
        ensures disk { OnOk result (disk_now self.new ≡ settled (left_by_crash choice (finite.entries (disk_now self.old).doubts) (disk_now self.old).folder)) }
        ensures earlier { OnOk result (earlier_disks self.new ≡ []) }
        ensures err { OnErr result (earlier_disks self.new ≡ earlier_disks self.old) }
        ensures same { OnErr result (disk_now self.new ≡ disk_now self.old) }
    {
        let copy = self.folder.copy()?;
        let left = self.doubts.left_by_crash(self.alloc, copy, choice)?;
        self.folder = left;
        self.doubts = MemDoubts::new(self.alloc);
        self.changes.clear();
        Ok(())
    }

    /// The names, in byte order.
    pub fn names(&self, alloc: Global) -> Result<Vec<Name>, AllocError>
        ensures keys { IfOk result (λ names. names.items ≡ finite.keys (disk_now self.now).folder) }
        ensures plain { IfOk result (λ names. All (λ name. IsTrue (is_plain_name name)) names.items) }
    {
        let names = self.folder.names(alloc)?;
        Ok(names)
    }

    /// A copy of a file's bytes.
    pub fn bytes(&self, name: &Name) -> Result<Option<Text>, AllocError>
        ensures { IfOk result (λ copy. copy ≡ finite.get (disk_now self.now).folder name.now) }
    {
        let found = copied(self.folder.get(name))?;
        Ok(found)
    }
}

// What a write or a removal of this name changes.
fn change_of(folder: &MemFolder, doubts: &MemDoubts, name: &Name) -> Result<Change, AllocError>
    ensures { IfOk result (λ change. change ≡ Change.File name.now (finite.get folder.now name.now) (is_some (finite.get doubts.now name.now))) }
{
    let replaced = copied(folder.get(name))?;
    let was_in_doubt = doubts.contains(name);
    let name = name.clone()?;
    Ok(Change::File {
        name,
        replaced,
        was_in_doubt,
    })
}

// A name comes into doubt.
fn enter(doubts: &mut MemDoubts, folder: &MemFolder, name: &Name) -> Result<(), AllocError>
    requires plain { IsTrue (is_plain_name name.now) }
    ensures ok { OnOk result (doubts.new ≡ doubted (record { folder = folder.now; doubts = doubts.old }) name.now) }
    ensures err { OnErr result (doubts.new ≡ doubts.old) }
{
    if !doubts.contains(name) {
        let was = copied(folder.get(name))?;
        let name = name.clone()?;
        doubts.insert(name, was)?;
    }
    Ok(())
}

// Puts a file, whose name comes into doubt.
fn set(
    doubts: &mut MemDoubts,
    folder: &mut MemFolder,
    name: Name,
    bytes: Text,
) -> Result<(), AllocError>
    requires plain { IsTrue (is_plain_name name) }
    ensures folder { OnOk result (folder.new ≡ finite.insert folder.old name bytes) }
    ensures doubts { OnOk result (doubts.new ≡ doubted (record { folder = folder.old; doubts = doubts.old }) name) }
    ensures same_folder { OnErr result (folder.new ≡ folder.old) }
    ensures same_doubts { OnErr result (doubts.new ≡ doubts.old) }
{
    let again = name.clone()?;
    let was_in_doubt = doubts.contains(&name);
    enter(doubts, folder, &name)?;
    if folder.insert(name, bytes).is_err() {
        take_back(doubts, &again, was_in_doubt);
        return Err(AllocError);
    }
    Ok(())
}

// A name that wasn't in doubt isn't so any more.
fn take_back(doubts: &mut MemDoubts, name: &Name, was_in_doubt: bool)
    ensures { doubts.new ≡ cond was_in_doubt doubts.old (finite.remove doubts.old name.now) }
{
    if !was_in_doubt {
        doubts.remove(name);
    }
}
