ghost use Rattle.std.specs.Prelude.{◌≡◌, ◌≤◌, List, ℕ, Option, true, false, take, map, All, IsTrue, IfOk, IfErr, IfSome, OnOk, OnErr, IsErrOf, option_map};
ghost use Rattle.std.specs.FinMap as finite;
ghost use Rattle.drv_outside.specs.Faults.{CountRose};
ghost use Rattle.drv_outside.specs.Plain.{is_plain_name};
ghost use Rattle.drv_outside.specs.TreeState.{TreeState, entries_of, bytes_at, AscendByPath, listed, written, removed, synced, UnlistedOr, ReadEnds, FailsToChange};
ghost use Rattle.drv_outside.specs.declared.types.Call.{Call};

use crate::{Entry, Fault, TreeEnd};
use dep_key::{Name, Text};
use std::alloc::Global;

/// The sources of a project, its output file maps, and its build folder, which is one flat folder
/// of files by name.
///
/// A reading call changes no source, no map and no file. A write or removal that failed leaves its
/// own name in doubt, and all other names as they were.
///
/// What a write or a removal did is settled only by a `sync` after it that succeeds. Until then a
/// crash of the machine may leave under that name any bytes, or nothing, each name by itself, while
/// names that weren't written or removed since the last successful sync keep what they have. After
/// a `sync` that succeeded a crash leaves all that reads give. A `sync` that failed has settled
/// nothing, and no `sync` changes a file, whatever it answers.
pub trait Tree {
    /// What the tree holds and was asked, where it tells.
    ghost observed: { Self → Option TreeState };

    /// How often a call has failed. The count never falls. It stays where a call succeeds, and where a
    /// reading call wants memory.
    ghost faults: { Self → ℕ };

    /// The sources, in byte order of path, each path once. A path that is found twice is a fault.
    fn list(&mut self, alloc: Global) -> Result<Vec<Entry>, TreeEnd>
        ensures answer { IfOk result (λ entries. IfSome (observed self.old) (λ t. entries.items ≡ entries_of t.sources)) }
        ensures ordered { IfOk result (λ entries. AscendByPath entries.items) }
        ensures change { OnOk result (observed self.new ≡ option_map (listed Call.List false) (observed self.old)) }
        ensures err { IfErr result (λ end. ReadEnds Call.List end (observed self.old) (observed self.new)) }
        ensures count { faults self.old ≤ faults self.new }
        ensures ok_count { OnOk result (faults self.new ≡ faults self.old) }
        ensures no_memory_count { IsErrOf result TreeEnd.NoMemory → faults self.new ≡ faults self.old }
        ensures cause { IsErrOf result TreeEnd.Failed → CountRose (faults self.old) (faults self.new) };

    /// The first `most` bytes of a source, or all if there are fewer. Where there is no such source,
    /// the empty text.
    fn read_source(&mut self, alloc: Global, path: &str, most: usize) -> Result<Text, TreeEnd>
        ensures answer { IfOk result (λ text. IfSome (observed self.old) (λ t. text ≡ take most (bytes_at path.now t.sources))) }
        ensures change { OnOk result (observed self.new ≡ option_map (listed (Call.ReadSource path.now) false) (observed self.old)) }
        ensures err { IfErr result (λ end. ReadEnds (Call.ReadSource path.now) end (observed self.old) (observed self.new)) }
        ensures count { faults self.old ≤ faults self.new }
        ensures ok_count { OnOk result (faults self.new ≡ faults self.old) }
        ensures no_memory_count { IsErrOf result TreeEnd.NoMemory → faults self.new ≡ faults self.old }
        ensures cause { IsErrOf result TreeEnd.Failed → CountRose (faults self.old) (faults self.new) };

    /// The bytes of an output file map, or `None` where there is no such file.
    fn read_map(&mut self, alloc: Global, path: &str) -> Result<Option<Text>, TreeEnd>
        ensures answer { IfOk result (λ found. IfSome (observed self.old) (λ t. found ≡ finite.get t.maps path.now)) }
        ensures change { OnOk result (observed self.new ≡ option_map (listed (Call.ReadMap path.now) false) (observed self.old)) }
        ensures err { IfErr result (λ end. ReadEnds (Call.ReadMap path.now) end (observed self.old) (observed self.new)) }
        ensures count { faults self.old ≤ faults self.new }
        ensures ok_count { OnOk result (faults self.new ≡ faults self.old) }
        ensures no_memory_count { IsErrOf result TreeEnd.NoMemory → faults self.new ≡ faults self.old }
        ensures cause { IsErrOf result TreeEnd.Failed → CountRose (faults self.old) (faults self.new) };

    /// The names of the build folder, in byte order. All of them are plain.
    fn names(&mut self, alloc: Global) -> Result<Vec<Name>, TreeEnd>
        ensures answer { IfOk result (λ names. IfSome (observed self.old) (λ t. names.items ≡ finite.keys t.folder)) }
        ensures plain { IfOk result (λ names. All (λ name. IsTrue (is_plain_name name)) names.items) }
        ensures change { OnOk result (observed self.new ≡ option_map (listed Call.Names false) (observed self.old)) }
        ensures err { IfErr result (λ end. ReadEnds Call.Names end (observed self.old) (observed self.new)) }
        ensures count { faults self.old ≤ faults self.new }
        ensures ok_count { OnOk result (faults self.new ≡ faults self.old) }
        ensures no_memory_count { IsErrOf result TreeEnd.NoMemory → faults self.new ≡ faults self.old }
        ensures cause { IsErrOf result TreeEnd.Failed → CountRose (faults self.old) (faults self.new) };

    /// The bytes of a file of the build folder, or `None` where there is no such file.
    fn read_file(&mut self, alloc: Global, name: &str) -> Result<Option<Text>, TreeEnd>
        ensures answer { IfOk result (λ found. IfSome (observed self.old) (λ t. found ≡ finite.get t.folder name.now)) }
        ensures change { OnOk result (observed self.new ≡ option_map (listed (Call.ReadFile name.now) false) (observed self.old)) }
        ensures err { IfErr result (λ end. ReadEnds (Call.ReadFile name.now) end (observed self.old) (observed self.new)) }
        ensures count { faults self.old ≤ faults self.new }
        ensures ok_count { OnOk result (faults self.new ≡ faults self.old) }
        ensures no_memory_count { IsErrOf result TreeEnd.NoMemory → faults self.new ≡ faults self.old }
        ensures cause { IsErrOf result TreeEnd.Failed → CountRose (faults self.old) (faults self.new) };

    /// Puts a file with these bytes into the build folder, in place of one of this name.
    fn write_file(&mut self, name: &str, bytes: &[u8]) -> Result<(), Fault>
        requires plain { IsTrue (is_plain_name name.now) }
        ensures change { OnOk result (observed self.new ≡ option_map (written name.now bytes.now) (observed self.old)) }
        ensures err { OnErr result (FailsToChange name.now (Call.Write name.now bytes.now) (observed self.old) (observed self.new)) }
        ensures count { faults self.old ≤ faults self.new }
        ensures ok_count { OnOk result (faults self.new ≡ faults self.old) }
        ensures cause { OnErr result (CountRose (faults self.old) (faults self.new)) };

    /// Removes a file of the build folder. That there is none of this name is no fault.
    fn remove_file(&mut self, name: &str) -> Result<(), Fault>
        requires plain { IsTrue (is_plain_name name.now) }
        ensures change { OnOk result (observed self.new ≡ option_map (removed name.now) (observed self.old)) }
        ensures err { OnErr result (FailsToChange name.now (Call.Remove name.now) (observed self.old) (observed self.new)) }
        ensures count { faults self.old ≤ faults self.new }
        ensures ok_count { OnOk result (faults self.new ≡ faults self.old) }
        ensures cause { OnErr result (CountRose (faults self.old) (faults self.new)) };

    /// Settles what was written and removed, so that a crash leaves it.
    fn sync(&mut self) -> Result<(), Fault>
        ensures change { OnOk result (observed self.new ≡ option_map synced (observed self.old)) }
        ensures err { OnErr result (UnlistedOr Call.Sync true (observed self.old) (observed self.new)) }
        ensures count { faults self.old ≤ faults self.new }
        ensures ok_count { OnOk result (faults self.new ≡ faults self.old) }
        ensures cause { OnErr result (CountRose (faults self.old) (faults self.new)) };
}
