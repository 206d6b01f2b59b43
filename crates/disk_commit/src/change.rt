//! The change of a build folder to given files, behind its gate.

ghost use Rattle.std.specs.Prelude.{◌≡◌, ◌≤◌, ◌++◌, ℕ, true, List, All, IsTrue, OnOk, OnErr, IfOk, IfSome, IsErrOf, option_map};
ghost use Rattle.std.specs.FinMap as finite;
ghost use Rattle.disk_images.specs.Laws.{closing, commit_calls, forgetting};
ghost use Rattle.drv_outside.specs.Faults.{CountRose};
ghost use Rattle.drv_outside.specs.IfObserved.{IfObserved};
ghost use Rattle.drv_outside.specs.Moments.{Stops, all_done};
ghost use Rattle.drv_outside.specs.Plain.{is_plain_name};
ghost use Rattle.drv_outside.specs.declared.types.TreeEnd.{TreeEnd};
ghost use Rattle.ordered_lists.specs.Among.{is_among};
ghost use Rattle.disk_commit.specs.Change.{changing, opened_folder, others, swept};
ghost use Rattle.disk_commit.specs.Steps.{removals, writes};

use crate::File;
use crate::files::{commit, place, sweep, unwanted, withdraw};
use drv_outside::{Fault, Name, Tree, TreeEnd};
use std::alloc::{AllocError, Global};

// Whether a name is one of these.
fn is_among(names: &[Name], name: &str) -> bool
    ensures { result ≡ is_among names.now name.now }
{
    for other in names {
        if other.as_str() == name {
            return true;
        }
    }
    false
}

// The names but that of the gate.
fn others(alloc: Global, gate: &str, names: &[Name]) -> Result<Vec<Name>, AllocError>
    requires plain { All (λ name. IsTrue (is_plain_name name)) names.now }
    ensures others { IfOk result (λ left. left.items ≡ others gate.now names.now) }
    ensures plain { IfOk result (λ left. All (λ name. IsTrue (is_plain_name name)) left.items) }
{
    let mut left = Vec::new(alloc);
    for name in names {
        if gate != name.as_str() {
            left.push(name.clone()?)?;
        }
    }
    Ok(left)
}

// The names that are neither the gate's nor that of a file.
fn swept(alloc: Global, gate: &str, names: &[Name], files: &[File]) -> Result<Vec<Name>, AllocError>
    requires plain { All (λ name. IsTrue (is_plain_name name)) names.now }
    ensures swept { IfOk result (λ left. left.items ≡ swept gate.now names.now files.now) }
    ensures plain { IfOk result (λ left. All (λ name. IsTrue (is_plain_name name)) left.items) }
{
    let others = others(alloc, gate, names)?;
    unwanted(alloc, &others, files)
}

// Settles that the gate is shut, and then forgets the record.
fn forget<T: Tree>(tree: &mut T, build_record: &str) -> Result<(), Fault>
    requires plain { IsTrue (is_plain_name build_record.now) }
    ensures done { OnOk result (T.observed tree.new ≡ option_map (all_done (forgetting true build_record.now)) (T.observed tree.old)) }
    ensures stops { OnErr result (Stops (forgetting true build_record.now) (T.observed tree.old) (T.observed tree.new)) }
    ensures count { T.faults tree.old ≤ T.faults tree.new }
    ensures ok_count { OnOk result (T.faults tree.new ≡ T.faults tree.old) }
    ensures cause { OnErr result (CountRose (T.faults tree.old) (T.faults tree.new)) }
{
    tree.sync()?;
    tree.remove_file(build_record)?;
    tree.sync()?;
    Ok(())
}

// Where the gate isn't open, settles this and forgets a record that is there.
fn close<T: Tree>(
    tree: &mut T,
    opened: bool,
    recorded: bool,
    build_record: &str,
) -> Result<(), Fault>
    requires plain { IsTrue (is_plain_name build_record.now) }
    ensures done { OnOk result (T.observed tree.new ≡ option_map (all_done (closing opened recorded build_record.now)) (T.observed tree.old)) }
    ensures stops { OnErr result (Stops (closing opened recorded build_record.now) (T.observed tree.old) (T.observed tree.new)) }
    ensures count { T.faults tree.old ≤ T.faults tree.new }
    ensures ok_count { OnOk result (T.faults tree.new ≡ T.faults tree.old) }
    ensures cause { OnErr result (CountRose (T.faults tree.old) (T.faults tree.new)) }
{
    if opened {
        return Ok(());
    }
    if !recorded {
        tree.sync()?;
        return Ok(());
    }
    forget(tree, build_record)?;
    Ok(())
}

// Makes all calls of the change.
fn change<T: Tree>(
    tree: &mut T,
    gate: &str,
    build_record: &str,
    opened: bool,
    recorded: bool,
    names: &[Name],
    files: &[File],
) -> Result<(), Fault>
    requires plain_gate { IsTrue (is_plain_name gate.now) }
    requires plain_record { IsTrue (is_plain_name build_record.now) }
    requires plain_names { All (λ name. IsTrue (is_plain_name name)) names.now }
    requires plain_files { All (λ file. IsTrue (is_plain_name file.name)) files.now }
    ensures done { OnOk result (T.observed tree.new ≡ option_map (all_done (commit_calls gate.now build_record.now opened recorded (removals names.now ++ writes files.now))) (T.observed tree.old)) }
    ensures stops { OnErr result (Stops (commit_calls gate.now build_record.now opened recorded (removals names.now ++ writes files.now)) (T.observed tree.old) (T.observed tree.new)) }
    ensures count { T.faults tree.old ≤ T.faults tree.new }
    ensures ok_count { OnOk result (T.faults tree.new ≡ T.faults tree.old) }
    ensures cause { OnErr result (CountRose (T.faults tree.old) (T.faults tree.new)) }
{
    close(tree, opened, recorded, build_record)?;
    withdraw(tree, gate)?;
    sweep(tree, names)?;
    place(tree, files)?;
    commit(tree, gate)?;
    Ok(())
}

/// Changes the build folder of these names to these files: shuts its gate, removes each name that is neither the gate's nor
/// that of a file, writes the files in order, and opens the gate. Where the gate wasn't open, a record that is there is
/// removed first, so that no crash can make it trusted.
///
/// It takes memory only before its first call. `NoMemory` says that no call was made.
pub fn change_folder<T: Tree>(
    alloc: Global,
    tree: &mut T,
    gate: &str,
    build_record: &str,
    opened: bool,
    names: &[Name],
    files: &[File],
) -> Result<(), TreeEnd>
    requires plain_gate { IsTrue (is_plain_name gate.now) }
    requires plain_record { IsTrue (is_plain_name build_record.now) }
    requires plain_names { All (λ name. IsTrue (is_plain_name name)) names.now }
    requires plain_files { All (λ file. IsTrue (is_plain_name file.name)) files.now }
    ensures done { OnOk result (T.observed tree.new ≡ option_map (all_done (changing gate.now build_record.now opened names.now files.now)) (T.observed tree.old)) }
    // Where these are all names of the folder, these files and the open gate alone are left.
    ensures folder { OnOk result (IfSome (T.observed tree.old) (λ t. names.now ≡ finite.keys t.folder)
        → IfObserved (T.observed tree.old) (T.observed tree.new) (λ t u. u.folder ≡ opened_folder gate.now files.now)) }
    ensures no_call { IsErrOf result TreeEnd.NoMemory → T.observed tree.new ≡ T.observed tree.old }
    ensures stops { IsErrOf result TreeEnd.Failed → Stops (changing gate.now build_record.now opened names.now files.now) (T.observed tree.old) (T.observed tree.new) }
    ensures count { T.faults tree.old ≤ T.faults tree.new }
    ensures ok_count { OnOk result (T.faults tree.new ≡ T.faults tree.old) }
    ensures no_memory_count { IsErrOf result TreeEnd.NoMemory → T.faults tree.new ≡ T.faults tree.old }
    ensures cause { IsErrOf result TreeEnd.Failed → CountRose (T.faults tree.old) (T.faults tree.new) }
{
    let swept = swept(alloc, gate, names, files)?;
    let recorded = is_among(names, build_record);
    match change(tree, gate, build_record, opened, recorded, &swept, files) {
        Ok(()) => Ok(()),
        Err(Fault) => Err(TreeEnd::Failed),
    }
}
