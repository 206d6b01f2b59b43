ghost use Rattle.std.specs.Prelude.{◌≡◌, ◌≤◌, List, ℕ, All, IsTrue, OnOk, OnErr, IfOk, option_map};
ghost use Rattle.std.specs.BTreeSet as sets;
ghost use Rattle.std.specs.Ordering.{nat_cmp};
ghost use Rattle.std.specs.Cmp.Lexicographic.{slice_cmp};
ghost use Rattle.drv_outside.specs.Faults.{CountRose};
ghost use Rattle.drv_outside.specs.Moments.{Stops, all_done};
ghost use Rattle.drv_outside.specs.Plain.{is_plain_name};
ghost use Rattle.disk_images.specs.Laws.{committing, withdrawal};
ghost use Rattle.disk_commit.specs.Files.{is_named, unwanted};
ghost use Rattle.disk_commit.specs.Steps.{removals, writes};

use drv_outside::{Fault, Name, Text, Tree};
use std::alloc::{AllocError, Global};
use std::collections::BTreeSet;

/// A file of the build folder.
#[derive(Clone, Debug, Drop, PartialEq, Eq)]
pub struct File {
    pub name: Name,
    pub bytes: Text,
}

/// Shuts the gate, and settles this. From then on a crash leaves it shut, until it is written again.
pub fn withdraw<T: Tree>(tree: &mut T, gate: &str) -> Result<(), Fault>
    requires plain { IsTrue (is_plain_name gate.now) }
    ensures done { OnOk result (T.observed tree.new ≡ option_map (all_done (withdrawal gate.now)) (T.observed tree.old)) }
    ensures stops { OnErr result (Stops (withdrawal gate.now) (T.observed tree.old) (T.observed tree.new)) }
    ensures count { T.faults tree.old ≤ T.faults tree.new }
    ensures ok_count { OnOk result (T.faults tree.new ≡ T.faults tree.old) }
    ensures cause { OnErr result (CountRose (T.faults tree.old) (T.faults tree.new)) }
{
    tree.write_file(gate, &[0])?;
    tree.sync()?;
    Ok(())
}

/// Settles all that was placed, and then opens the gate, and settles this.
pub fn commit<T: Tree>(tree: &mut T, gate: &str) -> Result<(), Fault>
    requires plain { IsTrue (is_plain_name gate.now) }
    ensures done { OnOk result (T.observed tree.new ≡ option_map (all_done (committing gate.now)) (T.observed tree.old)) }
    ensures stops { OnErr result (Stops (committing gate.now) (T.observed tree.old) (T.observed tree.new)) }
    ensures count { T.faults tree.old ≤ T.faults tree.new }
    ensures ok_count { OnOk result (T.faults tree.new ≡ T.faults tree.old) }
    ensures cause { OnErr result (CountRose (T.faults tree.old) (T.faults tree.new)) }
{
    tree.sync()?;
    tree.write_file(gate, &[1])?;
    tree.sync()?;
    Ok(())
}

/// Writes these files, in order. After an `Err` those before the one that failed are written.
pub fn place<T: Tree>(tree: &mut T, files: &[File]) -> Result<(), Fault>
    requires plain { All (λ file. IsTrue (is_plain_name file.name)) files.now }
    ensures placed { OnOk result (T.observed tree.new ≡ option_map (all_done (writes files.now)) (T.observed tree.old)) }
    ensures stops { OnErr result (Stops (writes files.now) (T.observed tree.old) (T.observed tree.new)) }
    ensures count { T.faults tree.old ≤ T.faults tree.new }
    ensures ok_count { OnOk result (T.faults tree.new ≡ T.faults tree.old) }
    ensures cause { OnErr result (CountRose (T.faults tree.old) (T.faults tree.new)) }
{
    for file in files {
        tree.write_file(file.name.as_str(), file.bytes.as_slice())?;
    }
    Ok(())
}

/// Removes these names, in order. After an `Err` those before the one that failed are removed.
pub fn sweep<T: Tree>(tree: &mut T, names: &[Name]) -> Result<(), Fault>
    requires plain { All (λ name. IsTrue (is_plain_name name)) names.now }
    ensures swept { OnOk result (T.observed tree.new ≡ option_map (all_done (removals names.now)) (T.observed tree.old)) }
    ensures stops { OnErr result (Stops (removals names.now) (T.observed tree.old) (T.observed tree.new)) }
    ensures count { T.faults tree.old ≤ T.faults tree.new }
    ensures ok_count { OnOk result (T.faults tree.new ≡ T.faults tree.old) }
    ensures cause { OnErr result (CountRose (T.faults tree.old) (T.faults tree.new)) }
{
    for name in names {
        tree.remove_file(name.as_str())?;
    }
    Ok(())
}

/// The names of these files.
fn names_of(alloc: Global, files: &[File]) -> Result<BTreeSet<Name>, AllocError>
    ensures { IfOk result (λ set. (name : List ℕ) → sets.contains (slice_cmp nat_cmp) set name ≡ is_named files.now name) }
{
    let mut names = BTreeSet::new(alloc);
    for file in files {
        names.insert(file.name.clone()?)?;
    }
    Ok(names)
}

/// The names that none of these files has, in their order.
pub(crate) fn unwanted(
    alloc: Global,
    names: &[Name],
    files: &[File],
) -> Result<Vec<Name>, AllocError>
    requires plain { All (λ name. IsTrue (is_plain_name name)) names.now }
    ensures left { IfOk result (λ left. left.items ≡ unwanted files.now names.now) }
    ensures plain { IfOk result (λ left. All (λ name. IsTrue (is_plain_name name)) left.items) }
{
    let wanted = names_of(alloc, files)?;
    let mut left = Vec::new(alloc);
    for name in names {
        if !wanted.contains(name) {
            left.push(name.clone()?)?;
        }
    }
    Ok(left)
}
