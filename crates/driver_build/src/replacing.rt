//! The outputs of a build take the place of what stands in the build folder.

ghost use Rattle.std.specs.Prelude.{◌≡◌, ◌⊎◌, All, IsTrue, IfErr, OnOk, option_map};
ghost use Rattle.disk_images.specs.Laws as laws;
ghost use Rattle.disk_commit.specs.declared.files.File.{File};
ghost use Rattle.drv_outside.specs.Faults.{CountRose};
ghost use Rattle.drv_outside.specs.Plain.{is_plain_name};
ghost use Rattle.drv_outside.specs.Reads.{OnlyReads};
ghost use Rattle.driver_build.specs.Replacing.{Replaces, StopsReplacing};

use disk_commit::{File, change_folder};
use drv_outside::{Status, Text, Tree};
use file_map::Names;
use std::alloc::Global;

// The byte of an open gate.
const OPEN: u8 = 1;

/// Whether a gate of these bytes is open: it is the byte 01.
fn is_open(gate: &Option<Text>) -> bool
    ensures { result ≡ laws.is_open gate.now }
{
    match gate {
        Some(bytes) => bytes.as_slice() == [OPEN].as_slice(),
        None => false,
    }
}

/// Puts outputs in the place of all that stands in the build folder, and opens its gate. A crash at any moment leaves a
/// folder that may be trusted.
///
/// `NoMemory` comes before any change.
pub fn replace_folder<T: Tree>(
    alloc: Global,
    tree: &mut T,
    names: &Names,
    outputs: &[File],
) -> Result<(), Status>
    requires gate { IsTrue (is_plain_name names.now.gate) }
    requires build_record { IsTrue (is_plain_name names.now.build_record) }
    requires outputs { All (λ (file : File). IsTrue (is_plain_name file.name)) outputs.now }
    ensures replaced { OnOk result (Replaces names.now outputs.now (T.observed tree.old) (T.observed tree.new)) }
    ensures stops { IfErr result (λ status. status ≡ Status.TreeFault → StopsReplacing names.now outputs.now (T.observed tree.old) (T.observed tree.new)) }
    ensures early { IfErr result (λ status. status ≡ Status.NoMemory → OnlyReads (T.observed tree.old) (T.observed tree.new)) }
    ensures ok_count { OnOk result (T.faults tree.new ≡ T.faults tree.old) }
    ensures no_memory_count { IfErr result (λ status. status ≡ Status.NoMemory → T.faults tree.new ≡ T.faults tree.old) }
    ensures tree_fault { IfErr result (λ status. status ≡ Status.TreeFault → CountRose (T.faults tree.old) (T.faults tree.new)) }
    ensures ends { IfErr result (λ status. (status ≡ Status.TreeFault) ⊎ (status ≡ Status.NoMemory)) }
{
    let gate = tree.read_file(alloc, names.gate.as_str())?;
    let present = tree.names(alloc)?;
    let opened = is_open(&gate);
    let end = change_folder(
        alloc,
        tree,
        names.gate.as_str(),
        names.build_record.as_str(),
        opened,
        &present,
        outputs,
    );
    match end {
        Ok(()) => Ok(()),
        Err(end) => Err(Status::from(end)),
    }
}
