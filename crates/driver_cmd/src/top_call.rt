ghost use Rattle.driver_cmd.specs.Driven.{Driven, outside};

use crate::build::build;
use crate::command::read_request;
use drv_outside::{JobGate, Sink, Status, Text, Tree};

/// Does what the words of a command ask, over a tree, on one thread. The error lines go to `out` by
/// one call.
///
/// The one command is `build -module-name MODULE`. It leaves the clean build of the module of the
/// tree's sources in the build folder: of each file without errors the object, the partial text and
/// the dependency file, where no file has errors the merged module and the image, the priors, the
/// record and the gate, and no other name. Where the list of sources is refused, or a source has no
/// tree, the folder is left as it was.
pub fn drive_alone<R: AllocGlobal, T: Tree, K: Sink>(
    rt: &R,
    words: &[Text],
    tree: &mut T,
    out: &mut K,
) -> Status
    ensures driven { Driven words.now
        (outside (T.observed tree.old) (T.faults tree.old) (K.contents out.old) (K.faults out.old))
        (outside (T.observed tree.new) (T.faults tree.new) (K.contents out.new) (K.faults out.new)) result }
{
    match read_request(words) {
        Ok(name) => build(rt.alloc(), name, tree, out),
        Err(at) => Status::Usage { at },
    }
}

/// Does what the words of a command ask, over a tree, as `drive_alone` does. Jobs would pass the
/// gate; no command has jobs of its own yet.
pub fn drive<R: AllocGlobal, T: Tree, G: JobGate, K: Sink>(
    rt: &R,
    words: &[Text],
    tree: &mut T,
    _gate: &G,
    out: &mut K,
) -> Status
    ensures driven { Driven words.now
        (outside (T.observed tree.old) (T.faults tree.old) (K.contents out.old) (K.faults out.old))
        (outside (T.observed tree.new) (T.faults tree.new) (K.contents out.new) (K.faults out.new)) result }
{
    drive_alone(rt, words, tree, out)
}
