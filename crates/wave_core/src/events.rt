//! What happens in a build.

ghost use Rattle.std.specs.Prelude.{◌≡◌, ◌++◌, ◌∷◌, [], OnOk};
ghost use Rattle.wave_core.specs.declared.events.FileEvent.TheVariants.{Take, Finish};

use crate::stages::copy_of;
use dep_key::{Name, NoMemory};

/// A step of a build's schedule, with the path of its file.
#[derive(Debug, Drop)]
pub enum FileEvent {
    /// A pending file starts.
    Take(Name),
    /// A running file has finished, and what it changed is taken in.
    Finish(Name),
}

/// Why a file's nodes aren't taken in.
#[derive(Clone, Copy, Debug, PartialEq, Eq)]
pub enum FinishFault {
    /// The file isn't running.
    NotRunning,
    /// Memory was wanted and not there.
    NoMemory,
}

/// Notes that a file has started.
pub fn note_take(log: &mut Vec<FileEvent>, file: &Name) -> Result<(), NoMemory>
    ensures { OnOk result (log.new.items ≡ log.old.items ++ Take file.now ∷ []) }
{
    let copy = copy_of(file)?;
    log.push(FileEvent::Take(copy))?;
    Ok(())
}

/// Notes that a file has finished.
pub fn note_finish(log: &mut Vec<FileEvent>, file: &Name) -> Result<(), NoMemory>
    ensures { OnOk result (log.new.items ≡ log.old.items ++ Finish file.now ∷ []) }
{
    let copy = copy_of(file)?;
    log.push(FileEvent::Finish(copy))?;
    Ok(())
}
