//! How far each file is.

ghost use Rattle.std.specs.Prelude.{◌≡◌, true, IsSome, IfOk};
ghost use Rattle.std.specs.Map.{lookup};
ghost use Rattle.std.specs.BTreeMap.{is_at};
ghost use Rattle.dep_graph.specs.Arcs.{path_order};
ghost use Rattle.wave_core.specs.Cores.{HasStage, is_idle, is_running, stage_at, stage_of};

use dep_key::{Name, NoMemory};
use std::collections::BTreeMap;

/// How far a file is: not asked for, asked for, being built, built.
#[derive(Clone, Copy, Debug, PartialEq, Eq)]
pub enum Stage {
    Idle,
    Pending,
    Running,
    Done,
}

/// A copy of a path, which shares its characters.
pub fn copy_of(path: &Name) -> Result<Name, NoMemory>
    ensures { IfOk result (λ copy. copy ≡ path.now) }
{
    let copy = path.clone()?;
    Ok(copy)
}

/// Whether a file wasn't asked for.
pub fn is_idle(stages: &BTreeMap<Name, Stage>, file: &Name) -> bool
    ensures { result ≡ is_idle (stage_at stages.now.entries file.now) }
{
    match stages.get(file) {
        Some(Stage::Idle) => true,
        Some(_) => false,
        None => true,
    }
}

/// Whether a file is being built.
pub fn is_running(stages: &BTreeMap<Name, Stage>, file: &Name) -> bool
    ensures { result ≡ is_running (stage_at stages.now.entries file.now) }
{
    match stages.get(file) {
        Some(Stage::Running) => true,
        Some(_) => false,
        None => false,
    }
}

/// Gives another stage to a file that was asked for.
pub fn set_stage(stages: &mut BTreeMap<Name, Stage>, file: &Name, to: Stage)
    requires asked { IsSome (lookup (is_at (path_order file.now)) stages.old.entries) }
    ensures { HasStage stages.old.entries stages.new.entries file.now (stage_of to) }
{
    if let Some(stage) = stages.get_mut(file) {
        *stage = to;
    }
}
