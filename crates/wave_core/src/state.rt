//! The core of a build in waves.

ghost use Rattle.std.specs.Prelude.{◌≡◌, ◌≢◌, ◌↔◌, ℕ, Bool, true, false, List, [], ◌∷◌, ◌++◌, Some, IsTrue, IfOk, IfErr, OnOk, OnErr, IfSome, IfNone};
ghost use Rattle.std.specs.Ordering.{is_gt};
ghost use Rattle.dep_key.specs.declared.key.Key.{Key};
ghost use Rattle.dep_key.specs.GraphOrder.{AreAscending, AreInOrder};
ghost use Rattle.waves.specs.Builds.{HaveSamePrints, IsPlan};
ghost use Rattle.waves.specs.Machine as machine;
ghost use Rattle.waves.specs.Machine.{IsTake, IsFinish, IsComplete};
ghost use Rattle.dep_graph.specs.Moves.{is_one, node_reading};
ghost use Rattle.dep_graph.specs.Arcs.{path_order, nodes_in};
ghost use Rattle.wave_core.specs.declared.events.FileEvent.TheVariants.{Take, Finish};
ghost use Rattle.wave_core.specs.declared.events.FinishFault.TheVariants as faults;
ghost use Rattle.wave_core.specs.Cores.{Module, AreRemoved, Follows, HasBuilt, change_of, is_among, stage_at, state_of};

use crate::events::{FileEvent, FinishFault, note_finish, note_take};
use crate::joining::join;
use crate::opening::without;
use crate::stages::{Stage, copy_of, is_running, set_stage};
use crate::waking::{wake_all, wake_first};
use dep_graph::Graph;
use dep_key::{FileGraph, Key, Name, NoMemory};
use std::alloc::Global;
use std::collections::{BTreeMap, BTreeSet};
use std::marker::Model;
use std::mem;

/// How far a build in waves is. Files are known by their paths.
///
/// Contracts see the graph as it is now, the keys that have changed, how far each file is, and what has
/// happened. After want of memory no file is known, and nothing is pending or running.
#[derive(Drop)]
pub struct Core {
    graph: Graph,
    changed: BTreeSet<Key>,
    stages: BTreeMap<Name, Stage>,
    pending: BTreeSet<Name>,
    running: BTreeSet<Name>,
    log: Vec<FileEvent>,
}

impl Model for Core {
    ghost use Rattle.wave_core.specs.Cores.{Kept, ArePending, AreRunning};

    ghost Value = { Kept };

    ghost view = { λ c. (c.graph, c.changed.keys, c.stages.entries, c.log.items) };

    ghost invariant = { λ c. ArePending c.stages.entries c.pending.keys × AreRunning c.stages.entries c.running.keys };
}

impl Core {
    /// A core without files.
    fn new(alloc: Global) -> Core
        ensures { result.2 ≡ [] }
    {
        Core {
            graph: Graph::new(alloc),
            changed: BTreeSet::new(alloc),
            stages: BTreeMap::new(alloc),
            pending: BTreeSet::new(alloc),
            running: BTreeSet::new(alloc),
            log: Vec::new(alloc),
        }
    }

    /// A core over the recorded graph: the removed files are taken out of it, and the first files and those that
    /// use a key of a removed file are pending.
    pub fn start(
        alloc: Global,
        graph: Graph,
        removed: &[Name],
        first: &[Name],
    ) -> Result<Core, NoMemory>
        ensures opens { IfOk result (λ core. (now : Module) → AreRemoved (nodes_in graph) now removed.now → Follows (change_of (nodes_in graph) now (is_among first.now)) core) }
        ensures nothing { IfOk result (λ core. core.3 ≡ []) }
    {
        let (graph, changed) = without(alloc, graph, removed)?;
        let mut stages = BTreeMap::new(alloc);
        let mut pending = BTreeSet::new(alloc);
        wake_first(first, &mut stages, &mut pending)?;
        wake_all(&graph, &changed, &mut stages, &mut pending)?;
        Ok(Core {
            graph,
            changed,
            stages,
            pending,
            running: BTreeSet::new(alloc),
            log: Vec::new(alloc),
        })
    }

    /// Takes the pending file of the least path, which is running from then on.
    pub fn take(&mut self, alloc: Global) -> Result<Option<Name>, NoMemory>
        ensures taken { IfOk result (λ taken. IfSome taken (λ file. IsTake file (state_of self.old) (state_of self.new))) }
        ensures logged { IfOk result (λ taken. IfSome taken (λ file. self.new.3 ≡ self.old.3 ++ Take file ∷ [])) }
        ensures least { IfOk result (λ taken. IfSome taken (λ file. (f : List ℕ) → stage_at self.old.2 f ≡ machine.Pending → is_gt (path_order file f) ≡ false)) }
        ensures empty { IfOk result (λ taken. IfNone taken ((f : List ℕ) → stage_at self.old.2 f ≢ machine.Pending)) }
        ensures unchanged { IfOk result (λ taken. IfNone taken (self.new ≡ self.old)) }
        ensures follows { OnOk result ((before now : Module) (first : List ℕ → Bool) → Follows (change_of before now first) self.old → Follows (change_of before now first) self.new) }
        ensures lost { OnErr result (self.new.2 ≡ []) }
    {
        let core = mem::replace(self, Core::new(alloc));
        let (core, file) = taken(core)?;
        *self = core;
        Ok(file)
    }

    /// A running file is done and has these nodes; the keys of which this changes a print have changed, and
    /// those that hadn't before wake the files that use them. Gives the keys whose print this changes, in order.
    ///
    /// A file that isn't running is refused, and nothing is changed.
    pub fn finish(&mut self, alloc: Global, file: FileGraph) -> Result<Vec<Key>, FinishFault>
        requires ordered { AreInOrder file.nodes }
        ensures finished { OnOk result (IsFinish node_reading file.path (Some file.nodes) (state_of self.old) (state_of self.new)) }
        ensures logged { OnOk result (self.new.3 ≡ self.old.3 ++ Finish file.path ∷ []) }
        ensures changed { IfOk result (λ keys. (k : Key) → (is_one keys.items k ≡ true) ↔ (HaveSamePrints node_reading (nodes_in self.old.0) (nodes_in self.new.0) k → ⊥)) }
        ensures ascending { IfOk result (λ keys. AreAscending keys.items) }
        ensures follows { OnOk result ((before now : Module) (first : List ℕ → Bool) → now file.path ≡ Some file.nodes → Follows (change_of before now first) self.old → Follows (change_of before now first) self.new) }
        ensures refused { IfErr result (λ e. e ≡ faults.NotRunning → (stage_at self.old.2 file.path ≢ machine.Running) × (self.new ≡ self.old)) }
        ensures lost { IfErr result (λ e. e ≡ faults.NoMemory → self.new.2 ≡ []) }
    {
        let core = mem::replace(self, Core::new(alloc));
        match finished(alloc, core, file) {
            Ok((core, keys)) => {
                *self = core;
                match keys {
                    Some(keys) => Ok(keys),
                    None => Err(FinishFault::NotRunning),
                }
            }
            Err(_) => Err(FinishFault::NoMemory),
        }
    }

    /// Whether nothing is pending or running. Takes no memory.
    ///
    /// A core that has followed a change, whatever the order in which files were taken and finished, has then
    /// built what is due for it.
    pub fn is_complete(&self) -> bool
        ensures complete { IsTrue result ↔ IsComplete (state_of self.now) }
        ensures built { IsTrue result → (before now : Module) (first : List ℕ → Bool) → IsPlan (change_of before now first) → Follows (change_of before now first) self.now → HasBuilt (change_of before now first) self.now }
    {
        self.pending.is_empty() && self.running.is_empty()
    }

    /// The graph as it is now. Takes no memory.
    pub fn graph(&self) -> &Graph
        ensures { result.now ≡ self.now.0 }
    {
        &self.graph
    }

    /// The keys that have changed, in order. Takes no memory.
    pub fn changed(&self) -> &BTreeSet<Key>
        ensures { result.now.keys ≡ self.now.1 }
    {
        &self.changed
    }

    /// What has happened, in order. Takes no memory.
    pub fn log(&self) -> &[FileEvent]
        ensures { result.now ≡ self.now.3 }
    {
        self.log.as_slice()
    }

    /// The graph as it is now.
    pub fn into_graph(self) -> Graph
        ensures { result ≡ self.0 }
    {
        self.graph
    }
}

/// The pending file of the least path.
fn next_file(core: &Core) -> Result<Option<Name>, NoMemory>
    ensures pending { IfOk result (λ next. IfSome next (λ file. stage_at core.now.2 file ≡ machine.Pending)) }
    ensures least { IfOk result (λ next. IfSome next (λ file. (f : List ℕ) → stage_at core.now.2 f ≡ machine.Pending → is_gt (path_order file f) ≡ false)) }
    ensures empty { IfOk result (λ next. IfNone next ((f : List ℕ) → stage_at core.now.2 f ≢ machine.Pending)) }
{
    match core.pending.first() {
        Some(file) => {
            let copy = copy_of(file)?;
            Ok(Some(copy))
        }
        None => Ok(None),
    }
}

/// The core behind the start of a file, and this file, where one is pending.
fn taken(core: Core) -> Result<(Core, Option<Name>), NoMemory>
    ensures taken { IfOk result (λ made. IfSome made.1 (λ file. IsTake file (state_of core) (state_of made.0))) }
    ensures logged { IfOk result (λ made. IfSome made.1 (λ file. made.0.3 ≡ core.3 ++ Take file ∷ [])) }
    ensures least { IfOk result (λ made. IfSome made.1 (λ file. (f : List ℕ) → stage_at core.2 f ≡ machine.Pending → is_gt (path_order file f) ≡ false)) }
    ensures empty { IfOk result (λ made. IfNone made.1 ((f : List ℕ) → stage_at core.2 f ≢ machine.Pending)) }
    ensures unchanged { IfOk result (λ made. IfNone made.1 (made.0 ≡ core)) }
{
    match next_file(&core)? {
        Some(file) => {
            let core = started(core, &file)?;
            Ok((core, Some(file)))
        }
        None => Ok((core, None)),
    }
}

/// The core behind the start of a pending file.
fn started(core: Core, file: &Name) -> Result<Core, NoMemory>
    requires pending { stage_at core.2 file.now ≡ machine.Pending }
    ensures taken { IfOk result (λ made. IsTake file.now (state_of core) (state_of made)) }
    ensures logged { IfOk result (λ made. made.3 ≡ core.3 ++ Take file.now ∷ []) }
{
    let Core {
        graph,
        changed,
        mut stages,
        mut pending,
        mut running,
        mut log,
    } = core;
    set_stage(&mut stages, file, Stage::Running);
    pending.remove(file);
    let copy = copy_of(file)?;
    running.insert(copy)?;
    note_take(&mut log, file)?;
    Ok(Core {
        graph,
        changed,
        stages,
        pending,
        running,
        log,
    })
}

/// The core behind the end of a file, and the keys whose print this changes, where the file is running.
fn finished(
    alloc: Global,
    core: Core,
    file: FileGraph,
) -> Result<(Core, Option<Vec<Key>>), NoMemory>
    requires ordered { AreInOrder file.nodes }
    ensures finished { IfOk result (λ made. IfSome made.1 (λ keys. IsFinish node_reading file.path (Some file.nodes) (state_of core) (state_of made.0))) }
    ensures logged { IfOk result (λ made. IfSome made.1 (λ keys. made.0.3 ≡ core.3 ++ Finish file.path ∷ [])) }
    ensures changed { IfOk result (λ made. IfSome made.1 (λ keys. (k : Key) → (is_one keys.items k ≡ true) ↔ (HaveSamePrints node_reading (nodes_in core.0) (nodes_in made.0.0) k → ⊥))) }
    ensures ascending { IfOk result (λ made. IfSome made.1 (λ keys. AreAscending keys.items)) }
    ensures refused { IfOk result (λ made. IfNone made.1 ((stage_at core.2 file.path ≢ machine.Running) × (made.0 ≡ core))) }
{
    let name = Name::from_str(alloc, file.path.as_str())?;
    if is_running(&core.stages, &name) {
        let (core, keys) = settled(alloc, core, file, &name)?;
        Ok((core, Some(keys)))
    } else {
        Ok((core, None))
    }
}

/// The core behind the end of a running file, and the keys whose print this changes.
fn settled(
    alloc: Global,
    core: Core,
    file: FileGraph,
    name: &Name,
) -> Result<(Core, Vec<Key>), NoMemory>
    requires same { name.now ≡ file.path }
    requires running { stage_at core.2 file.path ≡ machine.Running }
    requires ordered { AreInOrder file.nodes }
    ensures finished { IfOk result (λ made. IsFinish node_reading file.path (Some file.nodes) (state_of core) (state_of made.0)) }
    ensures logged { IfOk result (λ made. made.0.3 ≡ core.3 ++ Finish file.path ∷ []) }
    ensures changed { IfOk result (λ made. (k : Key) → (is_one made.1.items k ≡ true) ↔ (HaveSamePrints node_reading (nodes_in core.0) (nodes_in made.0.0) k → ⊥)) }
    ensures ascending { IfOk result (λ made. AreAscending made.1.items) }
{
    let Core {
        mut graph,
        mut changed,
        mut stages,
        mut pending,
        mut running,
        mut log,
    } = core;
    let moved = graph.integrate(alloc, file)?;
    let first = join(alloc, &mut changed, &moved)?;
    set_stage(&mut stages, name, Stage::Done);
    running.remove(name);
    wake_all(&graph, &first, &mut stages, &mut pending)?;
    note_finish(&mut log, name)?;
    let core = Core {
        graph,
        changed,
        stages,
        pending,
        running,
        log,
    };
    Ok((core, moved))
}
