//! A change goes through the core, in a random order.

use crate::modules::{
    Change, File, KEYS, Module, PATHS, file_at, graph_of, key_at, nodes_of, path_at,
};
use crate::numbers::Numbers;
use crate::rounds::Outcome;
use dep_trace::Trace;
use std::alloc::Global;
use wave_core::{Core, Graph, Key, Name, NoMemory};

/// The most events of a build that are tried.
const MOST_EVENTS: usize = 400;

fn recorded(alloc: Global, module: &Module) -> Result<Graph, NoMemory> {
    let mut graph = Graph::new(alloc);
    for (at, file) in module.iter().enumerate() {
        if let Some(file) = file {
            let file = graph_of(alloc, at, file)?;
            if file.check().is_some() {
                return Err(NoMemory);
            }
            graph.integrate(alloc, file)?;
        }
    }
    Ok(graph)
}

fn removed_of(alloc: Global, change: &Change) -> Result<Vec<Name>, NoMemory> {
    let mut names = Vec::new(alloc);
    for at in 0..8usize {
        if file_at(&change.before, at).is_some() && file_at(&change.now, at).is_none() {
            let name = path_at(alloc, at)?;
            names.push(name)?;
        }
    }
    Ok(names)
}

fn first_of(alloc: Global, change: &Change) -> Result<Vec<Name>, NoMemory> {
    let mut names = Vec::new(alloc);
    for (at, first) in change.first.iter().enumerate() {
        if *first {
            let name = path_at(alloc, at)?;
            names.push(name)?;
        }
    }
    Ok(names)
}

fn place_of(name: &Name) -> usize {
    for (at, path) in PATHS.iter().enumerate() {
        if name.as_str() == *path {
            return at;
        }
    }
    PATHS.len()
}

/// Finishes a running file with its nodes of now, and notes what this changes.
fn finish(
    alloc: Global,
    core: &mut Core,
    trace: &mut Trace,
    change: &Change,
    at: usize,
) -> Result<(), NoMemory> {
    let Some(cells) = file_at(&change.now, at) else {
        return Ok(());
    };
    let file = graph_of(alloc, at, &cells)?;
    if file.check().is_some() {
        return Err(NoMemory);
    }
    match core.finish(alloc, file) {
        Ok(keys) => {
            let name = path_at(alloc, at)?;
            trace.note(&name, &keys)?;
            Ok(())
        }
        Err(_) => Err(NoMemory),
    }
}

/// Takes and finishes files until nothing is pending or running.
fn run(
    alloc: Global,
    core: &mut Core,
    trace: &mut Trace,
    change: &Change,
    numbers: &mut Numbers,
) -> Result<[bool; 8], NoMemory> {
    let mut built = [false; 8];
    let mut running = [false; 8];
    for _ in 0..MOST_EVENTS {
        if core.is_complete() {
            return Ok(built);
        }
        if numbers.flips() {
            if let Some(name) = core.take(alloc)? {
                let at = place_of(&name);
                set(&mut built, at, true);
                set(&mut running, at, true);
            }
        }
        let at = numbers.below_eight();
        if running.get(at).copied().unwrap_or(false) {
            set(&mut running, at, false);
            finish(alloc, core, trace, change, at)?;
        }
    }
    Ok([false; 8])
}

fn set(files: &mut [bool; 8], at: usize, to: bool) {
    if let Some(file) = files.get_mut(at) {
        *file = to;
    }
}

fn changed_in(alloc: Global, core: &Core) -> Result<[bool; 4], NoMemory> {
    let mut changed = [false; 4];
    for (at, moved) in changed.iter_mut().enumerate() {
        let key = key_at(alloc, at)?;
        *moved = core.changed().contains(&key);
    }
    Ok(changed)
}

fn number_of(key: &Option<Key>) -> Option<usize> {
    match key {
        Some(key) => key_number(key),
        None => None,
    }
}

fn key_number(key: &Key) -> Option<usize> {
    for (at, text) in KEYS.iter().enumerate() {
        if key.name.as_str() == *text {
            return Some(at);
        }
    }
    None
}

fn traced_in(
    alloc: Global,
    trace: &Trace,
    file: &Option<File>,
    at: usize,
) -> Result<Option<usize>, NoMemory> {
    let Some(cells) = file else {
        return Ok(None);
    };
    let nodes = nodes_of(alloc, cells)?;
    let name = path_at(alloc, at)?;
    let traced = trace.traced_key(alloc, &name, nodes.as_slice())?;
    Ok(number_of(&traced))
}

/// Whether the final graph has of each file its nodes of now where it is due, and else those recorded.
fn ends_right(
    alloc: Global,
    core: &Core,
    change: &Change,
    due: &[bool; 8],
) -> Result<bool, NoMemory> {
    for (at, is_due) in due.iter().enumerate() {
        let now = file_at(&change.now, at);
        let wanted = match (now, *is_due) {
            (Some(cells), true) => Some(cells),
            (Some(_), false) => file_at(&change.before, at),
            (None, _) => None,
        };
        let name = path_at(alloc, at)?;
        if !is_same(alloc, core, &name, &wanted)? {
            return Ok(false);
        }
    }
    Ok(true)
}

fn is_same(
    alloc: Global,
    core: &Core,
    name: &Name,
    wanted: &Option<File>,
) -> Result<bool, NoMemory> {
    match (core.graph().nodes(name), wanted) {
        (Some(found), Some(cells)) => {
            let nodes = nodes_of(alloc, cells)?;
            Ok(found == nodes.as_slice())
        }
        (None, None) => Ok(true),
        _ => Ok(false),
    }
}

/// What a change comes to in the core, and whether its graph ends right.
pub fn built(
    alloc: Global,
    change: &Change,
    numbers: &mut Numbers,
) -> Result<(Outcome, bool), NoMemory> {
    let graph = recorded(alloc, &change.before)?;
    let removed = removed_of(alloc, change)?;
    let first = first_of(alloc, change)?;
    let mut trace = Trace::start(alloc, &graph, &removed)?;
    let mut core = Core::start(alloc, graph, &removed, &first)?;
    let due = run(alloc, &mut core, &mut trace, change, numbers)?;
    let changed = changed_in(alloc, &core)?;
    let mut traced = [None; 8];
    for (at, from) in traced.iter_mut().enumerate() {
        if due.get(at).copied().unwrap_or(false) {
            *from = traced_in(alloc, &trace, &file_at(&change.before, at), at)?;
        }
    }
    let ends = ends_right(alloc, &core, change, &due)?;
    Ok((
        Outcome {
            due,
            changed,
            traced,
        },
        ends,
    ))
}
