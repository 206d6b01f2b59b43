use drv_outside::{Stamp, Text, Tree, is_plain_name};
use std::alloc::{AllocError, Global};
use tree_mem::MemTree;

/// The single byte that a crash may leave under a name in doubt.
const OPEN: &[u8] = &[1];

/// What a tree answers to a step, which is a verb and up to two words that it is given: whether it was
/// done, or what was found.
pub fn answer(alloc: Global, tree: &mut MemTree, step: &str) -> Result<String, AllocError> {
    let mut words = step.split_whitespace();
    let verb = words.next().unwrap_or("");
    let name = words.next().unwrap_or("");
    let text = words.next().unwrap_or("");
    match verb {
        "sources" => sources(alloc, tree),
        "folder" => folder(alloc, tree),
        "read" => map_at(alloc, tree, name),
        "fail" => fail(alloc, tree, name),
        "stop" => stop(alloc, tree, name),
        "put" => said(alloc, put(tree, name, text)),
        "take" => said(alloc, tree.remove_source(name)),
        "drop" => said(alloc, tree.drop_output(name)),
        _ => said(alloc, is_done(tree, verb, name, text)),
    }
}

fn said(alloc: Global, done: bool) -> Result<String, AllocError> {
    String::from_str(alloc, if done { ": done" } else { ": not done" })
}

// Whether a change was made, and not refused.
fn is_done(tree: &mut MemTree, verb: &str, name: &str, text: &str) -> bool {
    match verb {
        "write" if is_plain_name(name) => tree.write_file(name, text.as_bytes()).is_ok(),
        "remove" if is_plain_name(name) => tree.remove_file(name).is_ok(),
        "sync" => tree.sync().is_ok(),
        "map" => tree.set_map(name, text.as_bytes()).is_ok(),
        "crash" => tree.crash(number(name)).is_ok(),
        _ => false,
    }
}

fn number(word: &str) -> u64 {
    word.parse().unwrap_or(0)
}

// All sources have one stamp but for their length.
fn put(tree: &mut MemTree, path: &str, text: &str) -> bool {
    let size = text.len() as u64;
    let stamp = Stamp {
        secs: 1,
        nanos: 0,
        size,
    };
    tree.put_source(path, stamp, text.as_bytes()).is_ok()
}

// The call with one number is to fail.
fn fail(alloc: Global, tree: &mut MemTree, word: &str) -> Result<String, AllocError> {
    let number: u32 = word.parse().unwrap_or(0);
    tree.fail_calls(vec![in alloc; number]?);
    said(alloc, true)
}

fn stop(alloc: Global, tree: &mut MemTree, word: &str) -> Result<String, AllocError> {
    tree.stop_after(number(word));
    said(alloc, true)
}

fn sources(alloc: Global, tree: &mut MemTree) -> Result<String, AllocError> {
    let mut text = String::new(alloc);
    let Ok(entries) = tree.list(alloc) else {
        return said(alloc, false);
    };
    for entry in &entries {
        text.push_str("\n  ")?;
        text.push_str(entry.path.as_str())?;
    }
    Ok(text)
}

fn map_at(alloc: Global, tree: &mut MemTree, path: &str) -> Result<String, AllocError> {
    match tree.read_map(alloc, path) {
        Ok(Some(bytes)) => format!(in alloc; ": {}", shown(&bytes)),
        Ok(None) => String::from_str(alloc, ": none"),
        Err(_) => said(alloc, false),
    }
}

// The files of the build folder, with their bytes.
fn folder(alloc: Global, tree: &mut MemTree) -> Result<String, AllocError> {
    let mut text = String::new(alloc);
    let Ok(names) = tree.names(alloc) else {
        return said(alloc, false);
    };
    for name in &names {
        let file = file(alloc, tree, name.as_str())?;
        text.push_str(file.as_str())?;
    }
    Ok(text)
}

fn file(alloc: Global, tree: &mut MemTree, name: &str) -> Result<String, AllocError> {
    match tree.read_file(alloc, name) {
        Ok(Some(bytes)) => format!(in alloc; "\n  {name} {}", shown(&bytes)),
        _ => said(alloc, false),
    }
}

// Bytes as they are printed.
fn shown(bytes: &Text) -> &str {
    if bytes.as_slice() == OPEN {
        return "01";
    }
    str::from_utf8(bytes.as_slice()).unwrap_or("?")
}
