use driver_cmd::{Status, drive, drive_alone};
use drv_outside::{OpenGate, Stamp, Text, Tree};
use std::alloc::{AllocError, Global};
use std::test::Fail;
use tree_mem::{MemSink, MemTree};

/// Puts a source into a tree.
pub fn put(tree: &mut MemTree, path: &str, text: &str) -> Result<(), Fail> {
    let size = text.len() as u64;
    let stamp = Stamp {
        secs: 1,
        nanos: 0,
        size,
    };
    tree.put_source(path, stamp, text.as_bytes())?;
    Ok(())
}

/// A tree with one source.
pub fn tree_with(alloc: Global, path: &str, text: &str) -> Result<MemTree, Fail> {
    let mut tree = MemTree::new(alloc)?;
    put(&mut tree, path, text)?;
    Ok(tree)
}

/// The words of a command, parted by single blanks.
pub fn words_of(alloc: Global, command: &str) -> Result<Vec<Text>, AllocError> {
    let mut words = Vec::new(alloc);
    for word in command.split_whitespace() {
        words.push(Text::from_slice(alloc, word.as_bytes())?)?;
    }
    Ok(words)
}

/// The status of a command over a tree.
pub fn status_of(
    rt: &impl AllocGlobal,
    command: &str,
    tree: &mut MemTree,
    out: &mut MemSink,
) -> Result<Status, Fail> {
    let words = words_of(rt.alloc(), command)?;
    Ok(drive_alone(rt, &words, tree, out))
}

/// The status of a build over a tree.
pub fn built(rt: &impl AllocGlobal, tree: &mut MemTree, out: &mut MemSink) -> Result<Status, Fail> {
    let words = words_of(rt.alloc(), "build -module-name M")?;
    Ok(drive(rt, &words, tree, &OpenGate, out))
}

/// The bytes of a file of the build folder; none where it isn't there.
pub fn bytes_of(alloc: Global, tree: &mut MemTree, name: &str) -> Result<Vec<u8>, Fail> {
    match tree.read_file(alloc, name)? {
        Some(text) => Ok(text.into_vec()),
        None => Ok(Vec::new(alloc)),
    }
}

/// How many files the build folder has.
pub fn count(alloc: Global, tree: &mut MemTree) -> Result<usize, Fail> {
    Ok(tree.names(alloc)?.len())
}
