//! The nodes of files, as they are printed.

use dep_key::{FileGraph, Key, Kind, NoMemory, Node};

fn put(out: &mut Vec<u8>, text: &str) -> Result<(), NoMemory> {
    out.extend_from_slice(text.as_bytes())?;
    Ok(())
}

// A part of a key, if there is one.
fn put_part(out: &mut Vec<u8>, part: &str) -> Result<(), NoMemory> {
    if !part.is_empty() {
        put(out, " ")?;
        put(out, part)?;
    }
    Ok(())
}

fn put_key(out: &mut Vec<u8>, head: &str, key: &Key) -> Result<(), NoMemory> {
    put(out, head)?;
    put(out, key.kind.word())?;
    put_part(out, key.context.as_str())?;
    put_part(out, key.name.as_str())?;
    if key.kind == Kind::SourceFileProvide {
        put(out, " implementation")?;
    }
    put(out, "\n")
}

// Each line of a print.
fn put_print(out: &mut Vec<u8>, print: &[u8]) -> Result<(), NoMemory> {
    if print.is_empty() {
        return Ok(());
    }
    for line in print.split(|byte| *byte == b'\n') {
        put(out, " print ")?;
        out.extend_from_slice(line)?;
        put(out, "\n")?;
    }
    Ok(())
}

fn put_node(out: &mut Vec<u8>, node: &Node) -> Result<(), NoMemory> {
    put_key(out, "node ", &node.key)?;
    put_print(out, node.print.as_slice())?;
    for key in node.uses.as_slice() {
        put_key(out, " use ", key)?;
    }
    Ok(())
}

/// The nodes of a file, with its path before them.
pub fn put_graph(out: &mut Vec<u8>, graph: &FileGraph) -> Result<(), NoMemory> {
    put(out, "# nodes ")?;
    put(out, graph.path.as_str())?;
    put(out, "\n")?;
    for node in graph.nodes.as_slice() {
        put_node(out, node)?;
    }
    Ok(())
}
