use anyhow::Error;
use dep_key::{Aspect, FileGraph, Key, Kind};

const BYTES_IN_A_LINE: usize = 16;

/// Prints bytes as hexadecimal digits.
pub fn print_bytes<R: Print + AllocGlobal>(rt: &R, bytes: &[u8]) -> Result<(), Error> {
    for line in bytes.chunks(BYTES_IN_A_LINE) {
        println!(rt; "{}", hex::encode(rt.alloc(), line)?)?;
    }
    Ok(())
}

fn kind(key: &Key) -> &'static str {
    match key.kind {
        Kind::TopLevel => "topLevel",
        Kind::Nominal => "nominal",
        Kind::PotentialMember => "potentialMember",
        Kind::Member => "member",
        Kind::DynamicLookup => "dynamicLookup",
        Kind::ExternalDepend => "externalDepend",
        Kind::SourceFileProvide => "sourceFileProvide",
    }
}

fn aspect(key: &Key) -> &'static str {
    match key.aspect {
        Aspect::Interface => "interface",
        Aspect::Implementation => "implementation",
    }
}

// Prints a line of a key.
fn print_key<R: Print>(rt: &R, word: &str, key: &Key) -> Result<(), Error> {
    let (kind, aspect) = (kind(key), aspect(key));
    let (context, name) = (key.context.as_str(), key.name.as_str());
    println!(rt; "{word} {kind} {aspect} \"{context}\" \"{name}\"")?;
    Ok(())
}

/// Prints the path of a graph, and below it each node with its print and its uses.
pub fn print_graph<R: Print>(rt: &R, graph: &FileGraph) -> Result<(), Error> {
    println!(rt; "file \"{}\"", graph.path.as_str())?;
    for node in graph.nodes.as_slice() {
        print_key(rt, "node", &node.key)?;
        let print = str::from_utf8(node.print.as_slice()).unwrap_or("?");
        println!(rt; "print \"{print}\"")?;
        for key in node.uses.as_slice() {
            print_key(rt, "use", key)?;
        }
    }
    Ok(())
}
