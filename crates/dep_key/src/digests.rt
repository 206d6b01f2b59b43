//! Digests in place of prints.

ghost use Rattle.std.specs.Prelude.{◌≡◌, IfOk};
ghost use Rattle.dep_key.specs.Digests.{digest_of, digested_node, digested};

use crate::{Aspect, FileGraph, NoMemory, Node, Nodes, Text};
use sha2::{Digest, Sha256};
use std::alloc::Global;

/// The digest of a print.
fn digest_of(alloc: Global, aspect: Aspect, print: &[u8]) -> Result<Text, NoMemory>
    ensures { IfOk result (λ digest. digest ≡ digest_of aspect print.now) }
{
    match aspect {
        Aspect::Interface => {
            let digest = Sha256::digest(print);
            let text = Text::from_slice(alloc, digest.as_slice())?;
            Ok(text)
        }
        Aspect::Implementation => Ok(Text::from_vec(Vec::new(alloc))),
    }
}

/// A copy of a node with the digest of its print.
fn digested_node(alloc: Global, node: &Node) -> Result<Node, NoMemory>
    ensures { IfOk result (λ made. made ≡ digested_node node.now) }
{
    let key = node.key.clone()?;
    let print = digest_of(alloc, node.key.aspect, node.print.as_slice())?;
    let uses = node.uses.clone()?;
    Ok(Node { key, print, uses })
}

/// A copy of a file graph in which each print of an interface is replaced by its SHA-256, 32 bytes (FIPS 180-4), and each
/// print of an implementation by nothing.
pub fn digested(alloc: Global, file: &FileGraph) -> Result<FileGraph, NoMemory>
    ensures { IfOk result (λ made. made ≡ digested file.now) }
{
    let path = file.path.clone()?;
    let mut nodes = Vec::new(alloc);
    for node in file.nodes.as_slice() {
        let made = digested_node(alloc, node)?;
        nodes.push(made)?;
    }
    Ok(FileGraph {
        path,
        nodes: Nodes::from_vec(nodes),
    })
}
