//! The graph of a file.

ghost use Rattle.std.specs.Prelude.{◌≡◌, Some, map, IfOk, OnOk};
ghost use Rattle.std.specs.List.{slice_get};
ghost use Rattle.std.specs.Option.{option_map};
ghost use Rattle.dep_key.specs.GraphOrder.{AreAscending, AreInOrder};
ghost use Rattle.file_nodes.specs.Graphs.{implementation_node, graph_of};
ghost use Rattle.file_nodes.specs.Own.{own_node};

use crate::keys::{copied, node_keys};
use crate::prints::node_print;
use crate::uses::node_uses;
use decl_index::Index;
use dep_key::{FileGraph, FileNo, Key, NoMemory, Node, Nodes, Path, Text};
use sqlite_items::at;
use std::alloc::Global;
use std::collections::BTreeSet;
use swift_ast::FileTree;
use type_rules::Answers;

/// The node of a key of the file of a number.
#[tactic(auto, unfolding(crate::specs::Own::own_node))]
fn node<A: Answers>(
    alloc: Global,
    answers: &A,
    index: &Index,
    number: FileNo,
    key: Key,
) -> Result<Node, NoMemory>
    ensures { IfOk result (λ node. node ≡ own_node (A.meanings answers.now) index.now number key) }
{
    let references = index.providers(&key);
    let print = node_print(
        alloc,
        &key,
        answers.meaning(&key),
        index,
        number,
        references,
    )?;
    let uses = node_uses(alloc, answers, &key, index, number, references)?;
    Ok(Node { key, print, uses })
}

/// The nodes of some keys of the file of a number.
fn nodes<A: Answers>(
    alloc: Global,
    answers: &A,
    index: &Index,
    number: FileNo,
    keys: BTreeSet<Key>,
) -> Result<Vec<Node>, NoMemory>
    ensures { IfOk result (λ made. made.items ≡ map (own_node (A.meanings answers.now) index.now number) keys.keys) }
{
    let mut made = Vec::new(alloc);
    for key in keys {
        let one = node(alloc, answers, index, number, key)?;
        made.push(one)?;
    }
    Ok(made)
}

/// The node of a file's implementation.
fn implementation_node(alloc: Global, path: &str, uses: &BTreeSet<Key>) -> Result<Node, NoMemory>
    ensures node { IfOk result (λ node. node ≡ implementation_node path.now uses.now.keys) }
    ensures ascending { OnOk result (AreAscending uses.now.keys) }
{
    let key = Key::source_file(alloc, path)?;
    let uses = copied(alloc, uses)?;
    let print = Text::from_vec(Vec::new(alloc));
    Ok(Node { key, print, uses })
}

/// The graph of a file of this number.
fn graph_in<A: Answers>(
    alloc: Global,
    answers: &A,
    index: &Index,
    number: FileNo,
    file: &FileTree,
    implementation: &BTreeSet<Key>,
) -> Result<FileGraph, NoMemory>
    ensures graph { IfOk result (λ g. slice_get index.now number ≡ Some file.now → g ≡ graph_of (A.meanings answers.now) implementation.now.keys file.now) }
    ensures ordered { IfOk result (λ g. slice_get index.now number ≡ Some file.now → AreInOrder g.nodes) }
{
    let keys = node_keys(alloc, file)?;
    let mut made = nodes(alloc, answers, index, number, keys)?;
    let own = implementation_node(alloc, file.path.as_str(), implementation)?;
    made.push(own)?;
    let path = Path::from_str(alloc, file.path.as_str())?;
    Ok(FileGraph {
        path,
        nodes: Nodes::from_vec(made),
    })
}

/// The graph of the file of a number, whose implementation has these uses, where each key means what it is answered.
///
/// An error says that memory was wanted and not there, or that the module has no file of the number.
pub fn graph<A: Answers>(
    alloc: Global,
    answers: &A,
    index: &Index,
    number: FileNo,
    implementation: &BTreeSet<Key>,
) -> Result<FileGraph, NoMemory>
    ensures graph { IfOk result (λ g. Some g ≡ option_map (graph_of (A.meanings answers.now) implementation.now.keys) (slice_get index.now number)) }
    ensures ordered { IfOk result (λ g. AreInOrder g.nodes) }
{
    match at(index.files(), number as usize) {
        None => Err(NoMemory),
        Some(file) => {
            let made = graph_in(alloc, answers, index, number, file, implementation)?;
            Ok(made)
        }
    }
}
