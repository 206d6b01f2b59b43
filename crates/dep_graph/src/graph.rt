//! The graph of a module.

ghost use Rattle.std.specs.Prelude.{◌≡◌, ◌≢◌, ◌↔◌, ℕ, List, Bool, true, false, None, Some, IfOk, OnOk, OnErr, IfSome, IfNone};
ghost use Rattle.std.specs.BTreeSet.{contains};
ghost use Rattle.dep_key.specs.declared.key.Key.{Key};
ghost use Rattle.dep_key.specs.GraphOrder.{AreAscending, AreInOrder};
ghost use Rattle.waves.specs.Builds.{HaveSamePrints};
ghost use Rattle.dep_graph.specs.Moves.{is_one, node_reading};
ghost use Rattle.dep_graph.specs.Arcs.{path_order, nodes_in, uses_key, nodes_or_none};

use crate::arcs::{enter_nodes, leave_nodes};
use crate::changes::changed_keys;
use dep_key::{FileGraph, Key, Name, NoMemory, Node, Nodes};
use std::alloc::Global;
use std::collections::{BTreeMap, BTreeSet};
use std::marker::Model;
use std::mem;

/// The nodes of each file of a module, and which files use a key.
///
/// Contracts see a graph as the map from path to nodes.
#[derive(Drop)]
pub struct Graph {
    files: BTreeMap<Name, Nodes>,
    users: BTreeMap<Key, BTreeSet<Name>>,
}

impl Model for Graph {
    ghost use Rattle.dep_graph.specs.Arcs.{Files, IsIndexed};

    ghost Value = { Files };

    ghost view = { λ g. g.files.entries };

    ghost invariant = { λ g. IsIndexed g.files.entries g.users };
}

impl Graph {
    /// A graph without files.
    pub fn new(alloc: Global) -> Graph
        ensures empty { (f : List ℕ) → nodes_in result f ≡ None }
    {
        Graph {
            files: BTreeMap::new(alloc),
            users: BTreeMap::new(alloc),
        }
    }

    /// Puts a file's nodes in place of its old ones, and gives, in order, the keys whose list of (file, print)
    /// this changes. Takes time in proportion to the arcs of both. After want of memory the graph is empty.
    pub fn integrate(&mut self, alloc: Global, file: FileGraph) -> Result<Vec<Key>, NoMemory>
        requires ordered { AreInOrder file.nodes }
        ensures here { OnOk result (nodes_in self.new file.path ≡ Some file.nodes) }
        ensures others { OnOk result ((f : List ℕ) → f ≢ file.path → nodes_in self.new f ≡ nodes_in self.old f) }
        ensures changed { IfOk result (λ keys. (k : Key) → (is_one keys.items k ≡ true) ↔ (HaveSamePrints node_reading (nodes_in self.old) (nodes_in self.new) k → ⊥)) }
        ensures ascending { IfOk result (λ keys. AreAscending keys.items) }
        ensures lost { OnErr result ((f : List ℕ) → nodes_in self.new f ≡ None) }
    {
        let graph = mem::replace(self, Graph::new(alloc));
        let (graph, keys) = with_file(alloc, graph, file)?;
        *self = graph;
        Ok(keys)
    }

    /// Takes out a file's nodes, and gives, in order, the keys whose list of (file, print) this changes. After
    /// want of memory the graph is empty.
    pub fn drop_file(&mut self, alloc: Global, path: &Name) -> Result<Vec<Key>, NoMemory>
        ensures here { OnOk result (nodes_in self.new path.now ≡ None) }
        ensures others { OnOk result ((f : List ℕ) → f ≢ path.now → nodes_in self.new f ≡ nodes_in self.old f) }
        ensures changed { IfOk result (λ keys. (k : Key) → (is_one keys.items k ≡ true) ↔ (HaveSamePrints node_reading (nodes_in self.old) (nodes_in self.new) k → ⊥)) }
        ensures ascending { IfOk result (λ keys. AreAscending keys.items) }
        ensures lost { OnErr result ((f : List ℕ) → nodes_in self.new f ≡ None) }
    {
        let graph = mem::replace(self, Graph::new(alloc));
        let (graph, keys) = without_file(alloc, graph, path)?;
        *self = graph;
        Ok(keys)
    }

    /// The files with a node that uses a key, in order of their paths. Takes no memory.
    pub fn users(&self, key: &Key) -> Option<&BTreeSet<Name>>
        ensures users { IfSome result (λ files. (f : List ℕ) → contains path_order files.now f ≡ uses_key (nodes_in self.now f) key.now) }
        ensures unused { IfNone result ((f : List ℕ) → uses_key (nodes_in self.now f) key.now ≡ false) }
    {
        match self.users.get(key) {
            Some(files) => Some(files),
            None => None,
        }
    }

    /// The nodes of a file, where the graph has it. Takes no memory.
    pub fn nodes(&self, path: &Name) -> Option<&[Node]>
        ensures nodes { IfSome result (λ nodes. nodes_in self.now path.now ≡ Some nodes.now) }
        ensures absent { IfNone result (nodes_in self.now path.now ≡ None) }
    {
        match self.files.get(path) {
            Some(nodes) => Some(nodes.as_slice()),
            None => None,
        }
    }
}

/// A graph without a file that it may have, and the nodes that this had.
fn taken_out(alloc: Global, graph: Graph, path: &Name) -> (Graph, Nodes)
    ensures here { nodes_in result.0 path.now ≡ None }
    ensures others { (f : List ℕ) → f ≢ path.now → nodes_in result.0 f ≡ nodes_in graph f }
    ensures nodes { result.1 ≡ nodes_or_none (nodes_in graph path.now) }
{
    let Graph {
        mut files,
        mut users,
    } = graph;
    let old = match files.remove(path) {
        Some(nodes) => nodes,
        None => Nodes::from_vec(Vec::new(alloc)),
    };
    leave_nodes(&mut users, old.as_slice(), path);
    (Graph { files, users }, old)
}

/// A graph without a file that it may have, and the keys that this changes.
fn without_file(alloc: Global, graph: Graph, path: &Name) -> Result<(Graph, Vec<Key>), NoMemory>
    ensures here { IfOk result (λ made. nodes_in made.0 path.now ≡ None) }
    ensures others { IfOk result (λ made. (f : List ℕ) → f ≢ path.now → nodes_in made.0 f ≡ nodes_in graph f) }
    ensures changed { IfOk result (λ made. (k : Key) → (is_one made.1.items k ≡ true) ↔ (HaveSamePrints node_reading (nodes_in graph) (nodes_in made.0) k → ⊥)) }
    ensures ascending { IfOk result (λ made. AreAscending made.1.items) }
{
    let (rest, old) = taken_out(alloc, graph, path);
    let none = Vec::new(alloc);
    let keys = changed_keys(alloc, old.as_slice(), none.as_slice())?;
    Ok((rest, keys))
}

/// A graph that has a file's new nodes, and the keys that this changes.
fn with_file(alloc: Global, graph: Graph, file: FileGraph) -> Result<(Graph, Vec<Key>), NoMemory>
    requires ordered { AreInOrder file.nodes }
    ensures here { IfOk result (λ made. nodes_in made.0 file.path ≡ Some file.nodes) }
    ensures others { IfOk result (λ made. (f : List ℕ) → f ≢ file.path → nodes_in made.0 f ≡ nodes_in graph f) }
    ensures changed { IfOk result (λ made. (k : Key) → (is_one made.1.items k ≡ true) ↔ (HaveSamePrints node_reading (nodes_in graph) (nodes_in made.0) k → ⊥)) }
    ensures ascending { IfOk result (λ made. AreAscending made.1.items) }
{
    let FileGraph { path, nodes } = file;
    let name = Name::from_str(alloc, path.as_str())?;
    let (rest, old) = taken_out(alloc, graph, &name);
    let keys = changed_keys(alloc, old.as_slice(), nodes.as_slice())?;
    let made = put_in(alloc, rest, name, nodes)?;
    Ok((made, keys))
}

/// A graph with a file more.
fn put_in(alloc: Global, graph: Graph, path: Name, nodes: Nodes) -> Result<Graph, NoMemory>
    requires absent { nodes_in graph path ≡ None }
    requires ordered { AreInOrder nodes }
    ensures here { IfOk result (λ made. nodes_in made path ≡ Some nodes) }
    ensures others { IfOk result (λ made. (f : List ℕ) → f ≢ path → nodes_in made f ≡ nodes_in graph f) }
{
    let Graph {
        mut files,
        mut users,
    } = graph;
    enter_nodes(alloc, &mut users, nodes.as_slice(), &path)?;
    files.insert(path, nodes)?;
    Ok(Graph { files, users })
}
