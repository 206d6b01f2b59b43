//! Which keys and nodes are in order.

ghost use Rattle.std.specs.Prelude.{◌≡◌, ◌↔◌, IfSome, None};
ghost use Rattle.std.specs.Option.{option_copied};
ghost use Rattle.dep_key.specs.GraphOrder.{AreInOrder, IsFirstUnsorted};
ghost use Rattle.dep_key.specs.Scans.{is_above, is_in_order, ascend_after, unsorted_from};

use crate::{FileGraph, Key, Node, Unsorted};

/// Whether a key is above the one before it, where there is one.
fn is_above(before: Option<&Key>, key: &Key) -> bool
    ensures { result ≡ is_above (option_copied before.entry) key.now }
{
    match before {
        Some(before) => before.cmp(key).is_lt(),
        None => true,
    }
}

/// Whether each key is above the one before it.
fn ascend(keys: &[Key]) -> bool
    ensures { result ≡ ascend_after None keys.now }
{
    let mut before: Option<&Key> = None;
    for key in keys {
        if !is_above(before, key) {
            return false;
        }
        before = Some(key);
    }
    true
}

/// Whether the key of a node is above the one before it, and its uses strictly ascend.
fn is_in_order(before: Option<&Key>, node: &Node) -> bool
    ensures { result ≡ is_in_order (option_copied before.entry) node.now }
{
    is_above(before, &node.key) && ascend(node.uses.as_slice())
}

/// The place of the first node that is out of order.
fn first_unsorted(nodes: &[Node]) -> Option<usize>
    ensures { result ≡ unsorted_from 0 None nodes.now }
{
    let mut before: Option<&Key> = None;
    for (at, node) in nodes.iter().enumerate() {
        if !is_in_order(before, node) {
            return Some(at);
        }
        before = Some(&node.key);
    }
    None
}

impl FileGraph {
    /// The first node whose key isn't above that of the node before it, or whose uses don't strictly
    /// ascend; `None` where there is no such node. Takes no memory.
    pub fn check(&self) -> Option<Unsorted>
        ensures none { result ≡ None ↔ AreInOrder self.now.nodes }
        ensures some { IfSome result (λ unsorted. IsFirstUnsorted self.now.nodes unsorted.at) }
    {
        match first_unsorted(self.nodes.as_slice()) {
            Some(at) => Some(Unsorted { at }),
            None => None,
        }
    }
}
