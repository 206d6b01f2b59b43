ghost use Rattle.std.specs.Prelude.{◌≡◌};
ghost use Rattle.std.specs.Cmp.{partial_equiv_from_equiv, eq_by_cmp_equiv};
ghost use Rattle.std.specs.Cmp.Lexicographic.{pointwise, lists_equiv};
ghost use Rattle.std.specs.Ordering.{eq_by_cmp};
ghost use Rattle.dep_key.specs.KeyOrder.{key_order, key_order_total};
ghost use Rattle.dep_key.specs.Sameness.{is_same_node, is_same_node_equiv};

use crate::{Key, Node};
use std::alloc::{AllocError, Global};
use std::marker::Model;

/// A `Vec` of keys that contracts see as the list of them.
#[derive(Debug, Drop)]
pub struct Keys {
    keys: Vec<Key>,
}

impl Model for Keys {
    ghost use Rattle.std.specs.Prelude.{List};
    ghost use Rattle.dep_key.specs.declared.key.Key.{Key};

    ghost Value = { List Key };

    ghost view = { λ t. t.keys.items };
}

impl Keys {
    /// The keys of a vector, which takes no memory.
    pub fn from_vec(keys: Vec<Key>) -> Keys
        ensures { result ≡ keys.items }
    {
        Keys { keys }
    }

    /// The vector, which takes no memory.
    pub fn into_vec(self) -> Vec<Key>
        ensures { result.items ≡ self }
    {
        let Keys { keys } = self;
        keys
    }

    /// The keys as a slice.
    pub fn as_slice(&self) -> &[Key]
        ensures { result.now ≡ self.now }
    {
        &self.keys
    }
}

impl Clone for Keys {
    ghost is_clone = { λ keys copy. copy ≡ keys };

    fn clone(&self) -> Result<Keys, AllocError> {
        let keys = self.keys.clone()?;
        Ok(Keys { keys })
    }
}

/// A `Vec` of nodes that contracts see as the list of them.
#[derive(Debug, Drop)]
pub struct Nodes {
    nodes: Vec<Node>,
}

impl Model for Nodes {
    ghost use Rattle.std.specs.Prelude.{List};
    ghost use Rattle.dep_key.specs.declared.graph.Node.{Node};

    ghost Value = { List Node };

    ghost view = { λ t. t.nodes.items };
}

impl Nodes {
    /// The nodes of a vector, which takes no memory.
    pub fn from_vec(nodes: Vec<Node>) -> Nodes
        ensures { result ≡ nodes.items }
    {
        Nodes { nodes }
    }

    /// The vector, which takes no memory.
    pub fn into_vec(self) -> Vec<Node>
        ensures { result.items ≡ self }
    {
        let Nodes { nodes } = self;
        nodes
    }

    /// The nodes as a slice.
    pub fn as_slice(&self) -> &[Node]
        ensures { result.now ≡ self.now }
    {
        &self.nodes
    }
}

impl Clone for Nodes {
    ghost is_clone = { λ nodes copy. copy ≡ nodes };

    fn clone(&self) -> Result<Nodes, AllocError> {
        let nodes = self.nodes.clone()?;
        Ok(Nodes { nodes })
    }
}

impl PartialEq for Keys {
    ghost eq = { pointwise (eq_by_cmp key_order) };

    ghost laws = { partial_equiv_from_equiv (lists_equiv (eq_by_cmp_equiv key_order_total)) };

    fn eq(&self, other: &Keys) -> bool {
        self.as_slice() == other.as_slice()
    }
}

impl Eq for Keys {
    ghost laws = { lists_equiv (eq_by_cmp_equiv key_order_total) };
}

impl PartialEq for Nodes {
    ghost eq = { pointwise is_same_node };

    ghost laws = { partial_equiv_from_equiv (lists_equiv is_same_node_equiv) };

    fn eq(&self, other: &Nodes) -> bool {
        self.as_slice() == other.as_slice()
    }
}

impl Eq for Nodes {
    ghost laws = { lists_equiv is_same_node_equiv };
}
