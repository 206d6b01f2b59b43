//! Sets and lists of keys.

ghost use Rattle.std.specs.Prelude.{◌≡◌, IfOk, OnOk};
ghost use Rattle.checks.specs.Logs.{entered};
ghost use Rattle.dep_key.specs.GraphOrder.{AreAscending};
ghost use Rattle.dep_key.specs.KeyOrder.{key_order};
ghost use Rattle.file_nodes.specs.Graphs.{node_keys};

use decl_index::declared_keys;
use dep_key::{Key, Keys, NoMemory};
use std::alloc::Global;
use std::collections::BTreeSet;
use swift_ast::FileTree;

/// Enters keys into a set.
fn enter_keys(set: &mut BTreeSet<Key>, keys: Keys) -> Result<(), NoMemory>
    ensures { OnOk result (set.new.keys ≡ entered key_order set.old.keys keys) }
{
    for key in keys.into_vec() {
        set.insert(key)?;
    }
    Ok(())
}

/// The keys of a file's declarations.
#[tactic(auto, using(crate::proofs::EnteredLemmas::entered_append, crate::proofs::EnteredLemmas::node_keys_are))]
pub fn node_keys(alloc: Global, file: &FileTree) -> Result<BTreeSet<Key>, NoMemory>
    ensures { IfOk result (λ set. set.keys ≡ node_keys file.now) }
{
    let mut set = BTreeSet::new(alloc);
    for keys in declared_keys(alloc, file)? {
        enter_keys(&mut set, keys)?;
    }
    Ok(set)
}

/// The keys of a set, ascending.
pub fn listed(alloc: Global, set: BTreeSet<Key>) -> Result<Keys, NoMemory>
    ensures { IfOk result (λ keys. keys ≡ set.keys) }
{
    let mut keys = Vec::new(alloc);
    for key in set {
        keys.push(key)?;
    }
    Ok(Keys::from_vec(keys))
}

/// A copy of the keys of a set, ascending.
pub fn copied(alloc: Global, set: &BTreeSet<Key>) -> Result<Keys, NoMemory>
    ensures keys { IfOk result (λ keys. keys ≡ set.now.keys) }
    ensures ascending { OnOk result (AreAscending set.now.keys) }
{
    let mut keys = Vec::new(alloc);
    for key in set {
        keys.push(key.clone()?)?;
    }
    Ok(Keys::from_vec(keys))
}
