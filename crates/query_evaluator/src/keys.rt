ghost use Rattle.std.specs.Prelude.{◌≡◌, IfOk};
ghost use Rattle.std.proofs.lemmas.Map.Lookups.{CmpEqualImpliesEq, exact_bytes};
ghost use Rattle.dep_key.specs.KeysApart.{keys_apart};

use dep_key::{Key, Name, NoMemory};

/// A key of queries: keys that compare as equal are one, and a copy of a key is that key.
pub trait QueryKey: Ord + Drop {
    /// A copy of the key.
    fn copy(&self) -> Result<Self, NoMemory>
        ensures { IfOk result (λ copy. copy ≡ self.now) };

    ghost exact: { CmpEqualImpliesEq Self.cmp };
}

impl QueryKey for Name {
    ghost exact = { exact_bytes };

    fn copy(&self) -> Result<Name, NoMemory> {
        Ok(self.clone()?)
    }
}

impl QueryKey for Key {
    ghost exact = { keys_apart };

    fn copy(&self) -> Result<Key, NoMemory> {
        Ok(self.clone()?)
    }
}
