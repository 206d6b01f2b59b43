ghost use Rattle.std.specs.Prelude.{◌≡◌};
ghost use Rattle.std.proofs.Common.{rules};
ghost use Rattle.std.specs.Cmp.{partial_equiv_from_equiv, eq_by_cmp_equiv, partial_order_from_total};
ghost use Rattle.std.specs.Cmp.Rules.{comparing};
ghost use Rattle.std.specs.Ordering.{as_partial_cmp, eq_by_cmp};
ghost use Rattle.dep_key.specs.KeyOrder.{key_order, key_order_total};
ghost use Rattle.dep_key.specs.Hashing.{key_writes, same_writes};

use crate::{Aspect, Kind, Name};
use std::alloc::AllocError;
use std::cmp::Ordering;
use std::hash::{Hash, Hasher};

/// What one file provides and others use: the dependency between files goes through equal keys.
///
/// Keys are ordered by kind, then by aspect, then by the bytes of the context, then by those of the
/// name.
#[derive(Debug, Drop)]
pub struct Key {
    pub kind: Kind,
    pub aspect: Aspect,
    /// The type whose member the name is, and empty outside all types.
    pub context: Name,
    /// The name, and empty where the key stands for the type of its context.
    pub name: Name,
}

impl Clone for Key {
    ghost is_clone = { λ key copy. copy ≡ key };

    fn clone(&self) -> Result<Key, AllocError> {
        let context = self.context.clone()?;
        let name = self.name.clone()?;
        Ok(Key {
            kind: self.kind,
            aspect: self.aspect,
            context,
            name,
        })
    }
}

impl PartialEq for Key {
    ghost eq = { eq_by_cmp key_order };

    ghost laws = { partial_equiv_from_equiv (eq_by_cmp_equiv key_order_total) };

    fn eq(&self, other: &Key) -> bool {
        self.cmp(other).is_eq()
    }
}

impl Eq for Key {
    ghost laws = { eq_by_cmp_equiv key_order_total };
}

impl Ord for Key {
    ghost cmp = { key_order };

    ghost total = { key_order_total };

    ghost matches_partial_cmp = { Prim.search (comparing, rules) };

    ghost matches_eq = { Prim.search (comparing, rules) };

    fn cmp(&self, other: &Key) -> Ordering {
        let kind = self.kind.number().cmp(&other.kind.number());
        if kind.is_ne() {
            return kind;
        }
        let aspect = self.aspect.number().cmp(&other.aspect.number());
        if aspect.is_ne() {
            return aspect;
        }
        let context = self.context.cmp(&other.context);
        if context.is_ne() {
            return context;
        }
        self.name.cmp(&other.name)
    }
}

impl PartialOrd for Key {
    ghost partial_cmp = { as_partial_cmp key_order };

    ghost laws = { partial_order_from_total key_order_total };

    fn partial_cmp(&self, other: &Key) -> Option<Ordering> {
        Some(self.cmp(other))
    }
}

impl Hash for Key {
    ghost hash_input = { key_writes };

    ghost respects_eq = { same_writes };

    fn hash<H: Hasher>(&self, state: &mut H) {
        self.kind.number().hash(state);
        self.aspect.number().hash(state);
        self.context.hash(state);
        self.name.hash(state);
    }
}
