//! Laws of keys. Each function's contract is the law; it does nothing when it runs.

ghost use Rattle.std.specs.Prelude.{◌≡◌};
ghost use Rattle.std.specs.Cmp.{IsTotalOrder};
ghost use Rattle.std.specs.declared.cmp.Ordering.TheVariants.{Equal};
ghost use Rattle.dep_key.specs.declared.key.Key.{Key};
ghost use Rattle.dep_key.specs.KeyOrder.{key_order};
ghost use Rattle.dep_key.specs.Moved.{TestTellsMoved};

/// The order of keys is total, and only equal keys have no order between them.
pub fn keys_are_ordered()
    ensures total { IsTotalOrder key_order }
    ensures apart { (a b : Key) → key_order a b ≡ Equal → a ≡ b }
{}

/// A key moved exactly where the test for it is true.
pub fn moved_keys_are_told()
    ensures told { TestTellsMoved }
{}
