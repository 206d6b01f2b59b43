//! Keys join those that have changed.

ghost use Rattle.std.specs.Prelude.{IfOk};
ghost use Rattle.wave_core.specs.Cores.{HaveJoined};

use dep_key::{Key, NoMemory};
use std::alloc::Global;
use std::collections::BTreeSet;

/// Adds keys to those that have changed, and gives the ones that hadn't.
pub fn join(
    alloc: Global,
    changed: &mut BTreeSet<Key>,
    keys: &[Key],
) -> Result<BTreeSet<Key>, NoMemory>
    ensures { IfOk result (λ first. HaveJoined changed.old.keys changed.new.keys keys.now first.keys) }
{
    let mut first = BTreeSet::new(alloc);
    for key in keys {
        let copy = key.clone()?;
        if changed.insert(copy)? {
            let copy = key.clone()?;
            first.insert(copy)?;
        }
    }
    Ok(first)
}
