//! Sets of names and of paths.

ghost use Rattle.std.specs.Prelude.{◌≡◌, ℕ, List, IfOk};
ghost use Rattle.std.specs.BTreeSet.{contains};
ghost use Rattle.std.specs.List.{list_all};
ghost use Rattle.dep_graph.specs.Arcs.{path_order};
ghost use Rattle.ordered_lists.specs.Among.{is_among};
ghost use Rattle.wave_plan.specs.Plans.{have_same_names, listed_paths};

use dep_key::{Name, NoMemory, Path};
use drv_outside::Entry;
use std::alloc::Global;
use std::collections::BTreeSet;

fn copy_of(alloc: Global, name: &Name) -> Result<Name, NoMemory>
    ensures { IfOk result (λ copy. copy ≡ name.now) }
{
    let copy = Name::from_str(alloc, name.as_str())?;
    Ok(copy)
}

/// A copy of a path.
pub fn copy_of_path(alloc: Global, path: &Path) -> Result<Path, NoMemory>
    ensures { IfOk result (λ copy. copy ≡ path.now) }
{
    let copy = Path::from_str(alloc, path.as_str())?;
    Ok(copy)
}

/// The set of these names.
pub fn name_set(alloc: Global, names: &[Name]) -> Result<BTreeSet<Name>, NoMemory>
    ensures { IfOk result (λ set. (name : List ℕ) → contains path_order set name ≡ is_among names.now name) }
{
    let mut set = BTreeSet::new(alloc);
    for name in names {
        set.insert(copy_of(alloc, name)?)?;
    }
    Ok(set)
}

/// The set of the paths of these sources.
pub fn path_set(alloc: Global, listed: &[Entry]) -> Result<BTreeSet<Path>, NoMemory>
    ensures { IfOk result (λ set. (path : List ℕ) → contains path_order set path ≡ is_among (listed_paths listed.now) path) }
{
    let mut set = BTreeSet::new(alloc);
    for entry in listed {
        set.insert(copy_of_path(alloc, &entry.path)?)?;
    }
    Ok(set)
}

// Whether each of the names is in a set.
fn are_in(names: &[Name], set: &BTreeSet<Name>) -> bool
    ensures { result ≡ list_all (contains path_order set.now) names.now }
{
    for name in names {
        if !set.contains(name) {
            return false;
        }
    }
    true
}

/// Whether two lists have the same names.
pub fn have_same_names(alloc: Global, names: &[Name], others: &[Name]) -> Result<bool, NoMemory>
    ensures { IfOk result (λ same. same ≡ have_same_names names.now others.now) }
{
    let named = name_set(alloc, names)?;
    let wanted = name_set(alloc, others)?;
    Ok(are_in(names, &wanted) && are_in(others, &named))
}
