//! The structs that a file keeps to itself.

ghost use Rattle.std.specs.Prelude.{◌≡◌, ◌++◌, ℕ, List, IfOk, OnOk};
ghost use Rattle.std.specs.BTreeSet as sets;
ghost use Rattle.std.specs.Ordering.{nat_cmp};
ghost use Rattle.std.specs.Cmp.Lexicographic.{slice_cmp};
ghost use Rattle.decl_index.specs.Declarations.{struct_name, private_struct, private_structs, is_among};

use crate::keys::is_private;
use dep_key::{Name, NoMemory};
use std::alloc::Global;
use std::collections::BTreeSet;
use swift_ast::{Decl, NamedDecl};

/// Adds the name of a declaration, where it is a struct.
fn add_struct(alloc: Global, names: &mut Vec<Name>, tree: &NamedDecl) -> Result<(), NoMemory>
    ensures { OnOk result (names.new.items ≡ names.old.items ++ struct_name tree.now) }
{
    match tree {
        NamedDecl::Struct(tree) => {
            let name = Name::from_str(alloc, tree.name.text.as_str())?;
            names.push(name)?;
            Ok(())
        }
        NamedDecl::Global(_) => Ok(()),
        NamedDecl::Func(_) => Ok(()),
        NamedDecl::Alias(_) => Ok(()),
    }
}

/// Adds the name of a declaration, where it is a struct that its file alone sees.
fn add_private(alloc: Global, names: &mut Vec<Name>, decl: &Decl) -> Result<(), NoMemory>
    ensures { OnOk result (names.new.items ≡ names.old.items ++ private_struct decl.now) }
{
    match decl {
        Decl::Named(access, tree) => {
            if is_private(access) {
                add_struct(alloc, names, tree)?;
            }
            Ok(())
        }
        Decl::Extension(_) => Ok(()),
    }
}

fn private_names(alloc: Global, decls: &[Decl]) -> Result<Vec<Name>, NoMemory>
    ensures { IfOk result (λ names. names.items ≡ private_structs decls.now) }
{
    let mut names = Vec::new(alloc);
    for decl in decls {
        add_private(alloc, &mut names, decl)?;
    }
    Ok(names)
}

/// The set of some names.
fn set_of(alloc: Global, names: &[Name]) -> Result<BTreeSet<Name>, NoMemory>
    ensures { IfOk result (λ set. (name : List ℕ) → sets.contains (slice_cmp nat_cmp) set name ≡ is_among names.now name) }
{
    let mut set = BTreeSet::new(alloc);
    for name in names {
        set.insert(name.clone()?)?;
    }
    Ok(set)
}

/// The names of the structs that a file keeps to itself.
pub fn private_structs(alloc: Global, decls: &[Decl]) -> Result<BTreeSet<Name>, NoMemory>
    ensures { IfOk result (λ set. (name : List ℕ) → sets.contains (slice_cmp nat_cmp) set name ≡ is_among (private_structs decls.now) name) }
{
    let names = private_names(alloc, decls)?;
    let set = set_of(alloc, names.as_slice())?;
    Ok(set)
}
