//! The prints of a node.

ghost use Rattle.std.specs.Prelude.{◌≡◌, ◌∷◌, ◌++◌, [], ℕ, List, false, true, IfOk, OnOk};
ghost use Rattle.decl_index.specs.Found.{shown_declaration};
ghost use Rattle.iface_print.specs.Prints.{print_of};
ghost use Rattle.file_nodes.specs.Own.{own_at, from_own, from_all_own, behind_line, joined};

use crate::own::own_declaration;
use decl_index::{DeclRef, Declared, Index};
use dep_key::{FileNo, Key, NoMemory, Text};
use iface_print::put_print;
use std::alloc::Global;
use type_rules::Meaning;

/// Puts a line feed, where something stands before.
fn end_line(out: &mut Vec<u8>, started: bool) -> Result<(), NoMemory>
    ensures { OnOk result ((text : List ℕ) → out.new.items ++ text ≡ out.old.items ++ behind_line started text) }
{
    if started {
        out.push(b'\n')?;
    }
    Ok(())
}

/// Puts the print of a declaration on a line of its own.
fn put_line(
    alloc: Global,
    out: &mut Vec<u8>,
    started: bool,
    key: &Key,
    meaning: &Meaning,
    declared: Declared<'_>,
) -> Result<(), NoMemory>
    ensures { OnOk result ((more : List (List ℕ)) → out.new.items ++ joined true more ≡ out.old.items ++ joined started (print_of key.now meaning.now (shown_declaration declared.entry) ∷ more)) }
{
    end_line(out, started)?;
    put_print(alloc, out, key, meaning, declared)?;
    Ok(())
}

/// Puts the print of the declaration of a reference, where it is one of the file of a number. Tells whether anything stands
/// there now.
fn put_own(
    alloc: Global,
    out: &mut Vec<u8>,
    started: bool,
    key: &Key,
    meaning: &Meaning,
    index: &Index,
    number: FileNo,
    at: DeclRef,
) -> Result<bool, NoMemory>
    ensures { IfOk result (λ now. (more : List (List ℕ)) → out.new.items ++ joined now more ≡ out.old.items ++ joined started (from_own (λ d. print_of key.now meaning.now d ∷ []) (own_at index.now number at) ++ more)) }
{
    match own_declaration(index, number, at) {
        None => Ok(started),
        Some(declared) => {
            put_line(alloc, out, started, key, meaning, declared)?;
            Ok(true)
        }
    }
}

/// The prints of the declarations of a file that have a key, with a line feed between them.
pub fn node_print(
    alloc: Global,
    key: &Key,
    meaning: &Meaning,
    index: &Index,
    number: FileNo,
    references: &[DeclRef],
) -> Result<Text, NoMemory>
    ensures { IfOk result (λ print. print ≡ joined false (from_all_own (λ d. print_of key.now meaning.now d ∷ []) index.now number references.now)) }
{
    let mut out = Vec::new(alloc);
    let mut started = false;
    for at in references {
        started = put_own(alloc, &mut out, started, key, meaning, index, number, *at)?;
    }
    Ok(Text::from_vec(out))
}
