//! The declarations of one file among those of a module.

ghost use Rattle.std.specs.Prelude.{◌≡◌};
ghost use Rattle.std.specs.Option.{option_map};
ghost use Rattle.decl_index.specs.Found.{shown_declaration};
ghost use Rattle.file_nodes.specs.Own.{own_at};

use decl_index::{DeclRef, Declared, Index};
use dep_key::FileNo;

/// The declaration of a reference, where it is one of the file of a number.
pub fn own_declaration(index: &Index, number: FileNo, at: DeclRef) -> Option<Declared<'_>>
    ensures { option_map shown_declaration result ≡ own_at index.now number at }
{
    if at.file == number {
        index.declared(at)
    } else {
        None
    }
}
