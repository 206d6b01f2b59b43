//! Why an unchanged file needn't be compiled again: none of whose uses has moved, it has the same errors, code and uses.
//!
//! This joins the coverage of meanings (`iface_print`) with the checks of files (`body_check`): whatever checking a file asks
//! is a use of the file. `specs/Laws.antt` has both laws.
#![tactic(auto)]

ghost use Rattle.file_coverage.specs.Laws.{AskedKeysAreUses, UnchangedFilesGiveTheSame};

pub use swift_ast::FileTree;

/// Whatever checking a file asks is a use of the file; and of two modules that differ in other files alone, none of which has
/// moved a key that the file uses, the file has the same errors, the same code and the same uses in both.
pub fn file_coverage_laws()
    ensures asked { AskedKeysAreUses }
    ensures same { UnchangedFilesGiveTheSame }
{}
