//! Why the texts of an unchanged file needn't be made again: its object and its partial text are functions of its tree and of
//! the answers to keys that the file uses.
//!
//! What checking a file says is covered by `file_coverage`. Here code is laid out and lines are printed from what was checked:
//! emission asks no key that the check hasn't asked. `specs/Texts.antt` has all laws, `specs/CodeKeys.antt` what code asks.
#![tactic(auto)]

ghost use Rattle.object_coverage.specs.Texts.{EqualAnswersGiveEqualObjects, EqualAnswersGiveEqualPartials, LayoutsWereAsked, ObjectsAskUses, PartialsAskUses, UnchangedFilesHaveTheSameTexts};

pub use swift_ast::FileTree;

/// A file's object and partial text are the same where the keys that they ask mean the same, and these keys are uses of the
/// file: so a file that hasn't changed, and of whose uses none has moved, has the same texts. Code is laid out by keys that were
/// asked when the file was checked.
pub fn text_laws()
    ensures objects { EqualAnswersGiveEqualObjects }
    ensures partials { EqualAnswersGiveEqualPartials }
    ensures objects_asked { ObjectsAskUses }
    ensures partials_asked { PartialsAskUses }
    ensures layouts_asked { LayoutsWereAsked }
    ensures unchanged { UnchangedFilesHaveTheSameTexts }
{}
