//! What the keys of a module mean.
//!
//! Each key means what the one declaration that has it is read to mean (`docs/LANGUAGE.md`). What is read is a query: a
//! task that fetches keys, so that what a reading asks comes with what it gives. The meanings of a module are the least
//! answers to all of its declarations; a key that has none is circular. `specs/Readings.antt` says how a declaration is
//! read, `specs/Meanings.antt` what the keys of a module mean, `specs/Laws.antt` what holds of them.
#![tactic(auto)]

ghost use Rattle.type_infer.specs.Demand.{AllKnownEnds, AskedIsNeeded};
ghost use Rattle.type_infer.specs.Laws.{DeclarationsMean, KeysListRules, MeaningsArePlain, ReferencesAreDeclarations, SolutionIsMeaning, WrittenNamesArePlain};
ghost use Rattle.type_infer.specs.Sound.{ExpressionsAskKeys, ReadingsAskKeys};

pub use decl_index::Declared;
pub use expr_check::{Line, Typed};
pub use swift_ast::FileTree;
pub use type_rules::Meaning;

/// What has a key is what the index has of it. The meanings of a module are the one solution of its readings, none of
/// which ends with `Circular`, and each is of the kind of its declaration.
pub fn meaning_laws()
    ensures index { ReferencesAreDeclarations }
    ensures listing { KeysListRules }
    ensures solution { SolutionIsMeaning }
    ensures kinds { DeclarationsMean }
{}

/// Readings ask the keys that look-ups ask, and in a module that is written with names all meanings have plain ones.
pub fn reading_laws()
    ensures expressions { ExpressionsAskKeys }
    ensures readings { ReadingsAskKeys }
    ensures written { WrittenNamesArePlain }
    ensures plain { MeaningsArePlain }
{}

/// What reading a declaration asks, where keys without an answer mean `Circular`, it needs; where all of it is known, the
/// reading ends with that value.
pub fn demand_laws()
    ensures needed { AskedIsNeeded }
    ensures ends { AllKnownEnds }
{}
