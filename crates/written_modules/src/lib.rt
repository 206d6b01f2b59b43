//! What the parser gives is a written module.
//!
//! The laws of the meanings of a module are about modules that are written with names and words (`type_infer`). Each
//! module that is read from texts at plain paths is one, since the grammar has identifiers where something is named, and
//! identifiers or `_` as labels. `specs/Written.antt` says it.
#![tactic(auto)]

ghost use Rattle.written_modules.specs.Written.{ParsedTreesAreWritten, WrittenTreesAreModules};

pub use swift_ast::FileTree;

/// What the parser gives is a written module: the premise of the laws of the language.
pub fn parsed_is_written()
    ensures tree { ParsedTreesAreWritten }
    ensures module { WrittenTreesAreModules }
{}
