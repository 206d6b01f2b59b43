//! Tokens and trees of the Swift subset that the driver compiles.
//!
//! There is one tree type for each rule of the grammar (`docs/LANGUAGE.md`). A tree keeps each of
//! its tokens as a [`Leaf`], so that it borrows nothing and its tokens can be given back.
#![tactic(auto)]

mod declarations;
mod expressions;
mod flattening;
mod laws;
mod no_memory;
mod statements;
mod terminals;
mod text;
mod threads;
mod tokens;

pub use declarations::{
    Access, Alias, Computed, Decl, Extension, ExtensionMember, FileTree, Func, Global, NamedDecl,
    Param, Stored, StoredValue, Struct, StructMember,
};
pub use expressions::{
    And, Arg, Args, Atom, Cmp, CmpOperator, Expr, Postfix, PostfixPart, Prefix, Product,
    ProductOperator, Sum, SumOperator,
};
pub use flattening::flatten;
pub use laws::grammar_laws;
pub use no_memory::NoMemory;
pub use statements::{BindingSpecifier, Block, Call, ElseIf, If, Stmt, Target, TypeName};
pub use terminals::Terminal;
pub use text::Text;
pub use threads::file_tree_crosses_threads;
pub use tokens::{Leaf, Token, TokenKind};
