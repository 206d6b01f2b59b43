ghost use Rattle.std.specs.Prelude.{◌≡◌, ◌++◌, map, IfOk, OnOk};
ghost use Rattle.swift_ast.specs.Leaves.{leaf_of};
ghost use Rattle.swift_ast.specs.Declarations.{file_form};
ghost use Rattle.swift_ast.specs.Flattening.{part_tokens, Spells, Lightens};

mod declarations;
mod expressions;
mod part;
mod statements;
mod work;

use crate::flattening::part::Part;
use crate::flattening::work::Work;
use crate::{FileTree, NoMemory, Token};
use std::alloc::{AllocError, Global};

/// The tokens of a file, in order, as slices of its tree. The depth of calls does not grow with the
/// tree.
///
/// # Errors
///
/// [`NoMemory`]: memory was wanted and not there.
pub fn flatten<'a>(alloc: Global, tree: &'a FileTree) -> Result<Vec<Token<'a>>, NoMemory>
    ensures { IfOk result (λ tokens. map leaf_of tokens.items ≡ file_form.tokens tree.now) }
{
    let mut work = Work::new(alloc);
    work.put(Part::DeclRest(tree.decls.as_slice()))?;
    let tokens = work.all()?;
    Ok(tokens)
}

impl<'a> Work<'a> {
    /// Gives the tokens of all parts.
    fn all(self) -> Result<Vec<Token<'a>>, AllocError>
        ensures { IfOk result (λ tokens. map leaf_of tokens.items ≡ self.entry.done ++ self.entry.waiting) }
    {
        let mut work = self;
        while let Some(part) = work.take() {
            work.step(part)?;
        }
        let Work { tokens, parts: _ } = work;
        Ok(tokens)
    }

    /// Gives the first tokens of a part, and has its others follow.
    fn step(&mut self, part: Part<'a>) -> Result<(), AllocError>
        ensures spells { OnOk result (Spells (part_tokens part.entry) self.old self.new) }
        ensures lightens { OnOk result (Lightens 0 self.old self.new) }
    {
        match part {
            Part::One(leaf) => self.emit(leaf)?,
            Part::Expr(tree) => self.expr(tree)?,
            Part::Sum(tree) => self.sum(tree)?,
            Part::OrRest(rest) => self.or_rest(rest)?,
            Part::AndRest(rest) => self.and_rest(rest)?,
            Part::SumRest(rest) => self.sum_rest(rest)?,
            Part::ProductRest(rest) => self.product_rest(rest)?,
            Part::PartRest(rest) => self.part_rest(rest)?,
            Part::ArgRest(rest) => self.arg_rest(rest)?,
            Part::Block(tree) => self.block(tree)?,
            Part::StmtRest(rest) => self.stmt_rest(rest)?,
            Part::ElseIfRest(rest) => self.else_if_rest(rest)?,
            Part::MemberRest(rest) => self.member_rest(rest)?,
            Part::DeclRest(rest) => self.decl_rest(rest)?,
            Part::ParamRest(rest) => self.param_rest(rest)?,
            Part::StructRest(rest) => self.struct_rest(rest)?,
            Part::ExtensionRest(rest) => self.extension_rest(rest)?,
        }
        Ok(())
    }
}
