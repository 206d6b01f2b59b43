ghost use Rattle.std.specs.Prelude.{◌≡◌, ◌≤◌, ◌+◌, [], ◌∷◌, ◌++◌, OnOk};
ghost use Rattle.grammar.specs.Forms.{both, in_row};
ghost use Rattle.swift_ast.specs.declared.terminals.Terminal.TheVariants as T;
ghost use Rattle.swift_ast.specs.Expressions.{word, expr_form};
ghost use Rattle.swift_ast.specs.Statements.{specifier_form, annotation_rule, binding_rule, target_form, assign_rule, return_rule, while_rule, last_else_rule, block_form, stmt_form, if_form, else_if_form};
ghost use Rattle.swift_ast.specs.Flattening.{Spells, Lightens};

use crate::flattening::part::Part;
use crate::flattening::work::{Work, split};
use crate::{BindingSpecifier, Block, ElseIf, Expr, If, Leaf, Stmt, Target, TypeName};
use std::alloc::AllocError;

pub fn specifier(specifier: &BindingSpecifier) -> &Leaf
    ensures { specifier_form.tokens specifier.now ≡ result.now ∷ [] }
{
    match specifier {
        BindingSpecifier::Let(t) => t,
        BindingSpecifier::Var(t) => t,
    }
}

impl<'a> Work<'a> {
    pub fn block(&mut self, tree: &'a Block) -> Result<(), AllocError>
        ensures spells { OnOk result (Spells (block_form.tokens tree.now) self.old self.new) }
        ensures lightens { OnOk result (Lightens 14 self.old self.new) }
    {
        self.emit(&tree.opening)?;
        self.put(Part::One(&tree.closing))?;
        self.put(Part::StmtRest(tree.stmts.as_slice()))?;
        Ok(())
    }

    pub fn stmt(&mut self, tree: &'a Stmt) -> Result<(), AllocError>
        ensures spells { OnOk result (Spells (stmt_form.tokens tree.now) self.old self.new) }
        ensures lightens { OnOk result (Lightens 1 self.old self.new) }
    {
        match tree {
            Stmt::Local(specifier, name, annotation, assign, value) => {
                self.binding(specifier, name, annotation, assign, value)?
            }
            Stmt::Assign(target, assign, value) => self.assign(target, assign, value)?,
            Stmt::Return(keyword, value) => self.return_value(keyword, value)?,
            Stmt::If(tree) => self.if_stmt(tree)?,
            Stmt::While(keyword, condition, block) => self.while_stmt(keyword, condition, block)?,
            Stmt::Call(call) => self.postfix(&call.postfix)?,
        }
        Ok(())
    }

    /// The tokens of a name with an initial value.
    pub fn binding(
        &mut self,
        kind: &'a BindingSpecifier,
        name: &'a Leaf,
        annotation: &'a Option<(Leaf, TypeName)>,
        assign: &'a Leaf,
        value: &'a Expr,
    ) -> Result<(), AllocError>
        ensures spells { OnOk result (Spells (binding_rule.tokens (kind.now, (name.now, (annotation.now, (assign.now, value.now))))) self.old self.new) }
        ensures lightens { OnOk result (Lightens 14 self.old self.new) }
    {
        self.emit(specifier(kind))?;
        self.emit(name)?;
        self.put(Part::Expr(value))?;
        self.put(Part::One(assign))?;
        self.annotation(annotation)?;
        Ok(())
    }

    fn annotation(&mut self, annotation: &'a Option<(Leaf, TypeName)>) -> Result<(), AllocError>
        ensures spells { OnOk result (Spells (annotation_rule.tokens annotation.now) self.old self.new) }
        ensures lightens { OnOk result (Lightens 0 self.old self.new) }
    {
        if let Some((colon, type_name)) = annotation {
            self.emit(colon)?;
            self.emit(&type_name.name)?;
        }
        Ok(())
    }

    fn assign(
        &mut self,
        target: &'a Target,
        assign: &'a Leaf,
        value: &'a Expr,
    ) -> Result<(), AllocError>
        ensures spells { OnOk result (Spells (assign_rule.tokens (target.now, (assign.now, value.now))) self.old self.new) }
        ensures lightens { OnOk result (Lightens 1 self.old self.new) }
    {
        self.put(Part::Expr(value))?;
        self.put(Part::One(assign))?;
        self.target(target)?;
        Ok(())
    }

    fn target(&mut self, tree: &'a Target) -> Result<(), AllocError>
        ensures spells { OnOk result (Spells (target_form.tokens tree.now) self.old self.new) }
        ensures lightens { OnOk result (Lightens 15 self.old self.new) }
    {
        self.emit(&tree.root)?;
        self.put(Part::MemberRest(tree.members.as_slice()))?;
        Ok(())
    }

    fn return_value(&mut self, keyword: &'a Leaf, value: &'a Option<Expr>) -> Result<(), AllocError>
        ensures spells { OnOk result (Spells (return_rule.tokens (keyword.now, value.now)) self.old self.new) }
        ensures lightens { OnOk result (Lightens 1 self.old self.new) }
    {
        self.emit(keyword)?;
        if let Some(value) = value {
            self.put(Part::Expr(value))?;
        }
        Ok(())
    }

    fn while_stmt(
        &mut self,
        keyword: &'a Leaf,
        condition: &'a Expr,
        block: &'a Block,
    ) -> Result<(), AllocError>
        ensures spells { OnOk result (Spells ((while_rule block_form).tokens (keyword.now, (condition.now, block.now))) self.old self.new) }
        ensures lightens { OnOk result (Lightens 1 self.old self.new) }
    {
        self.emit(keyword)?;
        self.put(Part::Block(block))?;
        self.put(Part::Expr(condition))?;
        Ok(())
    }

    fn if_stmt(&mut self, tree: &'a If) -> Result<(), AllocError>
        ensures spells { OnOk result (Spells (if_form.tokens tree.now) self.old self.new) }
        ensures lightens { OnOk result (Lightens 1 self.old self.new) }
    {
        self.emit(&tree.keyword)?;
        self.put_else(&tree.last)?;
        self.put(Part::ElseIfRest(tree.else_ifs.as_slice()))?;
        self.put(Part::Block(&tree.block))?;
        self.put(Part::Expr(&tree.condition))?;
        Ok(())
    }

    fn put_else(&mut self, last: &'a Option<(Leaf, Block)>) -> Result<(), AllocError>
        ensures done { OnOk result (self.new.done ≡ self.old.done) }
        ensures waiting { OnOk result (self.new.waiting ≡ (last_else_rule block_form).tokens last.now ++ self.old.waiting) }
        ensures load { OnOk result (self.new.load ≤ self.old.load + 2) }
    {
        if let Some((keyword, block)) = last {
            self.put(Part::Block(block))?;
            self.put(Part::One(keyword))?;
        }
        Ok(())
    }

    pub fn stmt_rest(&mut self, rest: &'a [Stmt]) -> Result<(), AllocError>
        ensures spells { OnOk result (Spells (in_row stmt_form rest.now) self.old self.new) }
        ensures lightens { OnOk result (Lightens 0 self.old self.new) }
    {
        let Some((first, more)) = split(rest) else {
            return Ok(());
        };
        self.put(Part::StmtRest(more))?;
        self.stmt(first)?;
        Ok(())
    }

    pub fn else_if_rest(&mut self, rest: &'a [ElseIf]) -> Result<(), AllocError>
        ensures spells { OnOk result (Spells (in_row else_if_form rest.now) self.old self.new) }
        ensures lightens { OnOk result (Lightens 0 self.old self.new) }
    {
        let Some((first, more)) = split(rest) else {
            return Ok(());
        };
        self.put(Part::ElseIfRest(more))?;
        self.else_if(first)?;
        Ok(())
    }

    fn else_if(&mut self, tree: &'a ElseIf) -> Result<(), AllocError>
        ensures spells { OnOk result (Spells (else_if_form.tokens tree.now) self.old self.new) }
        ensures lightens { OnOk result (Lightens 1 self.old self.new) }
    {
        self.emit(&tree.else_keyword)?;
        self.emit(&tree.if_keyword)?;
        self.put(Part::Block(&tree.block))?;
        self.put(Part::Expr(&tree.condition))?;
        Ok(())
    }

    pub fn member_rest(&mut self, rest: &'a [(Leaf, Leaf)]) -> Result<(), AllocError>
        ensures spells { OnOk result (Spells (in_row (both (word T.Dot) (word T.Identifier)) rest.now) self.old self.new) }
        ensures lightens { OnOk result (Lightens 0 self.old self.new) }
    {
        let Some((first, more)) = split(rest) else {
            return Ok(());
        };
        self.emit(&first.0)?;
        self.emit(&first.1)?;
        self.put(Part::MemberRest(more))?;
        Ok(())
    }
}
