ghost use Rattle.std.specs.Prelude.{◌≡◌, [], ◌∷◌, OnOk};
ghost use Rattle.grammar.specs.Forms.{both, in_row, perhaps_tokens};
ghost use Rattle.swift_ast.specs.declared.terminals.Terminal.TheVariants as T;
ghost use Rattle.swift_ast.specs.Expressions.{word, cmp_operator_form, sum_operator_form, product_operator_form, expr_form, and_form, cmp_form, sum_form, product_form, prefix_form, postfix_form, part_form, args_form, arg_form, arg_list_rule, atom_form};
ghost use Rattle.swift_ast.specs.Flattening.{Spells, Lightens};

use crate::flattening::part::Part;
use crate::flattening::work::{Work, split};
use crate::{
    And, Arg, Args, Atom, Cmp, CmpOperator, Expr, Leaf, Postfix, PostfixPart, Prefix, Product,
    ProductOperator, Sum, SumOperator,
};
use sqlite_items::Items;
use std::alloc::AllocError;

fn cmp_operator(operator: &CmpOperator) -> &Leaf
    ensures { cmp_operator_form.tokens operator.now ≡ result.now ∷ [] }
{
    match operator {
        CmpOperator::Equal(t) => t,
        CmpOperator::NotEqual(t) => t,
        CmpOperator::Less(t) => t,
        CmpOperator::LessOrEqual(t) => t,
        CmpOperator::Greater(t) => t,
        CmpOperator::GreaterOrEqual(t) => t,
    }
}

fn sum_operator(operator: &SumOperator) -> &Leaf
    ensures { sum_operator_form.tokens operator.now ≡ result.now ∷ [] }
{
    match operator {
        SumOperator::Plus(t) => t,
        SumOperator::Minus(t) => t,
    }
}

fn product_operator(operator: &ProductOperator) -> &Leaf
    ensures { product_operator_form.tokens operator.now ≡ result.now ∷ [] }
{
    match operator {
        ProductOperator::Times(t) => t,
        ProductOperator::Divide(t) => t,
        ProductOperator::Remainder(t) => t,
    }
}

impl<'a> Work<'a> {
    pub fn expr(&mut self, tree: &'a Expr) -> Result<(), AllocError>
        ensures spells { OnOk result (Spells (expr_form.tokens tree.now) self.old self.new) }
        ensures lightens { OnOk result (Lightens 7 self.old self.new) }
    {
        self.put(Part::OrRest(tree.more.as_slice()))?;
        self.and(&tree.first)?;
        Ok(())
    }

    pub fn and(&mut self, tree: &'a And) -> Result<(), AllocError>
        ensures spells { OnOk result (Spells (and_form.tokens tree.now) self.old self.new) }
        ensures lightens { OnOk result (Lightens 8 self.old self.new) }
    {
        self.put(Part::AndRest(tree.more.as_slice()))?;
        self.cmp(&tree.first)?;
        Ok(())
    }

    pub fn cmp(&mut self, tree: &'a Cmp) -> Result<(), AllocError>
        ensures spells { OnOk result (Spells (cmp_form.tokens tree.now) self.old self.new) }
        ensures lightens { OnOk result (Lightens 9 self.old self.new) }
    {
        if let Some(right) = &tree.right {
            let (operator, right) = right.get();
            self.put(Part::Sum(right))?;
            self.put(Part::One(cmp_operator(operator)))?;
            self.sum(&tree.left)?;
            return Ok(());
        }
        self.sum(&tree.left)?;
        Ok(())
    }

    pub fn sum(&mut self, tree: &'a Sum) -> Result<(), AllocError>
        ensures spells { OnOk result (Spells (sum_form.tokens tree.now) self.old self.new) }
        ensures lightens { OnOk result (Lightens 11 self.old self.new) }
    {
        self.put(Part::SumRest(tree.more.as_slice()))?;
        self.product(&tree.first)?;
        Ok(())
    }

    pub fn product(&mut self, tree: &'a Product) -> Result<(), AllocError>
        ensures spells { OnOk result (Spells (product_form.tokens tree.now) self.old self.new) }
        ensures lightens { OnOk result (Lightens 12 self.old self.new) }
    {
        self.put(Part::ProductRest(tree.more.as_slice()))?;
        self.prefix(&tree.first)?;
        Ok(())
    }

    pub fn prefix(&mut self, tree: &'a Prefix) -> Result<(), AllocError>
        ensures spells { OnOk result (Spells (prefix_form.tokens tree.now) self.old self.new) }
        ensures lightens { OnOk result (Lightens 13 self.old self.new) }
    {
        if let Some(operator) = &tree.operator {
            self.emit(operator.get())?;
            self.postfix(&tree.postfix)?;
            return Ok(());
        }
        self.postfix(&tree.postfix)?;
        Ok(())
    }

    pub fn postfix(&mut self, tree: &'a Postfix) -> Result<(), AllocError>
        ensures spells { OnOk result (Spells (postfix_form.tokens tree.now) self.old self.new) }
        ensures lightens { OnOk result (Lightens 13 self.old self.new) }
    {
        self.put(Part::PartRest(tree.parts.as_slice()))?;
        self.atom(&tree.atom)?;
        Ok(())
    }

    pub fn atom(&mut self, tree: &'a Atom) -> Result<(), AllocError>
        ensures spells { OnOk result (Spells (atom_form.tokens tree.now) self.old self.new) }
        ensures lightens { OnOk result (Lightens 14 self.old self.new) }
    {
        match tree {
            Atom::Integer(t) => self.emit(t)?,
            Atom::StringText(t) => self.emit(t)?,
            Atom::True(t) => self.emit(t)?,
            Atom::False(t) => self.emit(t)?,
            Atom::Name(t) => self.emit(t)?,
            Atom::SelfValue(t) => self.emit(t)?,
            Atom::Parentheses(parts) => {
                let (opening, inner, closing) = parts.get();
                self.emit(opening)?;
                self.put(Part::One(closing))?;
                self.put(Part::Expr(inner))?;
            }
        }
        Ok(())
    }

    pub fn part(&mut self, tree: &'a PostfixPart) -> Result<(), AllocError>
        ensures spells { OnOk result (Spells (part_form.tokens tree.now) self.old self.new) }
        ensures lightens { OnOk result (Lightens 4 self.old self.new) }
    {
        match tree {
            PostfixPart::Member(dot, name) => {
                self.emit(dot)?;
                self.emit(name)?;
            }
            PostfixPart::Call(args) => self.args(args.get())?,
        }
        Ok(())
    }

    pub fn args(&mut self, tree: &'a Args) -> Result<(), AllocError>
        ensures spells { OnOk result (Spells (args_form.tokens tree.now) self.old self.new) }
        ensures lightens { OnOk result (Lightens 13 self.old self.new) }
    {
        self.emit(&tree.opening)?;
        self.put(Part::One(&tree.closing))?;
        self.arg_list(&tree.list)?;
        Ok(())
    }

    fn arg_list(&mut self, list: &'a Option<(Arg, Items<(Leaf, Arg)>)>) -> Result<(), AllocError>
        ensures spells { OnOk result (Spells (perhaps_tokens (arg_list_rule arg_form) list.now) self.old self.new) }
        ensures lightens { OnOk result (Lightens 0 self.old self.new) }
    {
        if let Some((first, more)) = list {
            self.put(Part::ArgRest(more.as_slice()))?;
            self.arg(first)?;
        }
        Ok(())
    }

    pub fn arg(&mut self, tree: &'a Arg) -> Result<(), AllocError>
        ensures spells { OnOk result (Spells (arg_form.tokens tree.now) self.old self.new) }
        ensures lightens { OnOk result (Lightens 7 self.old self.new) }
    {
        if let Some((name, colon)) = &tree.label {
            self.emit(name)?;
            self.emit(colon)?;
            self.expr(&tree.value)?;
            return Ok(());
        }
        self.expr(&tree.value)?;
        Ok(())
    }

    pub fn or_rest(&mut self, rest: &'a [(Leaf, And)]) -> Result<(), AllocError>
        ensures spells { OnOk result (Spells (in_row (both (word T.Or) and_form) rest.now) self.old self.new) }
        ensures lightens { OnOk result (Lightens 0 self.old self.new) }
    {
        let Some((first, more)) = split(rest) else {
            return Ok(());
        };
        self.emit(&first.0)?;
        self.put(Part::OrRest(more))?;
        self.and(&first.1)?;
        Ok(())
    }

    pub fn and_rest(&mut self, rest: &'a [(Leaf, Cmp)]) -> Result<(), AllocError>
        ensures spells { OnOk result (Spells (in_row (both (word T.And) cmp_form) rest.now) self.old self.new) }
        ensures lightens { OnOk result (Lightens 0 self.old self.new) }
    {
        let Some((first, more)) = split(rest) else {
            return Ok(());
        };
        self.emit(&first.0)?;
        self.put(Part::AndRest(more))?;
        self.cmp(&first.1)?;
        Ok(())
    }

    pub fn sum_rest(&mut self, rest: &'a [(SumOperator, Product)]) -> Result<(), AllocError>
        ensures spells { OnOk result (Spells (in_row (both sum_operator_form product_form) rest.now) self.old self.new) }
        ensures lightens { OnOk result (Lightens 0 self.old self.new) }
    {
        let Some((first, more)) = split(rest) else {
            return Ok(());
        };
        self.emit(sum_operator(&first.0))?;
        self.put(Part::SumRest(more))?;
        self.product(&first.1)?;
        Ok(())
    }

    pub fn product_rest(&mut self, rest: &'a [(ProductOperator, Prefix)]) -> Result<(), AllocError>
        ensures spells { OnOk result (Spells (in_row (both product_operator_form prefix_form) rest.now) self.old self.new) }
        ensures lightens { OnOk result (Lightens 0 self.old self.new) }
    {
        let Some((first, more)) = split(rest) else {
            return Ok(());
        };
        self.emit(product_operator(&first.0))?;
        self.put(Part::ProductRest(more))?;
        self.prefix(&first.1)?;
        Ok(())
    }

    pub fn part_rest(&mut self, rest: &'a [PostfixPart]) -> Result<(), AllocError>
        ensures spells { OnOk result (Spells (in_row part_form rest.now) self.old self.new) }
        ensures lightens { OnOk result (Lightens 0 self.old self.new) }
    {
        let Some((first, more)) = split(rest) else {
            return Ok(());
        };
        self.put(Part::PartRest(more))?;
        self.part(first)?;
        Ok(())
    }

    pub fn arg_rest(&mut self, rest: &'a [(Leaf, Arg)]) -> Result<(), AllocError>
        ensures spells { OnOk result (Spells (in_row (both (word T.Comma) arg_form) rest.now) self.old self.new) }
        ensures lightens { OnOk result (Lightens 0 self.old self.new) }
    {
        let Some((first, more)) = split(rest) else {
            return Ok(());
        };
        self.emit(&first.0)?;
        self.put(Part::ArgRest(more))?;
        self.arg(&first.1)?;
        Ok(())
    }
}
