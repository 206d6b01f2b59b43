ghost use Rattle.std.specs.Prelude.{◌≡◌, ◌≤◌, ◌<◌, ◌∷◌, List, true, false, length, IfOk};
ghost use Rattle.grammar.specs.Forms.{begins_by};
ghost use Rattle.grammar.specs.Faults.{Stops, Parsed};
ghost use Rattle.swift_ast.specs.Leaves.{Leaf};
ghost use Rattle.swift_ast.specs.declared.terminals.Terminal.TheVariants as T;
ghost use Rattle.swift_ast.specs.Tests.{on, is, is_prefix_operator, is_infix_operator, is_cmp_operator, is_sum_operator, is_product_operator, is_simple_atom, begins_part, opens_args};
ghost use Rattle.swift_ast.specs.Expressions.{cmp_operator_form, sum_operator_form, product_operator_form, expr_form, and_form, cmp_form, sum_form, product_form, prefix_form, postfix_form, part_form, args_form, arg_form, atom_form, arg_list_rule};
ghost use Rattle.token_cursor.specs.Reading.{Parses, ParsesIf, ParsesBehind, TakesIf, Shortens};
ghost use Rattle.swift_parser.specs.CanRead.{CanReadExpr};

use sqlite_items::{Boxed, Items};
use std::alloc::{AllocError, Global};
use swift_ast::{
    And, Arg, Args, Atom, Cmp, CmpOperator, Expr, Leaf, Postfix, PostfixPart, Prefix, Product,
    ProductOperator, Sum, SumOperator, Terminal,
};
use token_cursor::{Stop, TokenClass, TokenCursor};

fn cmp_operator(
    alloc: Global,
    tokens: &mut TokenCursor<'_>,
) -> Result<Option<CmpOperator>, AllocError>
    ensures takes { IfOk result (λ found. TakesIf (on is_cmp_operator) cmp_operator_form found tokens.old tokens.new) }
    ensures shrinks { length tokens.new ≤ length tokens.old }
    ensures shortens { IfOk result (λ found. Shortens found tokens.old tokens.new) }
{
    if let Some(t) = tokens.eat(alloc, TokenClass::Is(Terminal::Equal))? {
        return Ok(Some(CmpOperator::Equal(t)));
    }
    if let Some(t) = tokens.eat(alloc, TokenClass::Is(Terminal::NotEqual))? {
        return Ok(Some(CmpOperator::NotEqual(t)));
    }
    if let Some(t) = tokens.eat(alloc, TokenClass::Is(Terminal::Less))? {
        return Ok(Some(CmpOperator::Less(t)));
    }
    if let Some(t) = tokens.eat(alloc, TokenClass::Is(Terminal::LessOrEqual))? {
        return Ok(Some(CmpOperator::LessOrEqual(t)));
    }
    if let Some(t) = tokens.eat(alloc, TokenClass::Is(Terminal::Greater))? {
        return Ok(Some(CmpOperator::Greater(t)));
    }
    if let Some(t) = tokens.eat(alloc, TokenClass::Is(Terminal::GreaterOrEqual))? {
        return Ok(Some(CmpOperator::GreaterOrEqual(t)));
    }
    Ok(None)
}

fn sum_operator(
    alloc: Global,
    tokens: &mut TokenCursor<'_>,
) -> Result<Option<SumOperator>, AllocError>
    ensures takes { IfOk result (λ found. TakesIf (on is_sum_operator) sum_operator_form found tokens.old tokens.new) }
    ensures shrinks { length tokens.new ≤ length tokens.old }
    ensures shortens { IfOk result (λ found. Shortens found tokens.old tokens.new) }
{
    if let Some(t) = tokens.eat(alloc, TokenClass::Is(Terminal::Plus))? {
        return Ok(Some(SumOperator::Plus(t)));
    }
    if let Some(t) = tokens.eat(alloc, TokenClass::Is(Terminal::Minus))? {
        return Ok(Some(SumOperator::Minus(t)));
    }
    Ok(None)
}

fn product_operator(
    alloc: Global,
    tokens: &mut TokenCursor<'_>,
) -> Result<Option<ProductOperator>, AllocError>
    ensures takes { IfOk result (λ found. TakesIf (on is_product_operator) product_operator_form found tokens.old tokens.new) }
    ensures shrinks { length tokens.new ≤ length tokens.old }
    ensures shortens { IfOk result (λ found. Shortens found tokens.old tokens.new) }
{
    if let Some(t) = tokens.eat(alloc, TokenClass::Is(Terminal::Times))? {
        return Ok(Some(ProductOperator::Times(t)));
    }
    if let Some(t) = tokens.eat(alloc, TokenClass::Is(Terminal::Divide))? {
        return Ok(Some(ProductOperator::Divide(t)));
    }
    if let Some(t) = tokens.eat(alloc, TokenClass::Is(Terminal::Remainder))? {
        return Ok(Some(ProductOperator::Remainder(t)));
    }
    Ok(None)
}

/// An atom of one token, if one stands next.
fn simple_atom(alloc: Global, tokens: &mut TokenCursor<'_>) -> Result<Option<Atom>, AllocError>
    ensures takes { IfOk result (λ found. TakesIf (on is_simple_atom) atom_form found tokens.old tokens.new) }
    ensures shrinks { length tokens.new ≤ length tokens.old }
    ensures shortens { IfOk result (λ found. Shortens found tokens.old tokens.new) }
{
    if let Some(t) = tokens.eat(alloc, TokenClass::Is(Terminal::Identifier))? {
        return Ok(Some(Atom::Name(t)));
    }
    if let Some(t) = tokens.eat(alloc, TokenClass::Is(Terminal::Integer))? {
        return Ok(Some(Atom::Integer(t)));
    }
    if let Some(t) = tokens.eat(alloc, TokenClass::Is(Terminal::StringText))? {
        return Ok(Some(Atom::StringText(t)));
    }
    if let Some(t) = tokens.eat(alloc, TokenClass::Is(Terminal::True))? {
        return Ok(Some(Atom::True(t)));
    }
    if let Some(t) = tokens.eat(alloc, TokenClass::Is(Terminal::False))? {
        return Ok(Some(Atom::False(t)));
    }
    if let Some(t) = tokens.eat(alloc, TokenClass::Is(Terminal::SelfValue))? {
        return Ok(Some(Atom::SelfValue(t)));
    }
    Ok(None)
}

/// An atom of one token, where no bracket stands next.
#[inline(never)]
fn lone_atom(alloc: Global, tokens: &mut TokenCursor<'_>) -> Result<Atom, Stop>
    requires unopened { begins_by (on (is T.LeftParenthesis)) tokens.old ≡ false }
    ensures reads { Parses atom_form result tokens.old tokens.new }
    ensures shrinks { length tokens.new ≤ length tokens.old }
{
    match simple_atom(alloc, tokens)? {
        Some(atom) => Ok(atom),
        None => Err(Stop::Unexpected),
    }
}

/// An expression that is a prefix by itself.
fn lone_expr(alloc: Global, front: Prefix) -> Expr
    ensures taken { (old new : List Leaf) → Parsed prefix_form front (prefix_form.continues front) old new → Stops (on is_infix_operator) new → Parsed expr_form result (expr_form.continues result) old new }
{
    let product = Product {
        first: front,
        more: Items::new(alloc),
    };
    let sum = Sum {
        first: product,
        more: Items::new(alloc),
    };
    let cmp = Cmp {
        left: sum,
        right: None,
    };
    let and = And {
        first: cmp,
        more: Items::new(alloc),
    };
    Expr {
        first: and,
        more: Items::new(alloc),
    }
}

/// The rules of expressions, which take the reader of expressions in brackets as a parameter, so that
/// each is proved by itself.
#[derive(Clone, Copy)]
struct Grammar<F> {
    alloc: Global,

    /// No fewer than the tokens that are left.
    limit: usize,
    expr: F,
}

impl<F: Fn(Global, &mut TokenCursor<'_>, usize) -> Result<Expr, Stop>> Grammar<F> {
    /// An expression behind a bracket.
    fn inner(&self, tokens: &mut TokenCursor<'_>) -> Result<Expr, Stop>
        requires nests { CanReadExpr self.now.limit (F.pre self.now.expr) (F.post self.now.expr) }
        requires few { length tokens.old < self.now.limit }
        ensures reads { Parses expr_form result tokens.old tokens.new }
        ensures shrinks { length tokens.new ≤ length tokens.old }
    {
        (self.expr)(self.alloc, tokens, self.limit - 1)
    }

    fn level(&self, tokens: &mut TokenCursor<'_>) -> Result<Expr, Stop>
        requires nests { CanReadExpr self.now.limit (F.pre self.now.expr) (F.post self.now.expr) }
        requires few { length tokens.old ≤ self.now.limit }
        ensures reads { Parses expr_form result tokens.old tokens.new }
        ensures shrinks { length tokens.new ≤ length tokens.old }
    {
        let front = self.prefix(tokens)?;
        if tokens.sees(TokenClass::InfixOperator) {
            return self.expr_behind(tokens, front);
        }
        Ok(lone_expr(self.alloc, front))
    }

    /// An expression behind its first prefix.
    #[inline(never)]
    fn expr_behind(&self, tokens: &mut TokenCursor<'_>, front: Prefix) -> Result<Expr, Stop>
        requires nests { CanReadExpr self.now.limit (F.pre self.now.expr) (F.post self.now.expr) }
        requires few { length tokens.old ≤ self.now.limit }
        ensures reads { ParsesBehind prefix_form front expr_form result tokens.old tokens.new }
        ensures shrinks { length tokens.new ≤ length tokens.old }
    {
        let first = self.and_behind(tokens, front)?;
        let mut more = Items::new(self.alloc);
        while let Some(operator) = tokens.eat(self.alloc, TokenClass::Is(Terminal::Or))? {
            let operand = self.and(tokens)?;
            more.push((operator, operand))?;
        }
        Ok(Expr { first, more })
    }

    fn and(&self, tokens: &mut TokenCursor<'_>) -> Result<And, Stop>
        requires nests { CanReadExpr self.now.limit (F.pre self.now.expr) (F.post self.now.expr) }
        requires few { length tokens.old ≤ self.now.limit }
        ensures reads { Parses and_form result tokens.old tokens.new }
        ensures shrinks { length tokens.new ≤ length tokens.old }
    {
        let front = self.prefix(tokens)?;
        self.and_behind(tokens, front)
    }

    /// The same behind its first prefix.
    fn and_behind(&self, tokens: &mut TokenCursor<'_>, front: Prefix) -> Result<And, Stop>
        requires nests { CanReadExpr self.now.limit (F.pre self.now.expr) (F.post self.now.expr) }
        requires few { length tokens.old ≤ self.now.limit }
        ensures reads { ParsesBehind prefix_form front and_form result tokens.old tokens.new }
        ensures shrinks { length tokens.new ≤ length tokens.old }
    {
        let first = self.cmp_behind(tokens, front)?;
        let mut more = Items::new(self.alloc);
        while let Some(operator) = tokens.eat(self.alloc, TokenClass::Is(Terminal::And))? {
            let operand = self.cmp(tokens)?;
            more.push((operator, operand))?;
        }
        Ok(And { first, more })
    }

    fn cmp(&self, tokens: &mut TokenCursor<'_>) -> Result<Cmp, Stop>
        requires nests { CanReadExpr self.now.limit (F.pre self.now.expr) (F.post self.now.expr) }
        requires few { length tokens.old ≤ self.now.limit }
        ensures reads { Parses cmp_form result tokens.old tokens.new }
        ensures shrinks { length tokens.new ≤ length tokens.old }
    {
        let front = self.prefix(tokens)?;
        self.cmp_behind(tokens, front)
    }

    /// The same behind its first prefix.
    fn cmp_behind(&self, tokens: &mut TokenCursor<'_>, front: Prefix) -> Result<Cmp, Stop>
        requires nests { CanReadExpr self.now.limit (F.pre self.now.expr) (F.post self.now.expr) }
        requires few { length tokens.old ≤ self.now.limit }
        ensures reads { ParsesBehind prefix_form front cmp_form result tokens.old tokens.new }
        ensures shrinks { length tokens.new ≤ length tokens.old }
    {
        let left = self.sum_behind(tokens, front)?;
        let Some(operator) = cmp_operator(self.alloc, tokens)? else {
            return Ok(Cmp { left, right: None });
        };
        let operand = self.sum(tokens)?;
        let right = Boxed::new(self.alloc, (operator, operand))?;
        Ok(Cmp {
            left,
            right: Some(right),
        })
    }

    fn sum(&self, tokens: &mut TokenCursor<'_>) -> Result<Sum, Stop>
        requires nests { CanReadExpr self.now.limit (F.pre self.now.expr) (F.post self.now.expr) }
        requires few { length tokens.old ≤ self.now.limit }
        ensures reads { Parses sum_form result tokens.old tokens.new }
        ensures shrinks { length tokens.new ≤ length tokens.old }
    {
        let front = self.prefix(tokens)?;
        self.sum_behind(tokens, front)
    }

    /// The same behind its first prefix.
    fn sum_behind(&self, tokens: &mut TokenCursor<'_>, front: Prefix) -> Result<Sum, Stop>
        requires nests { CanReadExpr self.now.limit (F.pre self.now.expr) (F.post self.now.expr) }
        requires few { length tokens.old ≤ self.now.limit }
        ensures reads { ParsesBehind prefix_form front sum_form result tokens.old tokens.new }
        ensures shrinks { length tokens.new ≤ length tokens.old }
    {
        let first = self.product_behind(tokens, front)?;
        let mut more = Items::new(self.alloc);
        while let Some(operator) = sum_operator(self.alloc, tokens)? {
            let operand = self.product(tokens)?;
            more.push((operator, operand))?;
        }
        Ok(Sum { first, more })
    }

    fn product(&self, tokens: &mut TokenCursor<'_>) -> Result<Product, Stop>
        requires nests { CanReadExpr self.now.limit (F.pre self.now.expr) (F.post self.now.expr) }
        requires few { length tokens.old ≤ self.now.limit }
        ensures reads { Parses product_form result tokens.old tokens.new }
        ensures shrinks { length tokens.new ≤ length tokens.old }
    {
        let front = self.prefix(tokens)?;
        self.product_behind(tokens, front)
    }

    /// The same behind its first prefix.
    fn product_behind(&self, tokens: &mut TokenCursor<'_>, front: Prefix) -> Result<Product, Stop>
        requires nests { CanReadExpr self.now.limit (F.pre self.now.expr) (F.post self.now.expr) }
        requires few { length tokens.old ≤ self.now.limit }
        ensures reads { ParsesBehind prefix_form front product_form result tokens.old tokens.new }
        ensures shrinks { length tokens.new ≤ length tokens.old }
    {
        let mut more = Items::new(self.alloc);
        while let Some(operator) = product_operator(self.alloc, tokens)? {
            let operand = self.prefix(tokens)?;
            more.push((operator, operand))?;
        }
        Ok(Product { first: front, more })
    }

    fn prefix(&self, tokens: &mut TokenCursor<'_>) -> Result<Prefix, Stop>
        requires nests { CanReadExpr self.now.limit (F.pre self.now.expr) (F.post self.now.expr) }
        requires few { length tokens.old ≤ self.now.limit }
        ensures reads { Parses prefix_form result tokens.old tokens.new }
        ensures shrinks { length tokens.new ≤ length tokens.old }
    {
        let Some(operator) = tokens.eat(self.alloc, TokenClass::PrefixOperator)? else {
            let operand = self.postfix(tokens)?;
            return Ok(Prefix {
                operator: None,
                postfix: operand,
            });
        };
        self.operand_behind(tokens, operator)
    }

    /// A prefix behind its operator.
    #[inline(never)]
    fn operand_behind(&self, tokens: &mut TokenCursor<'_>, operator: Leaf) -> Result<Prefix, Stop>
        requires nests { CanReadExpr self.now.limit (F.pre self.now.expr) (F.post self.now.expr) }
        requires few { length tokens.old ≤ self.now.limit }
        requires operator { on is_prefix_operator operator ≡ true }
        ensures reads { Parses prefix_form result (operator ∷ tokens.old) tokens.new }
        ensures shrinks { length tokens.new ≤ length tokens.old }
    {
        let operator = Boxed::new(self.alloc, operator)?;
        let operand = self.postfix(tokens)?;
        Ok(Prefix {
            operator: Some(operator),
            postfix: operand,
        })
    }

    fn postfix(&self, tokens: &mut TokenCursor<'_>) -> Result<Postfix, Stop>
        requires nests { CanReadExpr self.now.limit (F.pre self.now.expr) (F.post self.now.expr) }
        requires few { length tokens.old ≤ self.now.limit }
        ensures reads { Parses postfix_form result tokens.old tokens.new }
        ensures shrinks { length tokens.new ≤ length tokens.old }
    {
        let front = self.atom(tokens)?;
        if tokens.sees(TokenClass::BeginsPart) {
            return self.parts_behind(tokens, front);
        }
        Ok(Postfix {
            atom: front,
            parts: Items::new(self.alloc),
        })
    }

    /// A postfix behind its atom.
    #[inline(never)]
    fn parts_behind(&self, tokens: &mut TokenCursor<'_>, front: Atom) -> Result<Postfix, Stop>
        requires nests { CanReadExpr self.now.limit (F.pre self.now.expr) (F.post self.now.expr) }
        requires few { length tokens.old ≤ self.now.limit }
        ensures reads { ParsesBehind atom_form front postfix_form result tokens.old tokens.new }
        ensures shrinks { length tokens.new ≤ length tokens.old }
    {
        let mut parts = Items::new(self.alloc);
        while let Some(behind) = self.part(tokens)? {
            parts.push(behind)?;
        }
        Ok(Postfix { atom: front, parts })
    }

    fn part(&self, tokens: &mut TokenCursor<'_>) -> Result<Option<PostfixPart>, Stop>
        requires nests { CanReadExpr self.now.limit (F.pre self.now.expr) (F.post self.now.expr) }
        requires few { length tokens.old ≤ self.now.limit }
        ensures reads { ParsesIf (on begins_part) part_form result tokens.old tokens.new }
        ensures shrinks { length tokens.new ≤ length tokens.old }
        ensures shortens { IfOk result (λ found. Shortens found tokens.old tokens.new) }
    {
        if let Some(dot) = tokens.eat(self.alloc, TokenClass::Is(Terminal::Dot))? {
            let name = tokens.expect(self.alloc, TokenClass::Is(Terminal::Identifier))?;
            return Ok(Some(PostfixPart::Member(dot, name)));
        }
        if let Some(opening) = tokens.eat(self.alloc, TokenClass::OpensArgs)? {
            let args = self.args_behind(tokens, opening)?;
            let args = Boxed::new(self.alloc, args)?;
            return Ok(Some(PostfixPart::Call(args)));
        }
        Ok(None)
    }

    #[inline(never)]
    fn args_behind(&self, tokens: &mut TokenCursor<'_>, opening: Leaf) -> Result<Args, Stop>
        requires nests { CanReadExpr self.now.limit (F.pre self.now.expr) (F.post self.now.expr) }
        requires few { length tokens.old < self.now.limit }
        requires opening { on opens_args opening ≡ true }
        ensures reads { Parses args_form result (opening ∷ tokens.old) tokens.new }
        ensures shrinks { length tokens.new ≤ length tokens.old }
    {
        if let Some(closing) = tokens.eat(self.alloc, TokenClass::Is(Terminal::RightParenthesis))? {
            return Ok(Args {
                opening,
                list: None,
                closing,
            });
        }
        let list = self.arg_list(tokens)?;
        let closing = tokens.expect(self.alloc, TokenClass::Is(Terminal::RightParenthesis))?;
        Ok(Args {
            opening,
            list: Some(list),
            closing,
        })
    }

    fn arg_list(&self, tokens: &mut TokenCursor<'_>) -> Result<(Arg, Items<(Leaf, Arg)>), Stop>
        requires nests { CanReadExpr self.now.limit (F.pre self.now.expr) (F.post self.now.expr) }
        requires few { length tokens.old < self.now.limit }
        ensures reads { Parses (arg_list_rule arg_form) result tokens.old tokens.new }
        ensures shrinks { length tokens.new ≤ length tokens.old }
    {
        let first = self.arg(tokens)?;
        let mut more = Items::new(self.alloc);
        while let Some(comma) = tokens.eat(self.alloc, TokenClass::Is(Terminal::Comma))? {
            let next = self.arg(tokens)?;
            more.push((comma, next))?;
        }
        Ok((first, more))
    }

    fn arg(&self, tokens: &mut TokenCursor<'_>) -> Result<Arg, Stop>
        requires nests { CanReadExpr self.now.limit (F.pre self.now.expr) (F.post self.now.expr) }
        requires few { length tokens.old < self.now.limit }
        ensures reads { Parses arg_form result tokens.old tokens.new }
        ensures shrinks { length tokens.new ≤ length tokens.old }
    {
        let label = tokens.eat_label(self.alloc)?;
        let value = self.inner(tokens)?;
        Ok(Arg { label, value })
    }

    fn atom(&self, tokens: &mut TokenCursor<'_>) -> Result<Atom, Stop>
        requires nests { CanReadExpr self.now.limit (F.pre self.now.expr) (F.post self.now.expr) }
        requires few { length tokens.old ≤ self.now.limit }
        ensures reads { Parses atom_form result tokens.old tokens.new }
        ensures shrinks { length tokens.new ≤ length tokens.old }
    {
        if !tokens.sees(TokenClass::Is(Terminal::LeftParenthesis)) {
            return lone_atom(self.alloc, tokens);
        }
        let opening = tokens.expect(self.alloc, TokenClass::Is(Terminal::LeftParenthesis))?;
        self.parentheses_behind(tokens, opening)
    }

    #[inline(never)]
    fn parentheses_behind(&self, tokens: &mut TokenCursor<'_>, opening: Leaf) -> Result<Atom, Stop>
        requires nests { CanReadExpr self.now.limit (F.pre self.now.expr) (F.post self.now.expr) }
        requires few { length tokens.old < self.now.limit }
        requires opening { on (is T.LeftParenthesis) opening ≡ true }
        ensures reads { Parses atom_form result (opening ∷ tokens.old) tokens.new }
        ensures shrinks { length tokens.new ≤ length tokens.old }
    {
        let inner = self.inner(tokens)?;
        let closing = tokens.expect(self.alloc, TokenClass::Is(Terminal::RightParenthesis))?;
        let parts = Boxed::new(self.alloc, (opening, inner, closing))?;
        Ok(Atom::Parentheses(parts))
    }
}

/// An expression, where no more tokens are left than the limit.
#[inline(never)]
fn limited(alloc: Global, tokens: &mut TokenCursor<'_>, limit: usize) -> Result<Expr, Stop>
    requires { length tokens.old ≤ limit }
    ensures reads { Parses expr_form result tokens.old tokens.new }
    ensures shrinks { length tokens.new ≤ length tokens.old }
{
    Grammar {
        alloc,
        limit,
        expr: limited,
    }
    .level(tokens)
}

/// An expression.
pub fn expr(alloc: Global, tokens: &mut TokenCursor<'_>) -> Result<Expr, Stop>
    ensures reads { Parses expr_form result tokens.old tokens.new }
    ensures shrinks { length tokens.new ≤ length tokens.old }
{
    let limit = tokens.len();
    limited(alloc, tokens, limit)
}

/// A postfix.
pub fn postfix(alloc: Global, tokens: &mut TokenCursor<'_>) -> Result<Postfix, Stop>
    ensures reads { Parses postfix_form result tokens.old tokens.new }
    ensures shrinks { length tokens.new ≤ length tokens.old }
{
    let limit = tokens.len();
    Grammar {
        alloc,
        limit,
        expr: limited,
    }
    .postfix(tokens)
}
