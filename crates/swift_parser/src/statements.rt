ghost use Rattle.std.specs.Prelude.{◌≡◌, ◌≤◌, ◌<◌, ◌∷◌, ◌++◌, true, false, length, IfOk};
ghost use Rattle.grammar.specs.Faults.{Stops};
ghost use Rattle.grammar.specs.Forms.{lines};
ghost use Rattle.swift_ast.specs.declared.terminals.Terminal.TheVariants as T;
ghost use Rattle.swift_ast.specs.Tests.{on, is, is_specifier, begins_stmt, begins_next_stmt};
ghost use Rattle.swift_ast.specs.Statements.{specifier_form, type_form, annotation_rule, stmt_form, block_form, else_if_form, if_form, target_form, else_parts_rule};
ghost use Rattle.swift_ast.specs.Declarations.{global_form};
ghost use Rattle.swift_parser.specs.CanRead.{CanReadBlock};
ghost use Rattle.token_cursor.specs.Reading.{Parses, TakesIf, Shortens, begins_assign};

use crate::expressions::{expr, postfix};
use sqlite_items::Items;
use std::alloc::{AllocError, Global};
use swift_ast::{
    BindingSpecifier, Block, Call, ElseIf, Global as GlobalDecl, If, Leaf, Postfix, PostfixPart,
    Stmt, Target, Terminal, TypeName,
};
use token_cursor::{Stop, TokenClass, TokenCursor};

/// `let` or `var`, if one stands next.
pub fn specifier(
    alloc: Global,
    tokens: &mut TokenCursor<'_>,
) -> Result<Option<BindingSpecifier>, AllocError>
    ensures takes { IfOk result (λ found. TakesIf (on is_specifier) specifier_form found tokens.old tokens.new) }
    ensures shrinks { length tokens.new ≤ length tokens.old }
    ensures shortens { IfOk result (λ found. Shortens found tokens.old tokens.new) }
{
    if let Some(t) = tokens.eat(alloc, TokenClass::Is(Terminal::Let))? {
        return Ok(Some(BindingSpecifier::Let(t)));
    }
    if let Some(t) = tokens.eat(alloc, TokenClass::Is(Terminal::Var))? {
        return Ok(Some(BindingSpecifier::Var(t)));
    }
    Ok(None)
}

pub fn type_name(alloc: Global, tokens: &mut TokenCursor<'_>) -> Result<TypeName, Stop>
    ensures reads { Parses type_form result tokens.old tokens.new }
    ensures shrinks { length tokens.new ≤ length tokens.old }
{
    let name = tokens.expect(alloc, TokenClass::Is(Terminal::Identifier))?;
    Ok(TypeName { name })
}

fn annotation(alloc: Global, tokens: &mut TokenCursor<'_>) -> Result<Option<(Leaf, TypeName)>, Stop>
    ensures reads { Parses annotation_rule result tokens.old tokens.new }
    ensures shrinks { length tokens.new ≤ length tokens.old }
{
    let Some(colon) = tokens.eat(alloc, TokenClass::Is(Terminal::Colon))? else {
        return Ok(None);
    };
    let written = type_name(alloc, tokens)?;
    Ok(Some((colon, written)))
}

/// A name with an initial value behind `let` or `var`.
pub fn binding_behind(
    alloc: Global,
    tokens: &mut TokenCursor<'_>,
    specifier: BindingSpecifier,
) -> Result<GlobalDecl, Stop>
    requires { specifier_form.is_well_formed specifier ≡ true }
    ensures reads { Parses global_form result (specifier_form.tokens specifier ++ tokens.old) tokens.new }
    ensures shrinks { length tokens.new ≤ length tokens.old }
{
    let name = tokens.expect(alloc, TokenClass::Is(Terminal::Identifier))?;
    let annotation = annotation(alloc, tokens)?;
    let assign = tokens.expect(alloc, TokenClass::Is(Terminal::Assign))?;
    let value = expr(alloc, tokens)?;
    Ok(GlobalDecl {
        specifier,
        name,
        annotation,
        assign,
        value,
    })
}

fn local_behind(
    alloc: Global,
    tokens: &mut TokenCursor<'_>,
    specifier: BindingSpecifier,
) -> Result<Stmt, Stop>
    requires { specifier_form.is_well_formed specifier ≡ true }
    ensures reads { Parses stmt_form result (specifier_form.tokens specifier ++ tokens.old) tokens.new }
    ensures shrinks { length tokens.new ≤ length tokens.old }
{
    let found = binding_behind(alloc, tokens, specifier)?;
    Ok(Stmt::Local(
        found.specifier,
        found.name,
        found.annotation,
        found.assign,
        found.value,
    ))
}

fn return_behind(alloc: Global, tokens: &mut TokenCursor<'_>, keyword: Leaf) -> Result<Stmt, Stop>
    requires { on (is T.Return) keyword ≡ true }
    ensures reads { Parses stmt_form result (keyword ∷ tokens.old) tokens.new }
    ensures shrinks { length tokens.new ≤ length tokens.old }
{
    if !tokens.sees(TokenClass::BeginsValue) {
        return Ok(Stmt::Return(keyword, None));
    }
    let value = expr(alloc, tokens)?;
    Ok(Stmt::Return(keyword, Some(value)))
}

fn target(alloc: Global, tokens: &mut TokenCursor<'_>) -> Result<Target, Stop>
    ensures reads { Parses target_form result tokens.old tokens.new }
    ensures shrinks { length tokens.new ≤ length tokens.old }
{
    let root = tokens.expect(alloc, TokenClass::Is(Terminal::Identifier))?;
    let mut members = Items::new(alloc);
    while let Some(dot) = tokens.eat(alloc, TokenClass::Is(Terminal::Dot))? {
        let name = tokens.expect(alloc, TokenClass::Is(Terminal::Identifier))?;
        members.push((dot, name))?;
    }
    Ok(Target { root, members })
}

/// An assignment, where one stands next up to its `=`.
fn assignment(alloc: Global, tokens: &mut TokenCursor<'_>) -> Result<Stmt, Stop>
    requires { begins_assign tokens.old ≡ true }
    ensures reads { Parses stmt_form result tokens.old tokens.new }
    ensures shrinks { length tokens.new ≤ length tokens.old }
{
    let target = target(alloc, tokens)?;
    let assign = tokens.expect(alloc, TokenClass::Is(Terminal::Assign))?;
    let value = expr(alloc, tokens)?;
    Ok(Stmt::Assign(target, assign, value))
}

fn is_args(part: &PostfixPart) -> bool
    ensures { result ≡ Rattle.swift_ast.specs.Statements.is_args part.now }
{
    match part {
        PostfixPart::Call(_) => true,
        PostfixPart::Member(_, _) => false,
    }
}

fn is_call(postfix: &Postfix) -> bool
    ensures { result ≡ Rattle.swift_ast.specs.Statements.is_call postfix.now }
{
    match postfix.parts.as_slice().last() {
        Some(last) => is_args(last),
        None => false,
    }
}

/// A call, where no other statement stands next.
fn call(alloc: Global, tokens: &mut TokenCursor<'_>) -> Result<Stmt, Stop>
    requires no_local { Stops (on is_specifier) tokens.old }
    requires no_return { Stops (on (is T.Return)) tokens.old }
    requires no_if { Stops (on (is T.If)) tokens.old }
    requires no_while { Stops (on (is T.While)) tokens.old }
    requires no_assign { begins_assign tokens.old ≡ false }
    ensures reads { Parses stmt_form result tokens.old tokens.new }
    ensures shrinks { length tokens.new ≤ length tokens.old }
{
    let found = postfix(alloc, tokens)?;
    if !is_call(&found) {
        return Err(Stop::Unexpected);
    }
    Ok(Stmt::Call(Call { postfix: found }))
}

/// The rules of statements, which take the reader of blocks in statements as a parameter, so that
/// each is proved by itself.
#[derive(Clone, Copy)]
struct Grammar<F> {
    alloc: Global,

    /// No fewer than the tokens that are left.
    limit: usize,
    block: F,
}

impl<F: Fn(Global, &mut TokenCursor<'_>, usize) -> Result<Block, Stop>> Grammar<F> {
    /// The block of a statement.
    fn inner(&self, tokens: &mut TokenCursor<'_>) -> Result<Block, Stop>
        requires nests { CanReadBlock self.now.limit (F.pre self.now.block) (F.post self.now.block) }
        requires few { length tokens.old < self.now.limit }
        ensures reads { Parses block_form result tokens.old tokens.new }
        ensures shrinks { length tokens.new ≤ length tokens.old }
    {
        (self.block)(self.alloc, tokens, self.limit - 1)
    }

    fn stmt(&self, tokens: &mut TokenCursor<'_>) -> Result<Stmt, Stop>
        requires nests { CanReadBlock self.now.limit (F.pre self.now.block) (F.post self.now.block) }
        requires few { length tokens.old < self.now.limit }
        ensures reads { Parses stmt_form result tokens.old tokens.new }
        ensures shrinks { length tokens.new ≤ length tokens.old }
    {
        if let Some(found) = specifier(self.alloc, tokens)? {
            return local_behind(self.alloc, tokens, found);
        }
        if let Some(return_keyword) = tokens.eat(self.alloc, TokenClass::Is(Terminal::Return))? {
            return return_behind(self.alloc, tokens, return_keyword);
        }
        if let Some(if_keyword) = tokens.eat(self.alloc, TokenClass::Is(Terminal::If))? {
            let conditional = self.if_behind(tokens, if_keyword)?;
            return Ok(Stmt::If(conditional));
        }
        if let Some(while_keyword) = tokens.eat(self.alloc, TokenClass::Is(Terminal::While))? {
            return self.while_behind(tokens, while_keyword);
        }
        if tokens.sees_assign() {
            return assignment(self.alloc, tokens);
        }
        call(self.alloc, tokens)
    }

    fn while_behind(&self, tokens: &mut TokenCursor<'_>, keyword: Leaf) -> Result<Stmt, Stop>
        requires nests { CanReadBlock self.now.limit (F.pre self.now.block) (F.post self.now.block) }
        requires few { length tokens.old < self.now.limit }
        requires keyword { on (is T.While) keyword ≡ true }
        ensures reads { Parses stmt_form result (keyword ∷ tokens.old) tokens.new }
        ensures shrinks { length tokens.new ≤ length tokens.old }
    {
        let condition = expr(self.alloc, tokens)?;
        let body = self.inner(tokens)?;
        Ok(Stmt::While(keyword, condition, body))
    }

    fn if_behind(&self, tokens: &mut TokenCursor<'_>, keyword: Leaf) -> Result<If, Stop>
        requires nests { CanReadBlock self.now.limit (F.pre self.now.block) (F.post self.now.block) }
        requires few { length tokens.old < self.now.limit }
        requires keyword { on (is T.If) keyword ≡ true }
        ensures reads { Parses if_form result (keyword ∷ tokens.old) tokens.new }
        ensures shrinks { length tokens.new ≤ length tokens.old }
    {
        let condition = expr(self.alloc, tokens)?;
        let body = self.inner(tokens)?;
        let rest = self.else_parts(tokens)?;
        Ok(If {
            keyword,
            condition,
            block: body,
            else_ifs: rest.0,
            last: rest.1,
        })
    }

    fn else_parts(
        &self,
        tokens: &mut TokenCursor<'_>,
    ) -> Result<(Items<ElseIf>, Option<(Leaf, Block)>), Stop>
        requires nests { CanReadBlock self.now.limit (F.pre self.now.block) (F.post self.now.block) }
        requires few { length tokens.old < self.now.limit }
        ensures reads { Parses (else_parts_rule block_form else_if_form) result tokens.old tokens.new }
        ensures shrinks { length tokens.new ≤ length tokens.old }
    {
        let mut else_ifs = Items::new(self.alloc);
        while let Some(else_keyword) = tokens.eat(self.alloc, TokenClass::Is(Terminal::Else))? {
            let Some(if_keyword) = tokens.eat(self.alloc, TokenClass::Is(Terminal::If))? else {
                let body = self.inner(tokens)?;
                return Ok((else_ifs, Some((else_keyword, body))));
            };
            let found = self.else_if_behind(tokens, else_keyword, if_keyword)?;
            else_ifs.push(found)?;
        }
        Ok((else_ifs, None))
    }

    fn else_if_behind(
        &self,
        tokens: &mut TokenCursor<'_>,
        else_keyword: Leaf,
        if_keyword: Leaf,
    ) -> Result<ElseIf, Stop>
        requires nests { CanReadBlock self.now.limit (F.pre self.now.block) (F.post self.now.block) }
        requires few { length tokens.old < self.now.limit }
        requires else_keyword { on (is T.Else) else_keyword ≡ true }
        requires if_keyword { on (is T.If) if_keyword ≡ true }
        ensures reads { Parses else_if_form result (else_keyword ∷ (if_keyword ∷ tokens.old)) tokens.new }
        ensures shrinks { length tokens.new ≤ length tokens.old }
    {
        let condition = expr(self.alloc, tokens)?;
        let body = self.inner(tokens)?;
        Ok(ElseIf {
            else_keyword,
            if_keyword,
            condition,
            block: body,
        })
    }

    fn stmts(&self, tokens: &mut TokenCursor<'_>) -> Result<Items<Stmt>, Stop>
        requires nests { CanReadBlock self.now.limit (F.pre self.now.block) (F.post self.now.block) }
        requires few { length tokens.old < self.now.limit }
        ensures reads { Parses (lines (on begins_stmt) (on begins_next_stmt) stmt_form) result tokens.old tokens.new }
        ensures shrinks { length tokens.new ≤ length tokens.old }
    {
        let mut all = Items::new(self.alloc);
        if !tokens.sees(TokenClass::BeginsStmt) {
            return Ok(all);
        }
        let first = self.stmt(tokens)?;
        all.push(first)?;
        while tokens.sees(TokenClass::BeginsNextStmt) {
            let later = self.stmt(tokens)?;
            all.push(later)?;
        }
        Ok(all)
    }

    fn level(&self, tokens: &mut TokenCursor<'_>) -> Result<Block, Stop>
        requires nests { CanReadBlock self.now.limit (F.pre self.now.block) (F.post self.now.block) }
        requires few { length tokens.old ≤ self.now.limit }
        ensures reads { Parses block_form result tokens.old tokens.new }
        ensures shrinks { length tokens.new ≤ length tokens.old }
    {
        let opening = tokens.expect(self.alloc, TokenClass::Is(Terminal::LeftBrace))?;
        let stmts = self.stmts(tokens)?;
        let closing = tokens.expect(self.alloc, TokenClass::Is(Terminal::RightBrace))?;
        Ok(Block {
            opening,
            stmts,
            closing,
        })
    }
}

/// A block, where no more tokens are left than the limit.
fn limited(alloc: Global, tokens: &mut TokenCursor<'_>, limit: usize) -> Result<Block, Stop>
    requires { length tokens.old ≤ limit }
    ensures reads { Parses block_form result tokens.old tokens.new }
    ensures shrinks { length tokens.new ≤ length tokens.old }
{
    Grammar {
        alloc,
        limit,
        block: limited,
    }
    .level(tokens)
}

/// A block.
pub fn block(alloc: Global, tokens: &mut TokenCursor<'_>) -> Result<Block, Stop>
    ensures reads { Parses block_form result tokens.old tokens.new }
    ensures shrinks { length tokens.new ≤ length tokens.old }
{
    let limit = tokens.len();
    limited(alloc, tokens, limit)
}
