ghost use Rattle.std.specs.Prelude.{◌≡◌, ◌≤◌, ◌<◌, IfOk, OnOk, OnErr, map, length};
ghost use Rattle.grammar.specs.Forms.{token, begins_by};
ghost use Rattle.swift_ast.specs.Leaves.{leaf_of};
ghost use Rattle.swift_ast.specs.Terminals.{terminal};
ghost use Rattle.swift_ast.specs.Tests.{on};
ghost use Rattle.token_cursor.specs.Reading.{test_of, Shortens, Eaten, LabelEaten, Parses, begins_assign, continues_to_assign, next_of};

use crate::stop::Stop;
use crate::token_class::TokenClass;
use std::alloc::{AllocError, Global};
use std::marker::Model;
use swift_ast::{Leaf, Terminal, Text, Token};

/// The tokens that are still to be read, and what the next one is to the grammar.
#[derive(Drop)]
pub struct TokenCursor<'a> {
    rest: &'a [Token<'a>],
    next: Terminal,
    ghost is_next: { next ≡ next_of (map leaf_of rest.now) },
}

impl<'a> Model for TokenCursor<'a> {
    ghost use Rattle.std.specs.Prelude.{List, map};
    ghost use Rattle.swift_ast.specs.Leaves.{Leaf, leaf_of};

    ghost Value = { List Leaf };

    ghost view = { λ t. map leaf_of t.rest.now };
}

/// What a token is to the grammar.
pub fn terminal(token: &Token<'_>) -> Terminal
    ensures { result ≡ terminal (leaf_of token.now) }
{
    Terminal::of(token.kind, token.text)
}

fn is(token: &Token<'_>, test: TokenClass) -> bool
    ensures { result ≡ on (test_of test) (leaf_of token.now) }
{
    test.holds(terminal(token), token.first_on_line)
}

fn leaf(alloc: Global, token: &Token<'_>) -> Result<Leaf, AllocError>
    ensures { IfOk result (λ made. made ≡ leaf_of token.now) }
{
    let text = Text::from_str(alloc, token.text)?;
    Ok(Leaf {
        kind: token.kind,
        text,
        first_on_line: token.first_on_line,
        line: token.line,
        column: token.column,
    })
}

/// Whether `=` stands behind full stops and names.
fn continues_to_assign(tokens: &[Token<'_>]) -> bool
    ensures { result ≡ continues_to_assign (map leaf_of tokens.now) }
{
    let mut rest = tokens;
    while let [dot, name, more @ ..] = rest {
        if is(dot, TokenClass::Is(Terminal::Assign)) {
            return true;
        }
        if !is(dot, TokenClass::Is(Terminal::Dot))
            || !is(name, TokenClass::Is(Terminal::Identifier))
        {
            return false;
        }
        rest = more;
    }
    match rest {
        [last] => is(last, TokenClass::Is(Terminal::Assign)),
        _ => false,
    }
}

impl<'a> TokenCursor<'a> {
    pub fn new(tokens: &'a [Token<'a>]) -> TokenCursor<'a>
        ensures { result ≡ map leaf_of tokens.now }
    {
        match tokens {
            [first, ..] => TokenCursor {
                rest: tokens,
                next: terminal(first),
            },
            [] => TokenCursor {
                rest: tokens,
                next: Terminal::Unused,
            },
        }
    }

    /// The tokens that are left.
    pub fn rest(&self) -> &'a [Token<'a>]
        ensures { map leaf_of result.now ≡ self.now }
    {
        self.rest
    }

    /// How many tokens are left.
    pub fn len(&self) -> usize
        ensures { result ≡ length self.now }
    {
        self.rest.len()
    }

    /// Goes on behind the next token, and gives it.
    #[inline(never)]
    fn pass(
        &mut self,
        alloc: Global,
        token: &Token<'_>,
        rest: &'a [Token<'a>],
    ) -> Result<Leaf, AllocError>
        ensures leaf { IfOk result (λ made. made ≡ leaf_of token.now) }
        ensures rest { OnOk result (self.new ≡ map leaf_of rest.now) }
        ensures unread { OnErr result (self.new ≡ self.old) }
    {
        let leaf = leaf(alloc, token)?;
        *self = TokenCursor::new(rest);
        Ok(leaf)
    }

    /// Takes the next token if it is of the test.
    #[inline(always)]
    pub fn eat(&mut self, alloc: Global, test: TokenClass) -> Result<Option<Leaf>, AllocError>
        ensures eaten { IfOk result (λ found. Eaten (on (test_of test)) found self.old self.new) }
        ensures unread { OnErr result (self.new ≡ self.old) }
        ensures shrinks { length self.new ≤ length self.old }
        ensures shortens { IfOk result (λ found. Shortens found self.old self.new) }
    {
        let [token, rest @ ..] = self.rest else {
            return Ok(None);
        };
        if !test.holds(self.next, token.first_on_line) {
            return Ok(None);
        }
        let leaf = self.pass(alloc, token, rest)?;
        Ok(Some(leaf))
    }

    /// Takes the next token, which is to be of the test.
    #[inline]
    pub fn expect(&mut self, alloc: Global, test: TokenClass) -> Result<Leaf, Stop>
        ensures reads { Parses (token (on (test_of test))) result self.old self.new }
        ensures shrinks { length self.new ≤ length self.old }
        ensures shortens { OnOk result (length self.new < length self.old) }
        ensures unread { OnErr result (self.new ≡ self.old) }
    {
        match self.eat(alloc, test)? {
            Some(leaf) => Ok(leaf),
            None => Err(Stop::Unexpected),
        }
    }

    /// Whether the next token is of the test.
    #[inline(always)]
    pub fn sees(&self, test: TokenClass) -> bool
        ensures { result ≡ begins_by (on (test_of test)) self.now }
    {
        match self.rest {
            [token, ..] => test.holds(self.next, token.first_on_line),
            [] => false,
        }
    }

    /// Whether an assignment stands next.
    pub fn sees_assign(&self) -> bool
        ensures { result ≡ begins_assign self.now }
    {
        match self.rest {
            [token, rest @ ..] => is(token, TokenClass::Is(Terminal::Identifier))
                && continues_to_assign(rest),
            [] => false,
        }
    }

    /// Takes a name and a colon, if both stand next.
    pub fn eat_label(&mut self, alloc: Global) -> Result<Option<(Leaf, Leaf)>, AllocError>
        ensures eaten { IfOk result (λ found. LabelEaten found self.old self.new) }
        ensures unread { OnErr result (self.new ≡ self.old) }
        ensures shrinks { length self.new ≤ length self.old }
    {
        let [name, colon, rest @ ..] = self.rest else {
            return Ok(None);
        };
        if !is(name, TokenClass::Is(Terminal::Identifier))
            || !is(colon, TokenClass::Is(Terminal::Colon))
        {
            return Ok(None);
        }
        let name = leaf(alloc, name)?;
        let colon = leaf(alloc, colon)?;
        *self = TokenCursor::new(rest);
        Ok(Some((name, colon)))
    }
}
