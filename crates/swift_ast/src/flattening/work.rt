ghost use Rattle.std.specs.Prelude.{◌≡◌, [], ◌∷◌, ◌++◌, ◌+◌, length, OnOk, MatchOption};
ghost use Rattle.swift_ast.specs.Flattening.{part_tokens};

use crate::flattening::part::Part;
use crate::{Leaf, Token};
use std::alloc::{AllocError, Global};
use std::marker::Model;

/// The tokens given so far, and the parts whose tokens follow, the next one last.
#[derive(Drop)]
pub struct Work<'a> {
    pub tokens: Vec<Token<'a>>,
    pub parts: Vec<Part<'a>>,
}

impl<'a> Model for Work<'a> {
    ghost use Rattle.std.specs.Prelude.{map, length};
    ghost use Rattle.swift_ast.specs.Leaves.{leaf_of};
    ghost use Rattle.swift_ast.specs.Flattening.{State, to_follow, state};

    ghost Value = { State };

    ghost view = { λ w. state w.tokens.items w.parts.items };
}

impl<'a> Work<'a> {
    pub fn new(alloc: Global) -> Work<'a>
        ensures done { result.done ≡ [] }
        ensures waiting { result.waiting ≡ [] }
        ensures load { result.load ≡ 0 }
    {
        Work {
            tokens: Vec::new(alloc),
            parts: Vec::new(alloc),
        }
    }

    /// Gives a token.
    pub fn emit(&mut self, leaf: &'a Leaf) -> Result<(), AllocError>
        ensures done { OnOk result (self.new.done ≡ self.old.done ++ leaf.now ∷ []) }
        ensures longer { OnOk result (length self.new.done ≡ length self.old.done + 1) }
        ensures waiting { OnOk result (self.new.waiting ≡ self.old.waiting) }
        ensures load { OnOk result (self.new.load ≡ self.old.load) }
    {
        self.tokens.push(Token {
            kind: leaf.kind,
            text: leaf.text.as_str(),
            first_on_line: leaf.first_on_line,
            line: leaf.line,
            column: leaf.column,
        })?;
        Ok(())
    }

    /// Has the tokens of a part follow next.
    #[tactic(auto, using(crate::proofs::FlatteningLemmas::put_follows))]
    pub fn put(&mut self, part: Part<'a>) -> Result<(), AllocError>
        ensures done { OnOk result (self.new.done ≡ self.old.done) }
        ensures waiting { OnOk result (self.new.waiting ≡ part_tokens part.entry ++ self.old.waiting) }
        ensures load { OnOk result (self.new.load ≡ self.old.load + 1) }
    {
        self.parts.push(part)?;
        Ok(())
    }

    /// Takes the part whose tokens follow next.
    #[tactic(auto, using(crate::proofs::FlatteningLemmas::put_follows))]
    pub fn take(&mut self) -> Option<Part<'a>>
        ensures done { self.new.done ≡ self.old.done }
        ensures waiting { MatchOption result (self.old.waiting ≡ []) (λ part. self.old.waiting ≡ part_tokens part ++ self.new.waiting) }
        ensures load { MatchOption result (self.new.load ≡ self.old.load) (λ part. self.old.load ≡ self.new.load + 1) }
    {
        self.parts.pop()
    }
}

/// The first of a list, and the others.
pub fn split<T>(items: &[T]) -> Option<(&T, &[T])>
    ensures { MatchOption result (items.now ≡ []) (λ p. items.now ≡ p.0.now ∷ p.1.now) }
{
    match items {
        [] => None,
        [first, rest @ ..] => Some((first, rest)),
    }
}
