//! The identifiers that were read, by their numbers.

ghost use Rattle.std.specs.Prelude.{◌≡◌, ◌++◌, ◌∷◌, [], IfOk, OnOk};
ghost use Rattle.std.specs.Option.{option_copied};
ghost use Rattle.swiftdeps.specs.Judging.{Gives, last, text_of};

use crate::fault::{DepsFault, Stop};
use dep_key::Name;
use std::alloc::{AllocError, Global};
use std::marker::Model;

/// The identifiers that were read, and the empty text, whose copies share its characters too.
///
/// Contracts see the list of the identifiers.
#[derive(Drop)]
pub struct Identifiers {
    empty: Name,
    all: Vec<Name>,
}

impl Model for Identifiers {
    ghost use Rattle.std.specs.Prelude.{◌≡◌, [], List, ℕ};

    ghost Value = { List (List ℕ) };

    ghost view = { λ s. s.all.items };

    ghost invariant = { λ s. s.empty ≡ [] };
}

impl Identifiers {
    pub fn new(alloc: Global) -> Result<Identifiers, AllocError>
        ensures { IfOk result (λ made. made ≡ []) }
    {
        let empty = Name::from_str(alloc, "")?;
        Ok(Identifiers {
            empty,
            all: Vec::new(alloc),
        })
    }

    /// The text of a number: 0 is the empty one, and the identifiers count from 1.
    #[inline(always)]
    #[tactic(auto, unfolding(crate::specs::Judging::text_of))]
    pub fn text(&self, at: u128, number: u64) -> Result<Name, Stop>
        ensures { Gives result (text_of self.now at number) }
    {
        if number == 0 {
            let empty = self.empty.clone()?;
            return Ok(empty);
        }
        match self.all.get((number - 1) as usize) {
            Some(name) => {
                let copy = name.clone()?;
                Ok(copy)
            }
            None => Err(Stop::Fault(DepsFault::IdentifierNumber { at, value: number })),
        }
    }

    /// The identifier that was read last, where there is one.
    pub fn last(&self) -> Option<&Name>
        ensures { option_copied result ≡ last self.now }
    {
        self.all.last()
    }

    /// Adds an identifier behind the others.
    pub fn push(&mut self, name: Name) -> Result<(), AllocError>
        ensures { OnOk result (self.new ≡ self.old ++ name ∷ []) }
    {
        self.all.push(name)?;
        Ok(())
    }
}
