ghost use Rattle.std.specs.Prelude.{◌≡◌, [], ◌∷◌, OnOk};
ghost use Rattle.checks.specs.Logs.{nothing, saying, asking, muting};
ghost use Rattle.expr_check.specs.Messages.{orders};

use crate::Line;
use dep_key::{Key, NoMemory};
use std::alloc::Global;
use std::collections::BTreeSet;
use std::marker::Model;

/// What was said of a file and which keys were asked so far, and whether what is said counts.
#[derive(Drop)]
pub struct Log {
    errors: BTreeSet<Line>,
    asked: BTreeSet<Key>,
    muted: bool,
}

impl Model for Log {
    ghost use Rattle.dep_key.specs.declared.key.Key.{Key};
    ghost use Rattle.expr_check.specs.declared.line.Line.{Line};
    ghost use Rattle.checks.specs.Logs.{Logged};

    ghost Value = { Logged Key Line };

    ghost view = { λ l. record { errors = l.errors.keys; asked = l.asked.keys; muted = l.muted } };
}

impl Log {
    /// Before anything is said or asked.
    pub fn new(alloc: Global) -> Log
        ensures { result ≡ nothing }
    {
        Log {
            errors: BTreeSet::new(alloc),
            asked: BTreeSet::new(alloc),
            muted: false,
        }
    }

    /// Says an error, unless what is said doesn't count.
    pub fn say(&mut self, line: Line) -> Result<(), NoMemory>
        ensures { OnOk result (self.new ≡ saying orders self.old (line ∷ [])) }
    {
        if !self.muted {
            self.errors.insert(line)?;
        }
        Ok(())
    }

    /// Notes that a key is asked.
    pub fn ask(&mut self, key: &Key) -> Result<(), NoMemory>
        ensures { OnOk result (self.new ≡ asking orders self.old key.now) }
    {
        let copy = key.clone()?;
        self.asked.insert(copy)?;
        Ok(())
    }

    /// The keys that were asked.
    pub fn asked(&self) -> &BTreeSet<Key>
        ensures { result.now.keys ≡ self.now.asked }
    {
        &self.asked
    }

    /// Whether what is said doesn't count.
    pub fn is_muted(&self) -> bool
        ensures { result ≡ self.now.muted }
    {
        self.muted
    }

    /// What was said, and which keys were asked.
    pub fn into_sets(self) -> (BTreeSet<Line>, BTreeSet<Key>)
        ensures errors { result.0.keys ≡ self.errors }
        ensures asked { result.1.keys ≡ self.asked }
    {
        let Log { errors, asked, .. } = self;
        (errors, asked)
    }

    /// From now on what is said counts or not.
    pub fn mute(&mut self, muted: bool)
        ensures { self.new ≡ muting muted self.old }
    {
        self.muted = muted;
    }
}
