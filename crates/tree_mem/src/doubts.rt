ghost use Rattle.std.specs.Prelude.{◌≡◌, All, IsTrue, IfOk, OnOk, OnErr, is_some};
ghost use Rattle.std.specs.BTreeMap.{keys};
ghost use Rattle.std.specs.FinMap as finite;
ghost use Rattle.drv_outside.specs.Disk.{left_by_crash};
ghost use Rattle.drv_outside.specs.Plain.{is_plain_name};

use crate::folder::MemFolder;
use drv_outside::{Name, Text};
use std::alloc::{AllocError, Global};
use std::collections::BTreeMap;
use std::marker::Model;

// The base in which a crash's choice has a digit for each name in doubt.
const BASE: u64 = 4;

/// The names in doubt, each with what it had when it was last settled. All names are plain.
#[derive(Drop)]
pub struct MemDoubts {
    names: BTreeMap<Name, Option<Text>>,
    ghost plain: { All (λ name. IsTrue (is_plain_name name)) (keys names) },
}

impl Model for MemDoubts {
    ghost use Rattle.std.specs.Prelude.{List, ℕ, Option};
    ghost use Rattle.std.specs.Coded.{coded_ℕ, coded_list, coded_option};
    ghost use Rattle.std.specs.FinMap as finite;
    ghost use Rattle.std.specs.Ordering.{nat_cmp};
    ghost use Rattle.std.specs.Cmp.Lexicographic.{slice_cmp};

    ghost Value = { finite.FinMap (slice_cmp nat_cmp) (Option (List ℕ)) };

    ghost coded = { finite.code (coded_list coded_ℕ) (coded_option (coded_list coded_ℕ)) };

    ghost view = { λ a. finite.from_entries a.names.entries };
}

impl MemDoubts {
    pub fn new(alloc: Global) -> MemDoubts
        ensures { result ≡ finite.empty }
    {
        MemDoubts {
            names: BTreeMap::new(alloc),
        }
    }

    pub fn insert(&mut self, name: Name, was: Option<Text>) -> Result<(), AllocError>
        requires plain { IsTrue (is_plain_name name) }
        ensures ok { OnOk result (self.new ≡ finite.insert self.old name was) }
        ensures err { OnErr result (self.new ≡ self.old) }
    {
        self.names.insert(name, was)?;
        Ok(())
    }

    pub fn remove(&mut self, name: &Name)
        ensures { self.new ≡ finite.remove self.old name.now }
    {
        let _ = self.names.remove(name);
    }

    /// Removes a name, without memory.
    pub fn remove_named(&mut self, name: &str)
        ensures { self.new ≡ finite.remove self.old name.now }
    {
        self.names.retain(|key, _| key.as_str() != name);
    }

    pub fn contains(&self, name: &Name) -> bool
        ensures { result ≡ is_some (finite.get self.now name.now) }
    {
        self.names.contains_key(name)
    }

    /// What a crash leaves of a folder: for each name in doubt, in byte order, a digit of the choice
    /// decides, least first.
    pub fn left_by_crash(
        &self,
        alloc: Global,
        folder: MemFolder,
        choice: u64,
    ) -> Result<MemFolder, AllocError>
        ensures { IfOk result (λ left. left ≡ left_by_crash choice (finite.entries self.now) folder) }
    {
        let mut left = folder;
        let mut digits = choice;
        for (name, was) in self.names.iter() {
            left.leave(alloc, name, was, digits % BASE)?;
            digits /= BASE;
        }
        Ok(left)
    }
}
