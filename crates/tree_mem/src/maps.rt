ghost use Rattle.std.specs.Prelude.{◌≡◌, OnOk, OnErr, IfOk};
ghost use Rattle.std.specs.FinMap as finite;

use crate::copies::copied;
use drv_outside::{Path, Text};
use std::alloc::{AllocError, Global};
use std::collections::BTreeMap;
use std::marker::Model;

/// The output file maps, seen as the map from each path to the bytes there.
#[derive(Drop)]
pub struct MemMaps {
    maps: BTreeMap<Path, Text>,
}

impl Model for MemMaps {
    ghost use Rattle.std.specs.Prelude.{List, ℕ};
    ghost use Rattle.std.specs.Coded.{coded_ℕ, coded_list};
    ghost use Rattle.std.specs.FinMap as finite;
    ghost use Rattle.std.specs.Ordering.{nat_cmp};
    ghost use Rattle.std.specs.Cmp.Lexicographic.{slice_cmp};

    ghost Value = { finite.FinMap (slice_cmp nat_cmp) (List ℕ) };

    ghost coded = { finite.code (coded_list coded_ℕ) (coded_list coded_ℕ) };

    ghost view = { λ a. finite.from_entries a.maps.entries };
}

impl MemMaps {
    pub fn new(alloc: Global) -> MemMaps
        ensures { result ≡ finite.empty }
    {
        MemMaps {
            maps: BTreeMap::new(alloc),
        }
    }

    pub fn insert(&mut self, path: Path, bytes: Text) -> Result<(), AllocError>
        ensures ok { OnOk result (self.new ≡ finite.insert self.old path bytes) }
        ensures err { OnErr result (self.new ≡ self.old) }
    {
        self.maps.insert(path, bytes)?;
        Ok(())
    }

    /// A copy of a map's bytes.
    pub fn bytes(&self, path: &Path) -> Result<Option<Text>, AllocError>
        ensures { IfOk result (λ copy. copy ≡ finite.get self.now path.now) }
    {
        let found = copied(self.maps.get(path))?;
        Ok(found)
    }
}
