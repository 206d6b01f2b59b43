ghost use Rattle.std.specs.Prelude.{◌≡◌, [], nat_eq, string_bytes, IfOk};
ghost use Rattle.std.proofs.Common.{rules};
ghost use Rattle.std.specs.Cmp.{partial_order_from_own_ties};
ghost use Rattle.std.specs.Cmp.Rules.{comparing};
ghost use Rattle.std.specs.Cmp.Lexicographic.{pointwise, slice_cmp};
ghost use Rattle.std.specs.Ordering.{nat_cmp, as_partial_cmp};

use arrayvec::ArrayString;
use std::alloc::{AllocError, Global};
use std::cmp::Ordering;
use std::marker::Model;
use std::sync::ArcStr;

/// How many bytes stand in the value itself.
const INLINE_BYTES: usize = 16;

/// Characters whose copies take no memory: few stand in the value itself, and more are shared by all
/// copies. Contracts see the list of their bytes.
#[derive(Debug, Drop)]
pub struct CompactCharacters {
    kept: Kept,
}

/// Where characters are kept.
#[derive(Debug, Drop)]
enum Kept {
    Inline(ArrayString<INLINE_BYTES>),
    Shared(ArcStr),
}

impl Model for CompactCharacters {
    ghost use Rattle.std.specs.Prelude.{List, ℕ};
    ghost use Rattle.dep_key.specs.Characters.{bytes_kept};

    ghost Value = { List ℕ };

    ghost view = { λ t. bytes_kept t.kept };
}

impl CompactCharacters {
    /// No characters, which takes no memory.
    pub fn new() -> CompactCharacters
        ensures { result ≡ [] }
    {
        CompactCharacters {
            kept: Kept::Inline(ArrayString::new()),
        }
    }

    /// The characters of a string.
    pub fn from_string(text: String) -> Result<CompactCharacters, AllocError>
        ensures { IfOk result (λ made. made ≡ string_bytes text) }
    {
        if let Ok(few) = ArrayString::from(text.as_str()) {
            return Ok(CompactCharacters {
                kept: Kept::Inline(few),
            });
        }
        let shared = ArcStr::from_string(text)?;
        Ok(CompactCharacters {
            kept: Kept::Shared(shared),
        })
    }

    /// A copy of a string slice.
    pub fn from_str(alloc: Global, text: &str) -> Result<CompactCharacters, AllocError>
        ensures { IfOk result (λ made. made ≡ text.now) }
    {
        if let Ok(few) = ArrayString::from(text) {
            return Ok(CompactCharacters {
                kept: Kept::Inline(few),
            });
        }
        let shared = ArcStr::from_str(alloc, text)?;
        Ok(CompactCharacters {
            kept: Kept::Shared(shared),
        })
    }

    #[inline(always)]
    pub fn as_str(&self) -> &str
        ensures { result.now ≡ self.now }
    {
        match &self.kept {
            Kept::Inline(few) => few.as_str(),
            Kept::Shared(shared) => shared.as_str(),
        }
    }
}

impl Clone for CompactCharacters {
    ghost is_clone = { λ text copy. copy ≡ text };

    #[inline(always)]
    fn clone(&self) -> Result<CompactCharacters, AllocError> {
        match &self.kept {
            Kept::Inline(few) => Ok(CompactCharacters {
                kept: Kept::Inline(*few),
            }),
            Kept::Shared(shared) => {
                let shared = shared.clone()?;
                Ok(CompactCharacters {
                    kept: Kept::Shared(shared),
                })
            }
        }
    }
}

impl PartialEq for CompactCharacters {
    ghost eq = { pointwise nat_eq };

    ghost laws = { Prim.search (comparing, rules) };

    fn eq(&self, other: &CompactCharacters) -> bool {
        self.as_str() == other.as_str()
    }
}

impl Eq for CompactCharacters {
    ghost laws = { Prim.search (comparing, rules) };
}

impl Ord for CompactCharacters {
    ghost cmp = { slice_cmp nat_cmp };

    ghost total = { Prim.search (comparing, rules) };

    ghost matches_partial_cmp = { Prim.search (comparing, rules) };

    ghost matches_eq = { Prim.search (comparing, rules) };

    fn cmp(&self, other: &CompactCharacters) -> Ordering {
        self.as_str().cmp(other.as_str())
    }
}

impl PartialOrd for CompactCharacters {
    ghost partial_cmp = { as_partial_cmp (slice_cmp nat_cmp) };

    ghost laws = { partial_order_from_own_ties (Prim.search (comparing, rules)) (Prim.search (comparing, rules)) };

    fn partial_cmp(&self, other: &CompactCharacters) -> Option<Ordering> {
        Some(self.as_str().cmp(other.as_str()))
    }
}
