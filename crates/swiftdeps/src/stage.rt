//! Which items may come next.

ghost use Rattle.std.specs.Prelude.{◌≡◌};
ghost use Rattle.swiftdeps.specs.Stages.{takes_block, takes_version, takes_identifier, takes_node, takes_print, takes_use, is_behind, takes_file, may_end, is_version};

use crate::fault::{DEPENDENCIES_VERSION, PRIORS_VERSION};

/// Which items may come next.
#[derive(Clone, Copy)]
pub enum Stage {
    /// The block.
    Start,
    /// The version.
    Version,
    /// An identifier, or what may follow the identifiers.
    Names,
    /// A node of a file that has none yet, or what may follow a file.
    Nodes,
    /// The fingerprint of a node.
    Print,
    /// A use of a node, or what may follow a node.
    Uses,
    /// Nothing but the end.
    Behind,
}

impl Stage {
    #[inline(always)]
    pub fn takes_block(self) -> bool
        ensures { result ≡ takes_block self }
    {
        matches!(self, Stage::Start)
    }

    #[inline(always)]
    pub fn takes_version(self) -> bool
        ensures { result ≡ takes_version self }
    {
        matches!(self, Stage::Version)
    }

    #[inline(always)]
    pub fn takes_identifier(self) -> bool
        ensures { result ≡ takes_identifier self }
    {
        matches!(self, Stage::Names)
    }

    #[inline(always)]
    pub fn takes_node(self) -> bool
        ensures { result ≡ takes_node self }
    {
        matches!(self, Stage::Nodes | Stage::Uses)
    }

    #[inline(always)]
    pub fn takes_print(self) -> bool
        ensures { result ≡ takes_print self }
    {
        matches!(self, Stage::Print)
    }

    #[inline(always)]
    pub fn takes_use(self) -> bool
        ensures { result ≡ takes_use self }
    {
        matches!(self, Stage::Uses)
    }

    #[inline(always)]
    pub fn is_behind(self) -> bool
        ensures { result ≡ is_behind self }
    {
        matches!(self, Stage::Behind)
    }

    /// Whether a file may follow, where there may be one file alone or several.
    #[inline(always)]
    pub fn takes_file(self, is_single: bool) -> bool
        ensures { result ≡ takes_file is_single self }
    {
        self.takes_identifier() || !is_single && self.takes_node()
    }

    /// Whether the block may end, where there must be one file or may be none.
    #[inline(always)]
    pub fn may_end(self, is_single: bool) -> bool
        ensures { result ≡ may_end is_single self }
    {
        self.takes_node() || !is_single && self.takes_identifier()
    }
}

/// Whether a text of this version can be read.
pub fn is_version(is_single: bool, version: u64) -> bool
    ensures { result ≡ is_version is_single version }
{
    version == DEPENDENCIES_VERSION || !is_single && version == PRIORS_VERSION
}
