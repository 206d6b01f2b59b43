//! How keys are printed.

ghost use Rattle.std.specs.Prelude.{◌≡◌, Some};
ghost use Rattle.dep_key.specs.Printed.{kind_word, printed_key};

use crate::{Key, Kind};
use std::fmt;

impl Kind {
    /// The word that is printed for the kind, as the dependency files of Swift's compiler have it.
    pub fn word(self) -> &'static str
        ensures { result.now ≡ kind_word self }
    {
        match self {
            Kind::TopLevel => "topLevel",
            Kind::Nominal => "nominal",
            Kind::PotentialMember => "potentialMember",
            Kind::Member => "member",
            Kind::DynamicLookup => "dynamicLookup",
            Kind::ExternalDepend => "externalDepend",
            Kind::SourceFileProvide => "sourceFileProvide",
        }
    }
}

/// The word of the kind, and those of the context and the name that are filled, parted by blanks.
impl fmt::Display for Key {
    ghost output = { λ key. Some (printed_key key) };

    fn fmt<W: fmt::Write>(&self, f: &mut fmt::Formatter<W>) -> fmt::Result {
        f.write_str(self.kind.word())?;
        if !self.context.as_str().is_empty() {
            f.write_str(" ")?;
            f.write_str(self.context.as_str())?;
        }
        if !self.name.as_str().is_empty() {
            f.write_str(" ")?;
            f.write_str(self.name.as_str())?;
        }
        Ok(())
    }
}
