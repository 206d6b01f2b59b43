//! Which parts of a key are filled.

ghost use Rattle.std.specs.Prelude.{◌≡◌};
ghost use Rattle.dep_key.specs.KeyShapes.{has_shape};

use crate::{Key, Kind};

impl Key {
    /// Whether the parts are filled that a key of this kind has, and the others are empty.
    pub fn has_shape(&self) -> bool
        ensures { result ≡ has_shape self.now }
    {
        let has_context = !self.context.as_str().is_empty();
        let has_name = !self.name.as_str().is_empty();
        match self.kind {
            Kind::TopLevel | Kind::DynamicLookup | Kind::ExternalDepend | Kind::SourceFileProvide =>
                !has_context && has_name,
            Kind::Nominal | Kind::PotentialMember => has_context && !has_name,
            Kind::Member => has_context && has_name,
        }
    }
}
