use dep_key::Name;
use expr_check::{Place, Typed};

/// An argument that has a type.
#[derive(Drop)]
pub struct Given {
    /// Its label, and `_` where it has none.
    pub label: Name,

    /// Where it begins.
    pub first: Place,
    pub value: Typed,
}
