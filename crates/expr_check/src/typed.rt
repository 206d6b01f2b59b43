use sqlite_items::Items;
use type_rules::Ty;
use typed_code::Step;

/// An expression that has no error inside: its type, and the steps that give its value.
#[derive(Drop)]
pub struct Typed {
    pub ty: Ty,
    pub code: Items<Step>,
}
