use crate::Local;
use dep_key::Key;
use type_rules::Ty;

/// What a name in scope stands for.
#[derive(Debug, Drop)]
pub enum Named {
    /// A parameter or a local.
    Local(Local),

    /// A global: its key, whether it may be assigned to, and its type.
    Global(Key, bool, Ty),

    /// A member of `self`: its key, whether it may be assigned to, and its type.
    OfSelf(Key, bool, Ty),
}
