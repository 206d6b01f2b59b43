//! The declarations of a module by their keys.
//!
//! Each declaration of a file has keys by which other declarations ask for it (`docs/LANGUAGE.md`). The
//! index answers which declarations have a key.
#![tactic(auto)]

mod declarations;
mod found;
mod index;
mod keys;
mod private_structs;
mod spots;

pub use declarations::declared_keys;
pub use dep_key::{Key, Keys, NoMemory};
pub use found::{Declared, Item};
pub use index::{DeclRef, Index};
pub use keys::is_private;
