//! The key of each kind, and the names in keys.

ghost use Rattle.std.specs.Prelude.{◌≡◌, IfOk};
ghost use Rattle.dep_key.specs.KeyBuilders.{top_level, nominal, potential_member, member, external_depend, source_file, key_name};

use crate::{Aspect, Key, Kind, Name};
use std::alloc::{AllocError, Global};

impl Key {
    /// The interface of a name that is declared outside all types.
    pub fn top_level(name: Name) -> Key
        ensures { result ≡ top_level name }
    {
        Key {
            kind: Kind::TopLevel,
            aspect: Aspect::Interface,
            context: Name::new(),
            name,
        }
    }

    /// The stored parts of a type.
    pub fn nominal(context: Name) -> Key
        ensures { result ≡ nominal context }
    {
        Key {
            kind: Kind::Nominal,
            aspect: Aspect::Interface,
            context,
            name: Name::new(),
        }
    }

    /// That a type may have members.
    pub fn potential_member(context: Name) -> Key
        ensures { result ≡ potential_member context }
    {
        Key {
            kind: Kind::PotentialMember,
            aspect: Aspect::Interface,
            context,
            name: Name::new(),
        }
    }

    /// The interface of a member of a type.
    pub fn member(context: Name, name: Name) -> Key
        ensures { result ≡ member context name }
    {
        Key {
            kind: Kind::Member,
            aspect: Aspect::Interface,
            context,
            name,
        }
    }

    /// The interface of a file outside the module.
    pub fn external_depend(name: Name) -> Key
        ensures { result ≡ external_depend name }
    {
        Key {
            kind: Kind::ExternalDepend,
            aspect: Aspect::Interface,
            context: Name::new(),
            name,
        }
    }

    /// What the source file of a path itself needs.
    pub fn source_file(alloc: Global, path: &str) -> Result<Key, AllocError>
        ensures { IfOk result (λ key. key ≡ source_file path.now) }
    {
        let name = Name::from_str(alloc, path)?;
        Ok(Key {
            kind: Kind::SourceFileProvide,
            aspect: Aspect::Implementation,
            context: Name::new(),
            name,
        })
    }
}

/// The name by which a declaration of the file of a path is known in the module; of a private one, that
/// its file alone sees, with the path behind it.
pub fn key_name(alloc: Global, path: &str, is_private: bool, name: &str) -> Result<Name, AllocError>
    ensures { IfOk result (λ made. made ≡ key_name path.now is_private name.now) }
{
    if is_private {
        let text = format!(in alloc; "{name}@{path}")?;
        let name = Name::from_string(text)?;
        return Ok(name);
    }
    let name = Name::from_str(alloc, name)?;
    Ok(name)
}
