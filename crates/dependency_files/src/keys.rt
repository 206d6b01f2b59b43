use dep_key::{Aspect, Key, Kind, Name};
use std::alloc::{AllocError, Global};

/// The interface of a name that is declared outside all types.
pub fn top_level(alloc: Global, name: &str) -> Result<Key, AllocError> {
    Ok(Key {
        kind: Kind::TopLevel,
        aspect: Aspect::Interface,
        context: Name::from_str(alloc, "")?,
        name: Name::from_str(alloc, name)?,
    })
}

/// The interface of a member of a type.
pub fn member(alloc: Global, context: &str, name: &str) -> Result<Key, AllocError> {
    Ok(Key {
        kind: Kind::Member,
        aspect: Aspect::Interface,
        context: Name::from_str(alloc, context)?,
        name: Name::from_str(alloc, name)?,
    })
}

/// What a source file itself needs.
pub fn source_file(alloc: Global, path: &str) -> Result<Key, AllocError> {
    Ok(Key {
        kind: Kind::SourceFileProvide,
        aspect: Aspect::Implementation,
        context: Name::from_str(alloc, "")?,
        name: Name::from_str(alloc, path)?,
    })
}
