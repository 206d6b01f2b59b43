ghost use Rattle.std.specs.Prelude.{◌≡◌, [], string_bytes, IfOk};
ghost use Rattle.std.proofs.Common.{rules};
ghost use Rattle.std.specs.Cmp.Rules.{hashing};
ghost use Rattle.std.specs.Hash as fed;

use crate::byte_list::ByteList;
use crate::characters::Characters;
use crate::compact_characters::CompactCharacters;
use std::alloc::{AllocError, Global};
use std::hash::{Hash, Hasher};
use std::marker::Model;

/// The path of a source file below the project folder, with `/` between components.
///
/// Contracts see a path as the list of its bytes, which are UTF-8.
#[derive(Clone, Debug, Drop, PartialEq, Eq, PartialOrd, Ord)]
pub struct Path {
    text: Characters,
}

impl Model for Path {
    ghost use Rattle.std.specs.Prelude.{List, ℕ};

    ghost Value = { List ℕ };

    ghost view = { λ p. p.text };

    ghost inverse = { λ text. record { text = text } };
}

impl Path {
    /// The characters of a string, which takes no memory.
    pub fn from_string(text: String) -> Path
        ensures { result ≡ string_bytes text }
    {
        Path {
            text: Characters::from_string(text),
        }
    }

    /// A copy of a string slice.
    pub fn from_str(alloc: Global, text: &str) -> Result<Path, AllocError>
        ensures { IfOk result (λ made. made ≡ text.now) }
    {
        Ok(Path::from_string(String::from_str(alloc, text)?))
    }

    /// The string, which takes no memory.
    pub fn into_string(self) -> String
        ensures { string_bytes result ≡ self }
    {
        let Path { text } = self;
        text.into_string()
    }

    /// The string as a slice.
    pub fn as_str(&self) -> &str
        ensures { result.now ≡ self.now }
    {
        self.text.as_str()
    }
}

/// The name of a file in the build folder, or a name that a source declares.
///
/// A copy of a name takes no memory: up to 16 bytes stand in the name itself, and the characters of a
/// longer one are shared by its copies. Contracts see a name as the list of its bytes, which are UTF-8.
#[derive(Clone, Debug, Drop, PartialEq, Eq, PartialOrd, Ord)]
pub struct Name {
    text: CompactCharacters,
}

impl Model for Name {
    ghost use Rattle.std.specs.Prelude.{List, ℕ};

    ghost Value = { List ℕ };

    ghost view = { λ p. p.text };

    ghost inverse = { λ text. record { text = text } };
}

impl Name {
    /// The empty name, which takes no memory.
    pub fn new() -> Name
        ensures { result ≡ [] }
    {
        Name {
            text: CompactCharacters::new(),
        }
    }

    /// The characters of a string.
    pub fn from_string(text: String) -> Result<Name, AllocError>
        ensures { IfOk result (λ made. made ≡ string_bytes text) }
    {
        let text = CompactCharacters::from_string(text)?;
        Ok(Name { text })
    }

    /// A copy of a string slice.
    pub fn from_str(alloc: Global, text: &str) -> Result<Name, AllocError>
        ensures { IfOk result (λ made. made ≡ text.now) }
    {
        let text = CompactCharacters::from_str(alloc, text)?;
        Ok(Name { text })
    }

    /// The string as a slice.
    pub fn as_str(&self) -> &str
        ensures { result.now ≡ self.now }
    {
        self.text.as_str()
    }
}

impl Hash for Name {
    ghost hash_input = { λ name. fed.str name };

    ghost respects_eq = { Prim.search (hashing, rules) };

    fn hash<H: Hasher>(&self, state: &mut H) {
        self.as_str().hash(state);
    }
}

/// Any bytes: the content of a file, a word of a command line, or a printed text.
///
/// Contracts see a text as the list of its bytes.
#[derive(Clone, Debug, Drop, PartialEq, Eq, PartialOrd, Ord)]
pub struct Text {
    bytes: ByteList,
}

impl Model for Text {
    ghost use Rattle.std.specs.Prelude.{List, ℕ};

    ghost Value = { List ℕ };

    ghost view = { λ p. p.bytes };

    ghost inverse = { λ bytes. record { bytes = bytes } };
}

impl Text {
    /// The bytes of a vector, which takes no memory.
    pub fn from_vec(bytes: Vec<u8>) -> Text
        ensures { result ≡ bytes.items }
    {
        Text {
            bytes: ByteList::from_vec(bytes),
        }
    }

    /// A copy of a slice of bytes.
    pub fn from_slice(alloc: Global, bytes: &[u8]) -> Result<Text, AllocError>
        ensures { IfOk result (λ made. made ≡ bytes.now) }
    {
        Ok(Text::from_vec(bytes.to_vec(alloc)?))
    }

    /// The vector, which takes no memory.
    pub fn into_vec(self) -> Vec<u8>
        ensures { result.items ≡ self }
    {
        let Text { bytes } = self;
        bytes.into_vec()
    }

    /// The bytes as a slice.
    pub fn as_slice(&self) -> &[u8]
        ensures { result.now ≡ self.now }
    {
        self.bytes.as_slice()
    }
}
