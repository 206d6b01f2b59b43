use crate::{LexFault, Text};

/// Why a source file has no tree.
#[derive(Debug, Drop)]
pub enum ParseFault {
    /// The file has more than `MAX_FILE_BYTES` bytes.
    TooLarge,

    /// The file is not UTF-8.
    NotUtf8,

    /// The first lexical fault.
    Lex(LexFault),

    /// The first token that no file of the grammar has behind the tokens before it; at the end of the
    /// file, where one more token is owed, the token is empty, and its place is behind the last byte.
    Unexpected { line: u32, column: u32, token: Text },

    /// The first bracket that opens a level above `MAX_LEVELS`.
    TooDeep { line: u32, column: u32 },

    /// Memory was wanted and not there.
    NoMemory,
}
