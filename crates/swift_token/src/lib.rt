//! The lexical grammar of the Swift subset: what a token is, and the lists of tokens that spell a text.
#![tactic(auto)]

mod characters;
mod comments;
mod faults;
mod identifiers;
mod lexemes;
mod lexer;
mod limits;
mod marks;
mod next_lexeme;
mod positions;
mod strings;
mod trivia;

pub use faults::{LexEnd, LexFault, LexWhat};
pub use identifiers::{begins_word, is_identifier, is_keyword, is_word, is_word_byte};
pub use lexemes::{blanks_len, is_blank, is_integer, word_len};
pub use lexer::{is_first_on_line, tokens};
pub use limits::MAX_FILE_BYTES;
pub use positions::Position;
pub use swift_ast::{Token, TokenKind};

#[cfg(test)]
mod tests;
