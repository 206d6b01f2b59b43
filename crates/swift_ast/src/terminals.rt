ghost use Rattle.std.specs.Prelude.{◌≡◌, [], ◌∷◌};
ghost use Rattle.swift_ast.specs.Terminals.{keyword_terminal, mark_terminal, terminal_of};

use crate::TokenKind;

/// What a token is to the grammar.
#[derive(Clone, Copy, Debug, PartialEq, Eq)]
pub enum Terminal {
    Identifier,
    Integer,
    StringText,
    Let,
    Var,
    Func,
    Struct,
    Extension,
    Typealias,
    Return,
    If,
    Else,
    While,
    True,
    False,
    /// `self`
    SelfValue,
    Private,
    Fileprivate,
    Internal,
    Public,
    /// `_`
    Wildcard,
    /// `(`
    LeftParenthesis,
    /// `)`
    RightParenthesis,
    /// `{`
    LeftBrace,
    /// `}`
    RightBrace,
    Comma,
    Colon,
    /// `.`
    Dot,
    /// `->`
    Arrow,
    /// `=`
    Assign,
    /// `==`
    Equal,
    /// `!=`
    NotEqual,
    /// `<`
    Less,
    /// `<=`
    LessOrEqual,
    /// `>`
    Greater,
    /// `>=`
    GreaterOrEqual,
    /// `+`
    Plus,
    /// `-`
    Minus,
    /// `*`
    Times,
    /// `/`
    Divide,
    /// `%`
    Remainder,
    /// `&&`
    And,
    /// `||`
    Or,
    /// `!`
    Not,
    /// A token that no rule of the grammar has.
    Unused,
}

// The terminal of a keyword.
#[tactic(auto, unfolding(crate::specs::Terminals::keyword_terminal))]
fn keyword_terminal(text: &str) -> Terminal
    ensures { result ≡ keyword_terminal text.now }
{
    match text {
        "let" => Terminal::Let,
        "var" => Terminal::Var,
        "func" => Terminal::Func,
        "struct" => Terminal::Struct,
        "extension" => Terminal::Extension,
        "typealias" => Terminal::Typealias,
        "return" => Terminal::Return,
        "if" => Terminal::If,
        "else" => Terminal::Else,
        "while" => Terminal::While,
        "true" => Terminal::True,
        "false" => Terminal::False,
        "self" => Terminal::SelfValue,
        "private" => Terminal::Private,
        "fileprivate" => Terminal::Fileprivate,
        "internal" => Terminal::Internal,
        "public" => Terminal::Public,
        "_" => Terminal::Wildcard,
        _ => Terminal::Unused,
    }
}

// The terminal of a mark of one byte.
#[tactic(auto, unfolding(crate::specs::Terminals::mark_terminal))]
fn short_mark_terminal(byte: u8) -> Terminal
    ensures { result ≡ mark_terminal (byte ∷ []) }
{
    match byte {
        b'(' => Terminal::LeftParenthesis,
        b')' => Terminal::RightParenthesis,
        b'{' => Terminal::LeftBrace,
        b'}' => Terminal::RightBrace,
        b',' => Terminal::Comma,
        b':' => Terminal::Colon,
        b'.' => Terminal::Dot,
        b'=' => Terminal::Assign,
        b'<' => Terminal::Less,
        b'>' => Terminal::Greater,
        b'+' => Terminal::Plus,
        b'-' => Terminal::Minus,
        b'*' => Terminal::Times,
        b'/' => Terminal::Divide,
        b'%' => Terminal::Remainder,
        b'!' => Terminal::Not,
        _ => Terminal::Unused,
    }
}

// The terminal of a mark of two bytes.
#[tactic(auto, unfolding(crate::specs::Terminals::mark_terminal))]
fn long_mark_terminal(first: u8, second: u8) -> Terminal
    ensures { result ≡ mark_terminal (first ∷ (second ∷ [])) }
{
    match (first, second) {
        (b'-', b'>') => Terminal::Arrow,
        (b'=', b'=') => Terminal::Equal,
        (b'!', b'=') => Terminal::NotEqual,
        (b'<', b'=') => Terminal::LessOrEqual,
        (b'>', b'=') => Terminal::GreaterOrEqual,
        (b'&', b'&') => Terminal::And,
        (b'|', b'|') => Terminal::Or,
        _ => Terminal::Unused,
    }
}

// The terminal of a mark.
#[tactic(auto, unfolding(crate::specs::Terminals::mark_terminal))]
fn mark_terminal(text: &str) -> Terminal
    ensures { result ≡ mark_terminal text.now }
{
    match text.as_bytes() {
        [byte] => short_mark_terminal(*byte),
        [first, second] => long_mark_terminal(*first, *second),
        _ => Terminal::Unused,
    }
}

impl Terminal {
    /// What a token of the kind and with the text is to the grammar.
    pub fn of(kind: TokenKind, text: &str) -> Terminal
        ensures { result ≡ terminal_of kind text.now }
    {
        match kind {
            TokenKind::Identifier => Terminal::Identifier,
            TokenKind::Integer => Terminal::Integer,
            TokenKind::StringText => Terminal::StringText,
            TokenKind::Keyword => keyword_terminal(text),
            TokenKind::Mark => mark_terminal(text),
        }
    }
}
