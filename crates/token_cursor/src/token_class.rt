ghost use Rattle.std.specs.Prelude.{◌≡◌};
ghost use Rattle.swift_ast.specs.Tests.{one_of, infix_operators, stmt_beginnings, decl_beginnings, struct_member_beginnings, extension_member_beginnings};
ghost use Rattle.token_cursor.specs.Reading.{test_of};

use swift_ast::Terminal;

/// What a rule asks of a token.
#[derive(Clone, Copy, Debug)]
pub enum TokenClass {
    /// The terminal.
    Is(Terminal),

    /// An operator before its operand.
    PrefixOperator,

    /// An operator between two operands.
    InfixOperator,

    /// The first token of what stands behind the atom of a postfix.
    BeginsPart,

    /// The bracket of arguments, on the line of what is called.
    OpensArgs,

    /// The first token of a statement.
    BeginsStmt,

    /// The same, on a line of its own.
    BeginsNextStmt,

    /// What stands behind `return` as the beginning of its value.
    BeginsValue,

    /// A parameter's first word.
    Label,

    /// The first token of a declaration on a line of its own.
    BeginsNextDecl,

    /// The first token of a struct's member.
    BeginsStructMember,

    /// The same, on a line of its own.
    BeginsNextStructMember,

    /// The first token of an extension's member.
    BeginsExtensionMember,

    /// The same, on a line of its own.
    BeginsNextExtensionMember,
}

/// Whether it is an operator between two operands.
fn is_infix_operator(terminal: Terminal) -> bool
    ensures { result ≡ one_of infix_operators terminal }
{
    matches!(
        terminal,
        Terminal::Equal
            | Terminal::NotEqual
            | Terminal::Less
            | Terminal::LessOrEqual
            | Terminal::Greater
            | Terminal::GreaterOrEqual
            | Terminal::Plus
            | Terminal::Minus
            | Terminal::Times
            | Terminal::Divide
            | Terminal::Remainder
            | Terminal::And
            | Terminal::Or
    )
}

/// Whether a statement begins so.
fn begins_stmt(terminal: Terminal) -> bool
    ensures { result ≡ one_of stmt_beginnings terminal }
{
    matches!(
        terminal,
        Terminal::Let
            | Terminal::Var
            | Terminal::Return
            | Terminal::If
            | Terminal::While
            | Terminal::Integer
            | Terminal::StringText
            | Terminal::True
            | Terminal::False
            | Terminal::Identifier
            | Terminal::SelfValue
            | Terminal::LeftParenthesis
    )
}

/// Whether a declaration begins so.
fn begins_decl(terminal: Terminal) -> bool
    ensures { result ≡ one_of decl_beginnings terminal }
{
    matches!(
        terminal,
        Terminal::Private
            | Terminal::Fileprivate
            | Terminal::Internal
            | Terminal::Public
            | Terminal::Let
            | Terminal::Var
            | Terminal::Func
            | Terminal::Struct
            | Terminal::Typealias
            | Terminal::Extension
    )
}

/// Whether a member of a struct begins so.
fn begins_struct_member(terminal: Terminal) -> bool
    ensures { result ≡ one_of struct_member_beginnings terminal }
{
    matches!(
        terminal,
        Terminal::Private
            | Terminal::Fileprivate
            | Terminal::Internal
            | Terminal::Public
            | Terminal::Let
            | Terminal::Var
            | Terminal::Func
    )
}

/// Whether a member of an extension begins so.
fn begins_extension_member(terminal: Terminal) -> bool
    ensures { result ≡ one_of extension_member_beginnings terminal }
{
    matches!(
        terminal,
        Terminal::Private
            | Terminal::Fileprivate
            | Terminal::Internal
            | Terminal::Public
            | Terminal::Var
            | Terminal::Func
    )
}

impl TokenClass {
    /// Whether a token of the terminal is of the test, first on its line or not.
    #[inline(always)]
    pub fn holds(self, terminal: Terminal, first_on_line: bool) -> bool
        ensures { result ≡ test_of self terminal first_on_line }
    {
        match self {
            TokenClass::Is(wanted) => terminal == wanted,
            TokenClass::PrefixOperator => matches!(terminal, Terminal::Minus | Terminal::Not),
            TokenClass::InfixOperator => is_infix_operator(terminal),
            TokenClass::BeginsPart => {
                terminal == Terminal::Dot
                    || (terminal == Terminal::LeftParenthesis && !first_on_line)
            }
            TokenClass::OpensArgs => terminal == Terminal::LeftParenthesis && !first_on_line,
            TokenClass::BeginsStmt => begins_stmt(terminal),
            TokenClass::BeginsNextStmt => begins_stmt(terminal) && first_on_line,
            TokenClass::BeginsValue => terminal != Terminal::RightBrace && !first_on_line,
            TokenClass::Label => matches!(terminal, Terminal::Identifier | Terminal::Wildcard),
            TokenClass::BeginsNextDecl => begins_decl(terminal) && first_on_line,
            TokenClass::BeginsStructMember => begins_struct_member(terminal),
            TokenClass::BeginsNextStructMember => begins_struct_member(terminal) && first_on_line,
            TokenClass::BeginsExtensionMember => begins_extension_member(terminal),
            TokenClass::BeginsNextExtensionMember => begins_extension_member(terminal)
                && first_on_line,
        }
    }
}
