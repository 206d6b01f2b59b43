ghost use Rattle.std.specs.Prelude.{◌≡◌};
ghost use Rattle.expr_check.specs.Messages.{place_of};

use swift_ast::Leaf;

/// Where a token begins in its file.
#[derive(Clone, Copy, Debug)]
pub struct Place {
    /// The line, from 1.
    pub line: u32,

    /// The byte of the line, from 1.
    pub column: u32,
}

impl Place {
    /// Where a token begins.
    pub fn of(token: &Leaf) -> Place
        ensures { result ≡ place_of token.now }
    {
        Place {
            line: token.line,
            column: token.column,
        }
    }
}
