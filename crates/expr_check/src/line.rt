ghost use Rattle.std.specs.Prelude.{◌≡◌};
ghost use Rattle.std.proofs.Common.{rules};
ghost use Rattle.std.specs.Cmp.{partial_equiv_from_equiv, eq_by_cmp_equiv, partial_order_from_total};
ghost use Rattle.std.specs.Cmp.Rules.{comparing};
ghost use Rattle.std.specs.Ordering.{as_partial_cmp, eq_by_cmp};
ghost use Rattle.expr_check.specs.Messages.{line_order, line_order_total};

use dep_key::Text;
use std::cmp::Ordering;

/// An error: where the token that it names stands, and what is wrong there.
///
/// Errors are ordered by line, column and text.
#[derive(Debug, Drop)]
pub struct Line {
    pub line: u32,
    pub column: u32,
    pub text: Text,
}

impl PartialEq for Line {
    ghost eq = { eq_by_cmp line_order };

    ghost laws = { partial_equiv_from_equiv (eq_by_cmp_equiv line_order_total) };

    fn eq(&self, other: &Line) -> bool {
        self.cmp(other).is_eq()
    }
}

impl Eq for Line {
    ghost laws = { eq_by_cmp_equiv line_order_total };
}

impl Ord for Line {
    ghost cmp = { line_order };

    ghost total = { line_order_total };

    ghost matches_partial_cmp = { Prim.search (comparing, rules) };

    ghost matches_eq = { Prim.search (comparing, rules) };

    fn cmp(&self, other: &Line) -> Ordering {
        self.line
            .cmp(&other.line)
            .then(self.column.cmp(&other.column))
            .then(self.text.cmp(&other.text))
    }
}

impl PartialOrd for Line {
    ghost partial_cmp = { as_partial_cmp line_order };

    ghost laws = { partial_order_from_total line_order_total };

    fn partial_cmp(&self, other: &Line) -> Option<Ordering> {
        Some(self.cmp(other))
    }
}
