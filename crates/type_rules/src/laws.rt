//! Laws of types and operators. Each function's contract is the law; it does nothing when it runs.

ghost use Rattle.std.specs.Prelude.{◌≡◌, ◌↔◌, ℕ, List, Some, IsTrue};
ghost use Rattle.std.specs.List.{Contains};
ghost use Rattle.type_rules.specs.declared.ty.Ty.{Ty};
ghost use Rattle.type_rules.specs.declared.meaning.Meaning.{Meaning};
ghost use Rattle.type_rules.specs.Sameness.{same_type, same_meaning};
ghost use Rattle.type_rules.specs.Operators.{row, binary_rows, unary_rows, binary_type, unary_type};

/// Types that compare as equal are one type.
pub fn types_equal_or_differ()
    ensures { (a b : Ty) → IsTrue (same_type a b) ↔ (a ≡ b) }
{}

/// Meanings that compare as equal are one meaning.
pub fn meanings_equal_or_differ()
    ensures { (a b : Meaning) → IsTrue (same_meaning a b) ↔ (a ≡ b) }
{}

/// An operator gives a type exactly where the table has a row that says so, and both operands of a binary
/// operator have the type of that row.
pub fn operators_are_rows()
    ensures binary { (operator : List ℕ) (left right given : Ty) → (binary_type operator left right ≡ Some given) ↔ ((left ≡ right) × Contains binary_rows (row operator left given)) }
    ensures unary { (operator : List ℕ) (operand given : Ty) → (unary_type operator operand ≡ Some given) ↔ Contains unary_rows (row operator operand given) }
{}
