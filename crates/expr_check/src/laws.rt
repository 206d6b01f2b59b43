ghost use Rattle.expr_check.specs.Examples.{Worked};
ghost use Rattle.expr_check.specs.Laws.{SameMeaningsMakeTheSame};

/// What is said of an expression, what it means and what it asks depends on the meanings of the keys that it asks, and on nothing
/// else.
pub fn expression_laws()
    ensures { SameMeaningsMakeTheSame }
{}

/// Three expressions, worked out: two errors in one, an argument with a wrong label, and a chain of members.
pub fn worked_expressions()
    ensures { Worked }
{}
