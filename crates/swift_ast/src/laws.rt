ghost use Rattle.swift_ast.specs.Laws.{FileHasOneTree, ExpressionHasOneTree, BlockHasOneTree, FileClosesBrackets};

/// The grammar is unambiguous: no two well-formed trees of a file's declarations have the same tokens, nor
/// two expressions, nor two blocks. And a file's declarations close the brackets that they open, and
/// no more.
pub fn grammar_laws()
    ensures file { FileHasOneTree }
    ensures expression { ExpressionHasOneTree }
    ensures block { BlockHasOneTree }
    ensures brackets { FileClosesBrackets }
{}
