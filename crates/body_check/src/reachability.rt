//! Whether what stands behind statements can be reached.

ghost use Rattle.std.specs.Prelude.{◌≡◌, ◌||◌, map};
ghost use Rattle.std.specs.List.{list_any};
ghost use Rattle.body_check.specs.Statements as spec;

use swift_ast::{Block, ElseIf, If, Stmt};

/// Whether what stands behind a block can be reached.
#[tactic(auto, using(crate::proofs::Reaching::on, crate::proofs::Reaching::stopped, crate::proofs::Reaching::through, crate::proofs::Reaching::block_through))]
#[cycle(reaching)]
pub fn falls_through(block: &Block) -> bool
    ensures { result ≡ spec.falls_through (spec.block_statements block.now) }
{
    let stmts = block.stmts.as_slice();
    for stmt in stmts {
        if !stmt_falls_through(stmt) {
            return false;
        }
    }
    true
}

#[tactic(auto, using(crate::proofs::Reaching::local_through, crate::proofs::Reaching::assign_through, crate::proofs::Reaching::return_through, crate::proofs::Reaching::if_stmt_through, crate::proofs::Reaching::while_through, crate::proofs::Reaching::call_through))]
#[cycle(reaching)]
fn stmt_falls_through(stmt: &Stmt) -> bool
    ensures { result ≡ (spec.stmt_meant stmt.now).falls_through }
{
    match stmt {
        Stmt::Local(_, _, _, _, _) => true,
        Stmt::Assign(_, _, _) => true,
        Stmt::Return(_, _) => false,
        Stmt::If(tree) => if_falls_through(tree),
        Stmt::While(_, _, _) => true,
        Stmt::Call(_) => true,
    }
}

/// Whether the block of one `else if` falls through.
#[tactic(auto, using(crate::proofs::Reaching::none_yet, crate::proofs::Reaching::one_does, crate::proofs::Reaching::none_does))]
#[cycle(reaching)]
fn one_falls_through(else_ifs: &[ElseIf]) -> bool
    ensures { result ≡ list_any (λ c. spec.falls_through c.block) (map spec.else_if_meant else_ifs.now) }
{
    for tree in else_ifs {
        if falls_through(&tree.block) {
            return true;
        }
    }
    false
}

/// Whether one of three is so.
fn one_of(first: bool, others: bool, last: bool) -> bool
    ensures { result ≡ ((first || others) || last) }
{
    (first || others) || last
}

#[tactic(auto, using(crate::proofs::Reaching::if_without_last, crate::proofs::Reaching::if_with_last))]
#[cycle(reaching)]
fn if_falls_through(tree: &If) -> bool
    ensures { result ≡ (spec.if_meant tree.now).falls_through }
{
    match &tree.last {
        None => true,
        Some((_, last)) => {
            let first = falls_through(&tree.block);
            let others = one_falls_through(tree.else_ifs.as_slice());
            let end = falls_through(last);
            one_of(first, others, end)
        }
    }
}
