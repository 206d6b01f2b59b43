//! Statements in blocks.

ghost use Rattle.std.specs.Prelude.{◌≡◌, ◌++◌, List, [], ◌∷◌, map, Some, IfOk, OnOk};
ghost use Rattle.checks.specs.Logs.{made};
ghost use Rattle.expr_check.specs.Messages.{orders};
ghost use Rattle.expr_check.specs.Scopes.{leaving};
ghost use Rattle.expr_check.specs.Phrases.{expr_phrase};
ghost use Rattle.typed_code.specs.declared.step.Step.TheVariants as step;
ghost use Rattle.body_check.specs.Blocks.{surroundings};
ghost use Rattle.body_check.specs.Statements as spec;

use crate::blocks::{enter, leave};
use crate::control::{called, condition, returned};
use crate::locals::{is_var, read_local};
use crate::targets::assign;
use dep_key::NoMemory;
use expr_check::{Log, Scope, one_step};
use sqlite_items::Items;
use std::alloc::Global;
use swift_ast::{Block, ElseIf, Expr, If, Leaf, Stmt};
use type_rules::Answers;
use typed_code::{Branch, Step};

/// Code behind code, where both are there.
fn joined(
    code: Option<Items<Step>>,
    more: Option<Items<Step>>,
) -> Result<Option<Items<Step>>, NoMemory>
    ensures { IfOk result (λ got. got ≡ spec.of_both (λ a b. a ++ b) code more) }
{
    match code {
        None => Ok(None),
        Some(mut code) => match more {
            None => Ok(None),
            Some(more) => {
                code.append(more)?;
                Ok(Some(code))
            }
        },
    }
}

/// The code of a `while`, where both its condition and its block have code.
fn while_code(
    alloc: Global,
    condition: Option<Items<Step>>,
    block: Option<Items<Step>>,
) -> Result<Option<Items<Step>>, NoMemory>
    ensures { IfOk result (λ got. got ≡ spec.of_both (λ c b. step.While c b ∷ []) condition block) }
{
    match condition {
        None => Ok(None),
        Some(condition) => match block {
            None => Ok(None),
            Some(block) => {
                let code = one_step(alloc, Step::While(condition, block))?;
                Ok(Some(code))
            }
        },
    }
}

/// A branch, where both its condition and its block have code.
fn one_branch(condition: Option<Items<Step>>, block: Option<Items<Step>>) -> Option<Branch>
    ensures { result ≡ spec.of_both spec.branch condition block }
{
    match condition {
        None => None,
        Some(condition) => match block {
            None => None,
            Some(block) => Some(Branch { condition, block }),
        },
    }
}

/// Before the first branch.
fn no_branches(alloc: Global) -> Option<Items<Branch>>
    ensures { result ≡ Some [] }
{
    Some(Items::new(alloc))
}

/// Branches with one more, where all are there.
fn with_branch(
    branches: Option<Items<Branch>>,
    branch: Option<Branch>,
) -> Result<Option<Items<Branch>>, NoMemory>
    ensures { IfOk result (λ got. got ≡ spec.of_both (λ bs b. bs ++ b ∷ []) branches branch) }
{
    match branches {
        None => Ok(None),
        Some(mut branches) => match branch {
            None => Ok(None),
            Some(branch) => {
                branches.push(branch)?;
                Ok(Some(branches))
            }
        },
    }
}

/// The code of an `if`, where both its branches and its last `else` have code.
fn if_code(
    alloc: Global,
    branches: Option<Items<Branch>>,
    last: Option<Items<Step>>,
) -> Result<Option<Items<Step>>, NoMemory>
    ensures { IfOk result (λ got. got ≡ spec.of_both (λ bs l. step.If bs l ∷ []) branches last) }
{
    match branches {
        None => Ok(None),
        Some(branches) => match last {
            None => Ok(None),
            Some(last) => {
                let code = one_step(alloc, Step::If(branches, last))?;
                Ok(Some(code))
            }
        },
    }
}

/// Reads statements in a row, each in the scope behind the one before.
#[tactic(auto, using(crate::proofs::Rows::row_turn, crate::proofs::Rows::row_end))]
#[cycle(statements)]
fn read_row<A: Answers>(
    alloc: Global,
    answers: &A,
    log: &mut Log,
    scope: &mut Scope,
    stmts: &[Stmt],
) -> Result<Option<Items<Step>>, NoMemory>
    ensures reads { IfOk result (λ code. (Some (scope.new, code), log.new) ≡ made orders (A.meanings answers.now) (spec.row_behind (Some []) (map spec.stmt_meant stmts.now) scope.old) log.old) }
    ensures stays { OnOk result (surroundings scope.new ≡ surroundings scope.old) }
{
    let mut code = Some(Items::new(alloc));
    for stmt in stmts {
        let more = read_stmt(alloc, answers, log, scope, stmt)?;
        code = joined(code, more)?;
    }
    Ok(code)
}

/// Reads a block.
#[tactic(auto, using(crate::proofs::Rows::block_meant, crate::proofs::BlockLemmas::left_alone))]
#[cycle(statements)]
pub fn read_block<A: Answers>(
    alloc: Global,
    answers: &A,
    log: &mut Log,
    scope: &mut Scope,
    block: &Block,
) -> Result<Option<Items<Step>>, NoMemory>
    ensures reads { IfOk result (λ code. (Some (scope.new, code), log.new) ≡ made orders (A.meanings answers.now) (spec.in_block (spec.block_statements block.now) scope.old) log.old) }
    ensures stays { OnOk result (scope.new ≡ leaving scope.old scope.new) }
{
    enter(alloc, scope)?;
    let code = read_row(alloc, answers, log, scope, block.stmts.as_slice())?;
    leave(scope);
    Ok(code)
}

/// Reads a `while`.
#[tactic(auto, using(expr_check::proofs::CheckLaws::bind, crate::proofs::Making::tried_made, crate::proofs::BlockLemmas::stays_inside))]
#[cycle(statements)]
fn read_while<A: Answers>(
    alloc: Global,
    answers: &A,
    log: &mut Log,
    scope: &mut Scope,
    block: &Block,
    value: &Expr,
) -> Result<Option<Items<Step>>, NoMemory>
    ensures reads { IfOk result (λ code. (Some (scope.new, code), log.new) ≡ made orders (A.meanings answers.now) (spec.while_read (expr_phrase value.now) (spec.block_statements block.now) scope.old) log.old) }
    ensures stays { OnOk result (surroundings scope.new ≡ surroundings scope.old) }
{
    let first = condition(alloc, answers, log, scope, value)?;
    let inside = read_block(alloc, answers, log, scope, block)?;
    let code = while_code(alloc, first, inside)?;
    Ok(code)
}

/// Reads a condition and its block, behind some branches.
#[tactic(auto, using(crate::proofs::Rows::clause_made, crate::proofs::BlockLemmas::stays_inside))]
#[cycle(statements)]
fn read_clause<A: Answers>(
    alloc: Global,
    answers: &A,
    log: &mut Log,
    scope: &mut Scope,
    block: &Block,
    value: &Expr,
    branches: Option<Items<Branch>>,
) -> Result<Option<Items<Branch>>, NoMemory>
    ensures reads { IfOk result (λ got. (others : List spec.Clause) → made orders (A.meanings answers.now) (spec.clauses_behind branches (spec.clause (expr_phrase value.now) (spec.block_statements block.now) ∷ others) scope.old) log.old ≡ made orders (A.meanings answers.now) (spec.clauses_behind got others scope.new) log.new) }
    ensures stays { OnOk result (surroundings scope.new ≡ surroundings scope.old) }
{
    let first = condition(alloc, answers, log, scope, value)?;
    let inside = read_block(alloc, answers, log, scope, block)?;
    let one = one_branch(first, inside);
    let branches = with_branch(branches, one)?;
    Ok(branches)
}

/// Reads each `else if`, behind some branches.
#[tactic(auto, using(crate::proofs::Rows::clauses_turn, crate::proofs::Rows::clauses_end))]
#[cycle(statements)]
fn read_else_ifs<A: Answers>(
    alloc: Global,
    answers: &A,
    log: &mut Log,
    scope: &mut Scope,
    else_ifs: &[ElseIf],
    first: Option<Items<Branch>>,
) -> Result<Option<Items<Branch>>, NoMemory>
    ensures reads { IfOk result (λ got. (Some (scope.new, got), log.new) ≡ made orders (A.meanings answers.now) (spec.clauses_behind first (map spec.else_if_meant else_ifs.now) scope.old) log.old) }
    ensures stays { OnOk result (surroundings scope.new ≡ surroundings scope.old) }
{
    let mut branches = first;
    for tree in else_ifs {
        branches = read_clause(
            alloc,
            answers,
            log,
            scope,
            &tree.block,
            &tree.condition,
            branches,
        )?;
    }
    Ok(branches)
}

/// Reads the block of a last `else`, if there is one.
#[tactic(auto, using(crate::proofs::BlockLemmas::stays_inside))]
#[cycle(statements)]
fn read_last<A: Answers>(
    alloc: Global,
    answers: &A,
    log: &mut Log,
    scope: &mut Scope,
    last: &Option<(Leaf, Block)>,
) -> Result<Option<Items<Step>>, NoMemory>
    ensures reads { IfOk result (λ code. (Some (scope.new, code), log.new) ≡ made orders (A.meanings answers.now) (spec.in_block (spec.last_statements last.now) scope.old) log.old) }
    ensures stays { OnOk result (surroundings scope.new ≡ surroundings scope.old) }
{
    match last {
        None => Ok(Some(Items::new(alloc))),
        Some((_, block)) => {
            let code = read_block(alloc, answers, log, scope, block)?;
            Ok(code)
        }
    }
}

/// Reads an `if`.
#[tactic(auto, using(crate::proofs::Rows::if_made))]
#[cycle(statements)]
fn read_if<A: Answers>(
    alloc: Global,
    answers: &A,
    log: &mut Log,
    scope: &mut Scope,
    tree: &If,
) -> Result<Option<Items<Step>>, NoMemory>
    ensures reads { IfOk result (λ code. (Some (scope.new, code), log.new) ≡ made orders (A.meanings answers.now) ((spec.if_meant tree.now).read scope.old) log.old) }
    ensures stays { OnOk result (surroundings scope.new ≡ surroundings scope.old) }
{
    let before = no_branches(alloc);
    let first = read_clause(
        alloc,
        answers,
        log,
        scope,
        &tree.block,
        &tree.condition,
        before,
    )?;
    let branches = read_else_ifs(alloc, answers, log, scope, tree.else_ifs.as_slice(), first)?;
    let last = read_last(alloc, answers, log, scope, &tree.last)?;
    let code = if_code(alloc, branches, last)?;
    Ok(code)
}

/// Reads a statement: what it declares stands in the scope behind it.
#[tactic(auto, using(crate::proofs::Rows::local_stmt, crate::proofs::Rows::assign_stmt, crate::proofs::Rows::return_stmt, crate::proofs::Rows::if_stmt, crate::proofs::Rows::while_stmt, crate::proofs::Rows::call_stmt))]
#[cycle(statements)]
fn read_stmt<A: Answers>(
    alloc: Global,
    answers: &A,
    log: &mut Log,
    scope: &mut Scope,
    stmt: &Stmt,
) -> Result<Option<Items<Step>>, NoMemory>
    ensures reads { IfOk result (λ code. (Some (scope.new, code), log.new) ≡ made orders (A.meanings answers.now) ((spec.stmt_meant stmt.now).read scope.old) log.old) }
    ensures stays { OnOk result (surroundings scope.new ≡ surroundings scope.old) }
{
    match stmt {
        Stmt::Local(specifier, name, annotation, _, value) => {
            let mutable = is_var(specifier);
            let code = read_local(alloc, answers, log, scope, mutable, name, annotation, value)?;
            Ok(code)
        }
        Stmt::Assign(target, _, value) => {
            let code = assign(alloc, answers, log, scope, target, value)?;
            Ok(code)
        }
        Stmt::Return(keyword, value) => {
            let code = returned(alloc, answers, log, scope, keyword, value)?;
            Ok(code)
        }
        Stmt::If(tree) => {
            let code = read_if(alloc, answers, log, scope, tree)?;
            Ok(code)
        }
        Stmt::While(_, value, block) => {
            let code = read_while(alloc, answers, log, scope, block, value)?;
            Ok(code)
        }
        Stmt::Call(call) => {
            let code = called(alloc, answers, log, scope, &call.postfix)?;
            Ok(code)
        }
    }
}
