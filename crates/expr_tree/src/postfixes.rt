//! Literals, operands and what stands behind an atom, where the parts are checked.

ghost use Rattle.std.specs.Prelude.{◌≡◌, [], ◌∷◌, IfOk};
ghost use Rattle.checks.specs.Checks.{go_on, on_value, paired};
ghost use Rattle.checks.specs.Logs.{made};
ghost use Rattle.type_rules.specs.declared.ty.Ty.TheVariants as ty;
ghost use Rattle.typed_code.specs.declared.step.Step.TheVariants as step;
ghost use Rattle.expr_check.specs.Messages.{orders, place_of};
ghost use Rattle.expr_check.specs.Expressions as spec;
ghost use Rattle.expr_check.specs.Phrases as phrases;
ghost use Rattle.expr_tree.specs.Callees.{called_view};
ghost use Rattle.expr_tree.specs.Fronts.{front_view};

use crate::callee::Callee;
use crate::callees::{callee_named, method_named};
use crate::front::Front;
use dep_key::{NoMemory, Text};
use expr_check::{
    Log, Place, Scope, Typed, binary, member_named, member_value, name_check, one_step, unary,
};
use std::alloc::Global;
use swift_ast::{Atom, CmpOperator, Expr, Leaf, Prefix, ProductOperator, SumOperator};
use type_rules::{Answers, Ty};
use typed_code::Step;

/// The token of an operator that compares.
pub fn cmp_operator_token(operator: &CmpOperator) -> &Leaf
    ensures { result.now ≡ phrases.cmp_operator_token operator.now }
{
    match operator {
        CmpOperator::Equal(t) => t,
        CmpOperator::NotEqual(t) => t,
        CmpOperator::Less(t) => t,
        CmpOperator::LessOrEqual(t) => t,
        CmpOperator::Greater(t) => t,
        CmpOperator::GreaterOrEqual(t) => t,
    }
}

/// The token of an operator of a sum.
pub fn sum_operator_token(operator: &SumOperator) -> &Leaf
    ensures { result.now ≡ phrases.sum_operator_token operator.now }
{
    match operator {
        SumOperator::Plus(t) => t,
        SumOperator::Minus(t) => t,
    }
}

/// The token of an operator of a product.
pub fn product_operator_token(operator: &ProductOperator) -> &Leaf
    ensures { result.now ≡ phrases.product_operator_token operator.now }
{
    match operator {
        ProductOperator::Times(t) => t,
        ProductOperator::Divide(t) => t,
        ProductOperator::Remainder(t) => t,
    }
}

/// An operator between two operands, where both have a value.
pub fn operated<A: Answers>(
    alloc: Global,
    answers: &A,
    log: &mut Log,
    t: &Leaf,
    left: Option<Typed>,
    right: Option<Typed>,
) -> Result<Option<Typed>, NoMemory>
    ensures { IfOk result (λ got. (got, log.new) ≡ made orders (A.meanings answers.now) (on_value (paired left right) (spec.binary t.now)) log.old) }
{
    match left {
        None => Ok(None),
        Some(left) => match right {
            None => Ok(None),
            Some(right) => {
                let value = binary(alloc, answers, log, t, left, right)?;
                Ok(value)
            }
        },
    }
}

/// An operator before an operand, where that has a value.
pub fn signed<A: Answers>(
    alloc: Global,
    answers: &A,
    log: &mut Log,
    t: &Leaf,
    operand: Option<Typed>,
) -> Result<Option<Typed>, NoMemory>
    ensures { IfOk result (λ got. (got, log.new) ≡ made orders (A.meanings answers.now) (on_value operand (spec.unary t.now)) log.old) }
{
    match operand {
        None => Ok(None),
        Some(operand) => {
            let value = unary(alloc, answers, log, t, operand)?;
            Ok(value)
        }
    }
}

/// A literal.
fn literal(alloc: Global, ty: Ty, step: Step) -> Result<Typed, NoMemory>
    ensures { IfOk result (λ v. v ≡ spec.typed ty (step ∷ [])) }
{
    let code = one_step(alloc, step)?;
    Ok(Typed { ty, code })
}

/// An integer.
pub fn integer(alloc: Global, t: &Leaf) -> Result<Typed, NoMemory>
    ensures { IfOk result (λ v. v ≡ spec.typed ty.Int (step.Integer t.now.text ∷ [])) }
{
    let text = Text::from_slice(alloc, t.text.as_str().as_bytes())?;
    let value = literal(alloc, Ty::Int, Step::Integer(text))?;
    Ok(value)
}

/// A string.
pub fn string(alloc: Global, t: &Leaf) -> Result<Typed, NoMemory>
    ensures { IfOk result (λ v. v ≡ spec.typed ty.String (step.StringText t.now.text ∷ [])) }
{
    let text = Text::from_slice(alloc, t.text.as_str().as_bytes())?;
    let value = literal(alloc, Ty::String, Step::StringText(text))?;
    Ok(value)
}

/// `true` or `false`.
pub fn truth(alloc: Global, value: bool) -> Result<Typed, NoMemory>
    ensures { IfOk result (λ v. v ≡ spec.typed ty.Bool (step.Truth value ∷ [])) }
{
    let value = literal(alloc, Ty::Bool, Step::Truth(value))?;
    Ok(value)
}

/// A member of a value as a value.
#[tactic(auto, using(crate::proofs::CheckLaws::bind))]
fn member_of<A: Answers>(
    alloc: Global,
    answers: &A,
    log: &mut Log,
    scope: &Scope,
    first: Place,
    m: &Leaf,
    base: Typed,
) -> Result<Option<Typed>, NoMemory>
    ensures { IfOk result (λ got. (got, log.new) ≡ made orders (A.meanings answers.now) (go_on (spec.member_named scope.now base.ty m.now) (λ found. spec.member_value scope.now first m.now base found)) log.old) }
{
    match member_named(alloc, answers, log, scope, &base.ty, m)? {
        None => Ok(None),
        Some(found) => {
            let value = member_value(alloc, answers, log, scope, first, m, base, found)?;
            Ok(value)
        }
    }
}

/// A member of a value as a value, where there is a value.
fn member_if<A: Answers>(
    alloc: Global,
    answers: &A,
    log: &mut Log,
    scope: &Scope,
    first: Place,
    m: &Leaf,
    base: Option<Typed>,
) -> Result<Option<Typed>, NoMemory>
    ensures { IfOk result (λ got. (got, log.new) ≡ made orders (A.meanings answers.now) (on_value base (λ base. go_on (spec.member_named scope.now base.ty m.now) (λ found. spec.member_value scope.now first m.now base found))) log.old) }
{
    match base {
        None => Ok(None),
        Some(base) => {
            let value = member_of(alloc, answers, log, scope, first, m, base)?;
            Ok(value)
        }
    }
}

/// What stands before a part, as a value.
#[tactic(auto, using(crate::proofs::MemberLemmas::member_is_made))]
pub fn as_value<A: Answers>(
    alloc: Global,
    answers: &A,
    log: &mut Log,
    scope: &Scope,
    first: &Leaf,
    front: Front<'_>,
) -> Result<Option<Typed>, NoMemory>
    ensures { IfOk result (λ got. (got, log.new) ≡ made orders (A.meanings answers.now) (phrases.as_value scope.now first.now (front_view front.entry)) log.old) }
{
    match front {
        Front::Value(value) => Ok(value),
        Front::Name(t) => {
            let value = name_check(alloc, answers, log, scope, t)?;
            Ok(value)
        }
        Front::MemberOf(base, m) => {
            let at = Place::of(first);
            let value = member_if(alloc, answers, log, scope, at, m, base)?;
            Ok(value)
        }
    }
}

/// What stands before arguments, as what is called.
#[tactic(auto, using(crate::proofs::Chains::callee_of_value, crate::proofs::Chains::callee_of_member))]
pub fn as_callee<A: Answers>(
    alloc: Global,
    answers: &A,
    log: &mut Log,
    scope: &Scope,
    first: &Leaf,
    front: Front<'_>,
) -> Result<Option<Callee>, NoMemory>
    ensures { IfOk result (λ got. (called_view got, log.new) ≡ made orders (A.meanings answers.now) (phrases.as_callee scope.now first.now (front_view front.entry)) log.old) }
{
    match front {
        Front::Value(value) => match value {
            None => Ok(None),
            Some(value) => Ok(Some(Callee::IsValue(value.ty))),
        },
        Front::Name(t) => {
            let callee = callee_named(alloc, answers, log, scope, t)?;
            Ok(callee)
        }
        Front::MemberOf(base, m) => match base {
            None => Ok(None),
            Some(base) => {
                let first = Place::of(first);
                let callee = method_named(alloc, answers, log, scope, first, m, base)?;
                Ok(callee)
            }
        },
    }
}

/// The last name of what is called, and the first token where it has none.
pub fn callee_name<'t>(first: &'t Leaf, front: &Front<'t>) -> &'t Leaf
    ensures { result.now ≡ phrases.callee_name first.now (front_view front.now) }
{
    match front {
        Front::Value(_) => first,
        Front::Name(t) => t,
        Front::MemberOf(_, m) => m,
    }
}

/// The first token of an atom.
#[tactic(auto, using(crate::proofs::TreeLemmas::first_integer, crate::proofs::TreeLemmas::first_string, crate::proofs::TreeLemmas::first_true, crate::proofs::TreeLemmas::first_false, crate::proofs::TreeLemmas::first_name, crate::proofs::TreeLemmas::first_self, crate::proofs::TreeLemmas::first_parentheses))]
pub fn atom_token(atom: &Atom) -> &Leaf
    ensures { result.now ≡ (phrases.atom_opening atom.now).first }
{
    match atom {
        Atom::Integer(t) => t,
        Atom::StringText(t) => t,
        Atom::True(t) => t,
        Atom::False(t) => t,
        Atom::Name(t) => t,
        Atom::SelfValue(t) => t,
        Atom::Parentheses(parts) => {
            let (opening, _, _) = parts.get();
            opening
        }
    }
}

/// Where a prefix begins.
#[tactic(auto, using(crate::proofs::TreeLemmas::prefix_bare, crate::proofs::TreeLemmas::prefix_with))]
fn prefix_place(tree: &Prefix) -> Place
    ensures { result ≡ (phrases.prefix_phrase tree.now).first }
{
    match &tree.operator {
        None => Place::of(atom_token(&tree.postfix.atom)),
        Some(t) => Place::of(t.get()),
    }
}

/// Where an expression begins.
#[tactic(auto, using(crate::proofs::TreeLemmas::expr_first))]
pub fn first_place(tree: &Expr) -> Place
    ensures { result ≡ (phrases.expr_phrase tree.now).first }
{
    prefix_place(&tree.first.first.left.first.first)
}
