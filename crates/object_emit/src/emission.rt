//! The code of the steps of a body.

ghost use Rattle.std.specs.Prelude.{◌≡◌, ◌+◌, ◌++◌, ◌<◌, ◌^◌, ℕ, List, [], ◌∷◌, true, false, IfOk, OnOk};
ghost use Rattle.dep_key.specs.declared.key.Key.{Key};
ghost use Rattle.type_rules.specs.declared.meaning.Meaning.{Meaning};
ghost use Rattle.object_emit.specs.declared.instruction.Instruction.TheVariants as op;
ghost use Rattle.object_emit.specs.Pieces.{behind, plain, one, and_piece, or_piece, while_piece, branch_piece, branches_piece, if_piece};
ghost use Rattle.object_emit.specs.Layouts as layouts;
ghost use Rattle.object_emit.specs.IntegerText as literal;
ghost use Rattle.object_emit.specs.Emission.{site, integer_text, property, dropped, steps_piece, step_piece, branch_parts, branches_parts};

use crate::Instruction;
use crate::emitter::Emitter;
use crate::layouts::{offset_along, offset_of, slot, struct_words, sum, total, words};
use dep_key::{Name, NoMemory, Text};
use std::alloc::Global;
use type_rules::{Answers, Ty};
use typed_code::{Branch, Step};

/// Whether a character of an integer literal isn't printed.
fn is_skipped(after_digit: bool, c: u8) -> bool
    ensures { result ≡ literal.is_skipped after_digit c }
{
    c == b'_' || (c == b'0' && !after_digit)
}

/// The digits of an integer literal, without `_` and without leading zeros.
#[tactic(auto, using(crate::proofs::IntegerTexts::skips, crate::proofs::IntegerTexts::keeps))]
fn digits_of(alloc: Global, literal: &[u8]) -> Result<Vec<u8>, NoMemory>
    ensures { IfOk result (λ digits. digits.items ≡ integer_text literal.now) }
{
    let mut digits = Vec::new(alloc);
    let mut after_digit = false;
    for c in literal {
        if !is_skipped(after_digit, *c) {
            digits.push(*c)?;
            after_digit = true;
        }
    }
    if !after_digit {
        digits.push(b'0')?;
    }
    Ok(digits)
}

/// The integer of a literal.
fn integer(alloc: Global, literal: &Text) -> Result<Instruction, NoMemory>
    ensures { IfOk result (λ made. made ≡ op.Int (integer_text literal.now)) }
{
    let digits = Text::from_vec(digits_of(alloc, literal.as_slice())?);
    Ok(Instruction::Int(digits))
}

/// The symbol of a member of a context.
fn member_symbol(alloc: Global, context: &str, name: &str) -> Result<Name, NoMemory>
    ensures { IfOk result (λ symbol. symbol ≡ layouts.member_symbol context.now name.now) }
{
    let text = format!(in alloc; "{context}:{name}")?;
    let symbol = Name::from_string(text)?;
    Ok(symbol)
}

/// The property of a struct, which is stored or computed.
fn property<A: Answers>(
    alloc: Global,
    answers: &A,
    context: &Name,
    name: &Name,
    gives: u64,
) -> Result<Instruction, NoMemory>
    ensures { IfOk result (λ made. made ≡ property (layouts.struct_words (A.meanings answers.now) context.now) context.now name.now gives (layouts.offset_of (A.meanings answers.now) context.now name.now)) }
{
    let of = struct_words(answers, context)?;
    match offset_of(answers, context, name)? {
        Some(offset) => Ok(Instruction::Field {
            offset,
            words: gives,
            of,
        }),
        None => {
            let symbol = member_symbol(alloc, context.as_str(), name.as_str())?;
            Ok(Instruction::Call {
                symbol,
                takes: of,
                gives,
            })
        }
    }
}

/// A call.
fn call<A: Answers>(
    alloc: Global,
    answers: &A,
    symbol: &Name,
    takes: &[Ty],
    gives: &Ty,
) -> Result<Instruction, NoMemory>
    ensures { IfOk result (λ made. made ≡ op.Call symbol.now (layouts.total (A.meanings answers.now) takes.now) (layouts.words (A.meanings answers.now) gives.now)) }
{
    let takes = total(alloc, answers, takes)?;
    let gives = words(alloc, answers, gives)?;
    let symbol = symbol.clone()?;
    Ok(Instruction::Call {
        symbol,
        takes,
        gives,
    })
}

/// The place of a parameter or a local, or of a member inside it, that a value is put at.
fn set_local<A: Answers>(
    alloc: Global,
    answers: &A,
    slots: &[u64],
    number: u32,
    members: &[(Name, Name)],
    ty: &Ty,
) -> Result<Instruction, NoMemory>
    ensures { IfOk result (λ made. made ≡ op.Set (layouts.slot_in slots.now number + layouts.offset_along (A.meanings answers.now) members.now) (layouts.words (A.meanings answers.now) ty.now)) }
{
    let slot = sum(slot(slots, number), offset_along(answers, members)?)?;
    let words = words(alloc, answers, ty)?;
    Ok(Instruction::Set { slot, words })
}

/// The place of a global, or of a member inside it, that a value is put at.
fn set_global<A: Answers>(
    alloc: Global,
    answers: &A,
    symbol: &Name,
    members: &[(Name, Name)],
    ty: &Ty,
) -> Result<Instruction, NoMemory>
    ensures { IfOk result (λ made. made ≡ op.Store symbol.now (layouts.offset_along (A.meanings answers.now) members.now) (layouts.words (A.meanings answers.now) ty.now)) }
{
    let offset = offset_along(answers, members)?;
    let words = words(alloc, answers, ty)?;
    let symbol = symbol.clone()?;
    Ok(Instruction::Store {
        symbol,
        offset,
        words,
    })
}

/// Takes a value from the stack, if it has words.
fn emit_drop(out: &mut Emitter, words: u64) -> Result<(), NoMemory>
    ensures { OnOk result (out.new ≡ behind out.old (plain (dropped words))) }
{
    if words != 0 {
        out.push(Instruction::Drop(words))?;
    }
    Ok(())
}

/// `jump E`, `label F`, `bool false`, `label E`.
fn end_and(out: &mut Emitter, n: u64) -> Result<(), NoMemory>
    requires { n + 2 < 2 ^ 64 }
    ensures { OnOk result (out.new ≡ behind out.old (plain (op.Jump (n + 1) ∷ op.Label n ∷ op.Bool false ∷ op.Label (n + 1) ∷ []))) }
{
    out.push(Instruction::Jump(n + 1))?;
    out.push(Instruction::Label(n))?;
    out.push(Instruction::Bool(false))?;
    out.push(Instruction::Label(n + 1))?;
    Ok(())
}

/// `unless F`, `bool true`, `jump E`, `label F`.
fn begin_or(out: &mut Emitter, n: u64) -> Result<(), NoMemory>
    requires { n + 2 < 2 ^ 64 }
    ensures { OnOk result (out.new ≡ behind out.old (plain (op.Unless n ∷ op.Bool true ∷ op.Jump (n + 1) ∷ op.Label n ∷ []))) }
{
    out.push(Instruction::Unless(n))?;
    out.push(Instruction::Bool(true))?;
    out.push(Instruction::Jump(n + 1))?;
    out.push(Instruction::Label(n))?;
    Ok(())
}

fn jump_and_label(out: &mut Emitter, to: u64, here: u64) -> Result<(), NoMemory>
    ensures { OnOk result (out.new ≡ behind out.old (plain (op.Jump to ∷ op.Label here ∷ []))) }
{
    out.push(Instruction::Jump(to))?;
    out.push(Instruction::Label(here))?;
    Ok(())
}

/// The right operand of `&&`.
#[tactic(auto, using(crate::proofs::Joining::and_emitted))]
#[cycle(emission)]
fn emit_and<A: Answers>(
    alloc: Global,
    answers: &A,
    slots: &[u64],
    out: &mut Emitter,
    right: &[Step],
) -> Result<(), NoMemory>
    ensures { OnOk result (out.new ≡ behind out.old (and_piece (steps_piece (site (A.meanings answers.now) slots.now) right.now))) }
{
    let n = out.take_labels(2)?;
    out.push(Instruction::Unless(n))?;
    emit_steps(alloc, answers, slots, out, right)?;
    end_and(out, n)?;
    Ok(())
}

/// The right operand of `||`.
#[tactic(auto, using(crate::proofs::Joining::or_emitted))]
#[cycle(emission)]
fn emit_or<A: Answers>(
    alloc: Global,
    answers: &A,
    slots: &[u64],
    out: &mut Emitter,
    right: &[Step],
) -> Result<(), NoMemory>
    ensures { OnOk result (out.new ≡ behind out.old (or_piece (steps_piece (site (A.meanings answers.now) slots.now) right.now))) }
{
    let n = out.take_labels(2)?;
    begin_or(out, n)?;
    emit_steps(alloc, answers, slots, out, right)?;
    out.push(Instruction::Label(n + 1))?;
    Ok(())
}

/// A branch of an `if` that ends at a label.
#[tactic(auto, using(crate::proofs::Joining::branch_emitted, crate::proofs::Steps::branch_is))]
#[cycle(emission)]
fn emit_branch<A: Answers>(
    alloc: Global,
    answers: &A,
    slots: &[u64],
    out: &mut Emitter,
    end: u64,
    branch: &Branch,
) -> Result<(), NoMemory>
    ensures { OnOk result (out.new ≡ behind out.old (branch_piece end (branch_parts (site (A.meanings answers.now) slots.now) branch.now))) }
{
    emit_steps(alloc, answers, slots, out, branch.condition.as_slice())?;
    let n = out.take_labels(1)?;
    out.push(Instruction::Unless(n))?;
    emit_steps(alloc, answers, slots, out, branch.block.as_slice())?;
    jump_and_label(out, end, n)?;
    Ok(())
}

/// The branches of an `if` that ends at a label.
#[tactic(auto, using(crate::proofs::Steps::branches_turn, crate::proofs::Steps::branches_end))]
#[cycle(emission)]
fn emit_branches<A: Answers>(
    alloc: Global,
    answers: &A,
    slots: &[u64],
    out: &mut Emitter,
    end: u64,
    branches: &[Branch],
) -> Result<(), NoMemory>
    ensures { OnOk result (out.new ≡ behind out.old (branches_piece end (branches_parts (site (A.meanings answers.now) slots.now) branches.now))) }
{
    for branch in branches {
        emit_branch(alloc, answers, slots, out, end, branch)?;
    }
    Ok(())
}

/// Steps in a row.
#[tactic(auto, using(crate::proofs::Steps::steps_turn, crate::proofs::Steps::steps_end))]
#[cycle(emission)]
pub fn emit_steps<A: Answers>(
    alloc: Global,
    answers: &A,
    slots: &[u64],
    out: &mut Emitter,
    steps: &[Step],
) -> Result<(), NoMemory>
    ensures { OnOk result (out.new ≡ behind out.old (steps_piece (site (A.meanings answers.now) slots.now) steps.now)) }
{
    for step in steps {
        emit_step(alloc, answers, slots, out, step)?;
    }
    Ok(())
}

/// A step.
#[tactic(auto, using(crate::proofs::Steps::step_integer, crate::proofs::Steps::step_string, crate::proofs::Steps::step_truth, crate::proofs::Steps::step_local, crate::proofs::Steps::step_self, crate::proofs::Steps::step_global, crate::proofs::Steps::step_property, crate::proofs::Steps::step_call, crate::proofs::Steps::step_print, crate::proofs::Steps::step_operate, crate::proofs::Steps::step_negate, crate::proofs::Steps::step_not, crate::proofs::Steps::step_and, crate::proofs::Steps::step_or, crate::proofs::Steps::step_set_local, crate::proofs::Steps::step_set_global, crate::proofs::Steps::step_return, crate::proofs::Steps::step_drop, crate::proofs::Steps::while_step, crate::proofs::Steps::if_step))]
#[cycle(emission)]
fn emit_step<A: Answers>(
    alloc: Global,
    answers: &A,
    slots: &[u64],
    out: &mut Emitter,
    step: &Step,
) -> Result<(), NoMemory>
    ensures { OnOk result (out.new ≡ behind out.old (step_piece (site (A.meanings answers.now) slots.now) step.now)) }
{
    match step {
        Step::Truth(value) => out.push(Instruction::Bool(*value)),
        Step::Local(number, ty) => {
            let words = words(alloc, answers, ty)?;
            out.push(Instruction::Get {
                slot: slot(slots, *number),
                words,
            })
        }
        Step::SelfValue(ty) => {
            let words = words(alloc, answers, ty)?;
            out.push(Instruction::Get { slot: 0, words })
        }
        Step::Global(symbol, ty) => {
            let symbol = symbol.clone()?;
            let words = words(alloc, answers, ty)?;
            out.push(Instruction::Load {
                symbol,
                offset: 0,
                words,
            })
        }
        Step::Operate(operator, ty) => {
            let ty = ty.clone()?;
            out.push(Instruction::Operate(*operator, ty))
        }
        Step::Negate => out.push(Instruction::Neg),
        Step::Not => out.push(Instruction::Not),
        Step::And(right) => emit_and(alloc, answers, slots, out, right.as_slice()),
        Step::Or(right) => emit_or(alloc, answers, slots, out, right.as_slice()),
        Step::Return(ty) => {
            let words = words(alloc, answers, ty)?;
            out.push(Instruction::Return(words))
        }
        Step::Drop(ty) => {
            let words = words(alloc, answers, ty)?;
            emit_drop(out, words)
        }
        Step::While(condition, block) => {
            let n = out.take_labels(2)?;
            out.push(Instruction::Label(n))?;
            emit_steps(alloc, answers, slots, out, condition.as_slice())?;
            out.push(Instruction::Unless(n + 1))?;
            emit_steps(alloc, answers, slots, out, block.as_slice())?;
            jump_and_label(out, n, n + 1)?;
            Ok(())
        }
        Step::If(branches, last) => {
            let n = out.take_labels(1)?;
            emit_branches(alloc, answers, slots, out, n, branches.as_slice())?;
            emit_steps(alloc, answers, slots, out, last.as_slice())?;
            out.push(Instruction::Label(n))?;
            Ok(())
        }
        Step::Integer(literal) => {
            let integer = integer(alloc, literal)?;
            out.push(integer)
        }
        Step::StringText(literal) => {
            let literal = literal.clone()?;
            out.push(Instruction::Str(literal))
        }
        Step::Property(context, name, ty) => {
            let words = words(alloc, answers, ty)?;
            let property = property(alloc, answers, context, name, words)?;
            out.push(property)
        }
        Step::Call(symbol, takes, gives) => {
            let call = call(alloc, answers, symbol, takes.as_slice(), gives)?;
            out.push(call)
        }
        Step::Print(ty) => {
            let ty = ty.clone()?;
            out.push(Instruction::Print(ty))
        }
        Step::SetLocal(number, members, ty) => {
            let set = set_local(alloc, answers, slots, *number, members.as_slice(), ty)?;
            out.push(set)
        }
        Step::SetGlobal(symbol, members, ty) => {
            let store = set_global(alloc, answers, symbol, members.as_slice(), ty)?;
            out.push(store)
        }
    }
}
