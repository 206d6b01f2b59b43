//! The text of an object.

ghost use Rattle.std.specs.Prelude.{◌≡◌, ◌++◌, string_bytes, IfOk, OnOk};
ghost use Rattle.std.specs.List.{sum_by};
ghost use Rattle.object_emit.specs.Layouts.{receiver_words};
ghost use Rattle.object_emit.specs.Pieces.{behind};
ghost use Rattle.object_emit.specs.Objects as spec;

use crate::Instruction;
use crate::emission::emit_steps;
use crate::emitter::Emitter;
use crate::layouts::{first_types, receiver_words, slots, struct_words, sum, total, words};
use crate::printing::{put, put_function, put_number};
use dep_key::{Name, NoMemory, Path, Text};
use std::alloc::Global;
use type_rules::{Answers, Ty};
use typed_code::{Function, Initial, Step, Unit};

/// The symbol of the initializer of a global, or of the struct of a context.
fn init_symbol(alloc: Global, symbol: &str) -> Result<String, NoMemory>
    ensures { IfOk result (λ made. string_bytes made ≡ spec.init_symbol symbol.now) }
{
    let made = format!(in alloc; "{symbol}:init")?;
    Ok(made)
}

/// The code of a body.
fn body_code<A: Answers>(
    alloc: Global,
    answers: &A,
    receiver: u64,
    function: &Function,
) -> Result<Vec<Instruction>, NoMemory>
    requires { receiver ≡ receiver_words (A.meanings answers.now) function.now.receiver }
    ensures { IfOk result (λ code. code.items ≡ spec.code_of (spec.body_piece (A.meanings answers.now) function.now)) }
{
    let slots = slots(alloc, answers, receiver, function.types.as_slice())?;
    let mut out = Emitter::new(alloc);
    emit_steps(alloc, answers, &slots, &mut out, function.code.as_slice())?;
    Ok(out.into_code())
}

/// Puts a function with its body.
fn put_body<A: Answers>(
    alloc: Global,
    answers: &A,
    out: &mut Vec<u8>,
    symbol: &str,
    function: &Function,
) -> Result<(), NoMemory>
    ensures { OnOk result (out.new.items ≡ out.old.items ++ spec.body_text (A.meanings answers.now) symbol.now function.now) }
{
    let types = function.types.as_slice();
    let receiver = receiver_words(alloc, answers, &function.receiver)?;
    let params = total(alloc, answers, first_types(types, function.params))?;
    let all = total(alloc, answers, types)?;
    let gives = words(alloc, answers, &function.result)?;
    let takes = sum(receiver, params)?;
    let slots = sum(receiver, all)?;
    let code = body_code(alloc, answers, receiver, function)?;
    put_function(alloc, out, symbol, takes, slots, gives, &code)?;
    Ok(())
}

/// The code of the initializer of a global.
fn global_code<A: Answers>(
    alloc: Global,
    answers: &A,
    symbol: &Name,
    words: u64,
    steps: &[Step],
) -> Result<Vec<Instruction>, NoMemory>
    ensures { IfOk result (λ code. code.items ≡ spec.code_of (spec.stored_piece (A.meanings answers.now) symbol.now words steps.now)) }
{
    let mut out = Emitter::new(alloc);
    emit_steps(alloc, answers, &[], &mut out, steps)?;
    let symbol = symbol.clone()?;
    out.push(Instruction::Store {
        symbol,
        offset: 0,
        words,
    })?;
    out.push(Instruction::Return(0))?;
    Ok(out.into_code())
}

/// Puts a global, and its initializer.
fn put_global<A: Answers>(
    alloc: Global,
    answers: &A,
    out: &mut Vec<u8>,
    symbol: &Name,
    ty: &Ty,
    steps: &[Step],
) -> Result<(), NoMemory>
    ensures { OnOk result (out.new.items ≡ out.old.items ++ spec.global_text (A.meanings answers.now) symbol.now ty.now steps.now) }
{
    let words = words(alloc, answers, ty)?;
    let code = global_code(alloc, answers, symbol, words, steps)?;
    let init = init_symbol(alloc, symbol.as_str())?;
    put_global_line(alloc, out, symbol.as_str(), words)?;
    put_function(alloc, out, init.as_str(), 0, 0, 0, &code)?;
    Ok(())
}

/// Puts the line of a global.
fn put_global_line(
    alloc: Global,
    out: &mut Vec<u8>,
    symbol: &str,
    words: u64,
) -> Result<(), NoMemory>
    ensures { OnOk result (out.new.items ≡ out.old.items ++ spec.global_line symbol.now words) }
{
    put(out, "global ")?;
    put(out, symbol)?;
    put_number(alloc, out, words)?;
    put(out, "\n")?;
    Ok(())
}

/// The words of what is handed in for a stored property.
fn given_words<A: Answers>(alloc: Global, answers: &A, initial: &Initial) -> Result<u64, NoMemory>
    ensures { IfOk result (λ words. words ≡ spec.given_words (A.meanings answers.now) initial.now) }
{
    match initial {
        Initial::Given(ty) => {
            let words = words(alloc, answers, ty)?;
            Ok(words)
        }
        Initial::Own(_) => Ok(0),
    }
}

/// The words of all that is handed in.
fn all_given<A: Answers>(alloc: Global, answers: &A, initials: &[Initial]) -> Result<u64, NoMemory>
    ensures { IfOk result (λ words. words ≡ sum_by (spec.given_words (A.meanings answers.now)) initials.now) }
{
    let mut so_far = 0u64;
    for initial in initials {
        so_far = sum(so_far, given_words(alloc, answers, initial)?)?;
    }
    Ok(so_far)
}

/// Emits the value of a stored property, which is handed in at a slot where it has none of its own.
fn emit_initial<A: Answers>(
    alloc: Global,
    answers: &A,
    out: &mut Emitter,
    slot: u64,
    initial: &Initial,
) -> Result<(), NoMemory>
    ensures { OnOk result (out.new ≡ behind out.old (spec.initial_piece (A.meanings answers.now) slot initial.now)) }
{
    match initial {
        Initial::Given(ty) => {
            let words = words(alloc, answers, ty)?;
            out.push(Instruction::Get { slot, words })
        }
        Initial::Own(steps) => emit_steps(alloc, answers, &[], out, steps.as_slice()),
    }
}

/// Emits the values of all stored properties.
#[tactic(auto, using(crate::proofs::Initials::initials_turn, crate::proofs::Initials::initials_end))]
fn emit_initials<A: Answers>(
    alloc: Global,
    answers: &A,
    out: &mut Emitter,
    initials: &[Initial],
) -> Result<(), NoMemory>
    ensures { OnOk result (out.new ≡ behind out.old (spec.initials_piece (A.meanings answers.now) 0 initials.now)) }
{
    let mut slot = 0u64;
    for initial in initials {
        emit_initial(alloc, answers, out, slot, initial)?;
        slot = sum(slot, given_words(alloc, answers, initial)?)?;
    }
    Ok(())
}

/// The code of the initializer of a struct of so many words.
fn initializer_code<A: Answers>(
    alloc: Global,
    answers: &A,
    size: u64,
    initials: &[Initial],
) -> Result<Vec<Instruction>, NoMemory>
    ensures { IfOk result (λ code. code.items ≡ spec.code_of (spec.initializer_piece (A.meanings answers.now) size initials.now)) }
{
    let mut out = Emitter::new(alloc);
    emit_initials(alloc, answers, &mut out, initials)?;
    out.push(Instruction::Return(size))?;
    Ok(out.into_code())
}

/// Puts the initializer of the struct of a context.
fn put_initializer<A: Answers>(
    alloc: Global,
    answers: &A,
    out: &mut Vec<u8>,
    context: &Name,
    initials: &[Initial],
) -> Result<(), NoMemory>
    ensures { OnOk result (out.new.items ≡ out.old.items ++ spec.initializer_text (A.meanings answers.now) context.now initials.now) }
{
    let given = all_given(alloc, answers, initials)?;
    let size = struct_words(answers, context)?;
    let code = initializer_code(alloc, answers, size, initials)?;
    let symbol = init_symbol(alloc, context.as_str())?;
    put_function(alloc, out, symbol.as_str(), given, given, size, &code)?;
    Ok(())
}

/// Puts a unit.
fn put_unit<A: Answers>(
    alloc: Global,
    answers: &A,
    out: &mut Vec<u8>,
    unit: &Unit,
) -> Result<(), NoMemory>
    ensures { OnOk result (out.new.items ≡ out.old.items ++ spec.unit_text (A.meanings answers.now) unit.now) }
{
    match unit {
        Unit::Global(symbol, ty, steps) => {
            put_global(alloc, answers, out, symbol, ty, steps.as_slice())
        }
        Unit::Function(symbol, function) => {
            put_body(alloc, answers, out, symbol.as_str(), function)
        }
        Unit::Initializer(context, initials) => {
            put_initializer(alloc, answers, out, context, initials.as_slice())
        }
    }
}

/// The object text of the file of a path that has these units.
///
/// An error says that memory was wanted and not there, or that labels or words of 2^64 and more have no room.
#[tactic(auto, unfolding(crate::specs::Objects::object_text))]
pub fn object<A: Answers>(
    alloc: Global,
    answers: &A,
    path: &Path,
    units: &[Unit],
) -> Result<Text, NoMemory>
    ensures { IfOk result (λ text. text ≡ spec.object_text (A.meanings answers.now) path.now units.now) }
{
    let mut out = Vec::new(alloc);
    put(&mut out, "object ")?;
    put(&mut out, path.as_str())?;
    put(&mut out, "\n")?;
    for unit in units {
        put_unit(alloc, answers, &mut out, unit)?;
    }
    Ok(Text::from_vec(out))
}
