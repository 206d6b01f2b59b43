//! How instructions and functions are printed.

ghost use Rattle.std.specs.Prelude.{◌≡◌, ◌++◌, flat_map, OnOk};
ghost use Rattle.type_rules.specs.Shown.{shown_type};
ghost use Rattle.object_emit.specs.declared.instruction.Instruction.TheVariants as op;
ghost use Rattle.object_emit.specs.Printing as spec;

use crate::Instruction;
use dep_key::NoMemory;
use std::alloc::Global;
use type_rules::Ty;
use typed_code::Operator;

/// Puts a text behind the others.
pub fn put(out: &mut Vec<u8>, text: &str) -> Result<(), NoMemory>
    ensures { OnOk result (out.new.items ≡ out.old.items ++ text.now) }
{
    out.extend_from_slice(text.as_bytes())?;
    Ok(())
}

/// Puts bytes behind the others.
fn put_bytes(out: &mut Vec<u8>, bytes: &[u8]) -> Result<(), NoMemory>
    ensures { OnOk result (out.new.items ≡ out.old.items ++ bytes.now) }
{
    out.extend_from_slice(bytes)?;
    Ok(())
}

/// Puts a number, behind a blank.
pub fn put_number(alloc: Global, out: &mut Vec<u8>, number: u64) -> Result<(), NoMemory>
    ensures { OnOk result (out.new.items ≡ out.old.items ++ spec.number number) }
{
    let text = format!(in alloc; " {number}")?;
    put(out, text.as_str())?;
    Ok(())
}

/// Puts an instruction that has a number.
fn put_numbered(alloc: Global, out: &mut Vec<u8>, word: &str, number: u64) -> Result<(), NoMemory>
    ensures { OnOk result (out.new.items ≡ out.old.items ++ word.now ++ spec.number number) }
{
    put(out, word)?;
    put_number(alloc, out, number)?;
    Ok(())
}

/// Puts a slot or an offset, and words.
fn put_pair(alloc: Global, out: &mut Vec<u8>, first: u64, second: u64) -> Result<(), NoMemory>
    ensures { OnOk result (out.new.items ≡ out.old.items ++ spec.number first ++ spec.number second) }
{
    put_number(alloc, out, first)?;
    put_number(alloc, out, second)?;
    Ok(())
}

/// Puts an instruction that has a symbol and two numbers.
fn put_symbol(
    alloc: Global,
    out: &mut Vec<u8>,
    word: &str,
    symbol: &str,
    first: u64,
    second: u64,
) -> Result<(), NoMemory>
    ensures { OnOk result (out.new.items ≡ out.old.items ++ word.now ++ symbol.now ++ spec.number first ++ spec.number second) }
{
    put(out, word)?;
    put(out, symbol)?;
    put_pair(alloc, out, first, second)?;
    Ok(())
}

/// Puts a word and a type.
fn put_typed(out: &mut Vec<u8>, word: &str, ty: &Ty) -> Result<(), NoMemory>
    ensures { OnOk result (out.new.items ≡ out.old.items ++ word.now ++ shown_type ty.now) }
{
    put(out, word)?;
    put(out, ty.shown())?;
    Ok(())
}

/// The word for `+` between two operands of a type.
fn sum_word(ty: &Ty) -> &'static str
    ensures { result.now ≡ spec.sum_word ty.now }
{
    match ty {
        Ty::String => "cat",
        _ => "add",
    }
}

/// Puts an operator.
fn put_operator(out: &mut Vec<u8>, operator: Operator, ty: &Ty) -> Result<(), NoMemory>
    ensures { OnOk result (out.new.items ≡ out.old.items ++ spec.operator_text operator ty.now) }
{
    match operator {
        Operator::Add => put(out, sum_word(ty)),
        Operator::Subtract => put(out, "sub"),
        Operator::Multiply => put(out, "mul"),
        Operator::Divide => put(out, "div"),
        Operator::Remainder => put(out, "rem"),
        Operator::Less => put_typed(out, "lt.", ty),
        Operator::LessOrEqual => put_typed(out, "le.", ty),
        Operator::Greater => put_typed(out, "gt.", ty),
        Operator::GreaterOrEqual => put_typed(out, "ge.", ty),
        Operator::Equal => put_typed(out, "eq.", ty),
        Operator::NotEqual => put_typed(out, "ne.", ty),
    }
}

/// The instruction of a truth value.
fn truth_text(value: bool) -> &'static str
    ensures { result.now ≡ spec.truth_text value }
{
    if value { "bool true" } else { "bool false" }
}

/// Puts a text and bytes.
fn put_literal(out: &mut Vec<u8>, word: &str, literal: &[u8]) -> Result<(), NoMemory>
    ensures { OnOk result (out.new.items ≡ out.old.items ++ word.now ++ literal.now) }
{
    put(out, word)?;
    put_bytes(out, literal)?;
    Ok(())
}

/// Puts a field.
fn put_field(
    alloc: Global,
    out: &mut Vec<u8>,
    offset: u64,
    words: u64,
    of: u64,
) -> Result<(), NoMemory>
    ensures { OnOk result (out.new.items ≡ out.old.items ++ spec.text (op.Field offset words of)) }
{
    put_numbered(alloc, out, "field", offset)?;
    put_pair(alloc, out, words, of)?;
    Ok(())
}

/// Puts a word, a slot and words.
fn put_slot(
    alloc: Global,
    out: &mut Vec<u8>,
    word: &str,
    slot: u64,
    words: u64,
) -> Result<(), NoMemory>
    ensures { OnOk result (out.new.items ≡ out.old.items ++ word.now ++ spec.number slot ++ spec.number words) }
{
    put(out, word)?;
    put_pair(alloc, out, slot, words)?;
    Ok(())
}

/// Puts an instruction as it is printed.
fn put_instruction(
    alloc: Global,
    out: &mut Vec<u8>,
    instruction: &Instruction,
) -> Result<(), NoMemory>
    ensures { OnOk result (out.new.items ≡ out.old.items ++ spec.text instruction.now) }
{
    match instruction {
        Instruction::Int(digits) => put_literal(out, "int ", digits.as_slice()),
        Instruction::Bool(value) => put(out, truth_text(*value)),
        Instruction::Str(literal) => put_literal(out, "str ", literal.as_slice()),
        Instruction::Get { slot, words } => put_slot(alloc, out, "get", *slot, *words),
        Instruction::Load {
            symbol,
            offset,
            words,
        } => put_symbol(alloc, out, "load ", symbol.as_str(), *offset, *words),
        Instruction::Field { offset, words, of } => put_field(alloc, out, *offset, *words, *of),
        Instruction::Call {
            symbol,
            takes,
            gives,
        } => put_symbol(alloc, out, "call ", symbol.as_str(), *takes, *gives),
        Instruction::Print(ty) => put_typed(out, "print.", ty),
        Instruction::Operate(operator, ty) => put_operator(out, *operator, ty),
        Instruction::Neg => put(out, "neg"),
        Instruction::Not => put(out, "not"),
        Instruction::Unless(label) => put_numbered(alloc, out, "unless", *label),
        Instruction::Jump(label) => put_numbered(alloc, out, "jump", *label),
        Instruction::Label(label) => put_numbered(alloc, out, "label", *label),
        Instruction::Set { slot, words } => put_slot(alloc, out, "set", *slot, *words),
        Instruction::Store {
            symbol,
            offset,
            words,
        } => put_symbol(alloc, out, "store ", symbol.as_str(), *offset, *words),
        Instruction::Return(words) => put_numbered(alloc, out, "return", *words),
        Instruction::Drop(words) => put_numbered(alloc, out, "drop", *words),
    }
}

/// Puts lines of code.
fn put_lines(alloc: Global, out: &mut Vec<u8>, code: &[Instruction]) -> Result<(), NoMemory>
    ensures { OnOk result (out.new.items ≡ out.old.items ++ flat_map spec.code_line code.now) }
{
    for instruction in code {
        put(out, " ")?;
        put_instruction(alloc, out, instruction)?;
        put(out, "\n")?;
    }
    Ok(())
}

/// Puts the first line of a function: its symbol, and the words of its parameters, of all its slots and of its result.
fn put_head(
    alloc: Global,
    out: &mut Vec<u8>,
    symbol: &str,
    takes: u64,
    slots: u64,
    gives: u64,
) -> Result<(), NoMemory>
    ensures { OnOk result (out.new.items ≡ out.old.items ++ spec.function_head symbol.now takes slots gives) }
{
    put_symbol(alloc, out, "func ", symbol, takes, slots)?;
    put_number(alloc, out, gives)?;
    put(out, "\n")?;
    Ok(())
}

/// Puts a function: its symbol, the words of its parameters, of all its slots and of its result, and its code.
pub fn put_function(
    alloc: Global,
    out: &mut Vec<u8>,
    symbol: &str,
    takes: u64,
    slots: u64,
    gives: u64,
    code: &[Instruction],
) -> Result<(), NoMemory>
    ensures { OnOk result (out.new.items ≡ out.old.items ++ spec.function_text symbol.now takes slots gives code.now) }
{
    put_head(alloc, out, symbol, takes, slots, gives)?;
    put_lines(alloc, out, code)?;
    put(out, "end\n")?;
    Ok(())
}
