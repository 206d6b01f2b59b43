ghost use Rattle.std.specs.Prelude.{◌≡◌, ◌++◌, IfOk, OnOk, option_map};
ghost use Rattle.module_merge.specs.Image.{symbol_after, defined_by, used_by, defined_in, used_in, all_defined, all_used};

use crate::lines::before;
use drv_outside::{NoMemory, Text};
use std::alloc::Global;

// Adds the symbol of a line that begins with this word.
fn push_symbol(
    alloc: Global,
    symbols: &mut Vec<Text>,
    word: &[u8],
    line: &[u8],
) -> Result<(), NoMemory>
    ensures { OnOk result (symbols.new.items ≡ symbols.old.items ++ symbol_after word.now line.now) }
{
    match line.strip_prefix(word) {
        Some(rest) => {
            symbols.push(Text::from_slice(alloc, before(rest, b' '))?)?;
            Ok(())
        }
        None => Ok(()),
    }
}

fn push_defined_by(alloc: Global, symbols: &mut Vec<Text>, line: &[u8]) -> Result<(), NoMemory>
    ensures { OnOk result (symbols.new.items ≡ symbols.old.items ++ defined_by line.now) }
{
    push_symbol(alloc, symbols, b"global ", line)?;
    push_symbol(alloc, symbols, b"func ", line)?;
    Ok(())
}

fn push_used_by(alloc: Global, symbols: &mut Vec<Text>, line: &[u8]) -> Result<(), NoMemory>
    ensures { OnOk result (symbols.new.items ≡ symbols.old.items ++ used_by line.now) }
{
    push_symbol(alloc, symbols, b" load ", line)?;
    push_symbol(alloc, symbols, b" store ", line)?;
    push_symbol(alloc, symbols, b" call ", line)?;
    Ok(())
}

// Adds the symbols that an object text defines.
fn push_defined(alloc: Global, symbols: &mut Vec<Text>, object: &[u8]) -> Result<(), NoMemory>
    ensures { OnOk result (symbols.new.items ≡ symbols.old.items ++ defined_in object.now) }
{
    for line in object.split(|b| *b == b'\n') {
        push_defined_by(alloc, symbols, line)?;
    }
    Ok(())
}

// Adds the symbols that an object text uses.
fn push_used(alloc: Global, symbols: &mut Vec<Text>, object: &[u8]) -> Result<(), NoMemory>
    ensures { OnOk result (symbols.new.items ≡ symbols.old.items ++ used_in object.now) }
{
    for line in object.split(|b| *b == b'\n') {
        push_used_by(alloc, symbols, line)?;
    }
    Ok(())
}

// The symbols that an object text defines, in order of line.
pub(crate) fn defined_in(alloc: Global, object: &[u8]) -> Result<Vec<Text>, NoMemory>
    ensures { IfOk result (λ symbols. symbols.items ≡ defined_in object.now) }
{
    let mut symbols = Vec::new(alloc);
    push_defined(alloc, &mut symbols, object)?;
    Ok(symbols)
}

// The symbols that object texts define.
pub(crate) fn all_defined(alloc: Global, objects: &[Text]) -> Result<Vec<Text>, NoMemory>
    ensures { IfOk result (λ symbols. symbols.items ≡ all_defined objects.now) }
{
    let mut symbols = Vec::new(alloc);
    for object in objects {
        push_defined(alloc, &mut symbols, object.as_slice())?;
    }
    Ok(symbols)
}

// The symbols that object texts use.
pub(crate) fn all_used(alloc: Global, objects: &[Text]) -> Result<Vec<Text>, NoMemory>
    ensures { IfOk result (λ symbols. symbols.items ≡ all_used objects.now) }
{
    let mut symbols = Vec::new(alloc);
    for object in objects {
        push_used(alloc, &mut symbols, object.as_slice())?;
    }
    Ok(symbols)
}
