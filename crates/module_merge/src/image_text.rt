ghost use Rattle.std.specs.Prelude.{◌≡◌, ◌++◌, [], ◌∷◌, codes, All, IsTrue, IfOk, IfErr, OnOk, flat_map};
ghost use Rattle.std.specs.FinMap as finite;
ghost use Rattle.std.specs.Ordering.{nat_cmp};
ghost use Rattle.std.specs.Cmp.Lexicographic.{slice_cmp};
ghost use Rattle.module_merge.specs.Lines.{text_of};
ghost use Rattle.module_merge.specs.Object.{is_object};
ghost use Rattle.module_merge.specs.Image.{path_of, with_symbols, with_objects, table_in, table_of, symbol_line, symbol_lines, IsInOrder, IsImage, AreDistinct, AreLinked, all_defined};
ghost use Rattle.module_merge.specs.Ends.{IsEnd};

use crate::MergeEnd;
use crate::by_path::in_byte_order;
use crate::lines::before;
use crate::linking::first_end;
use crate::symbols::defined_in;
use drv_outside::{NoMemory, Text};
use std::alloc::Global;
use std::collections::BTreeMap;

/// The bytes of `object` and a blank.
const HEADING_BYTES: usize = 7;

// The path of an object text.
fn path_of(object: &[u8]) -> &[u8]
    ensures { result.now ≡ path_of object.now }
{
    let heading = before(object, b'\n');
    if heading.len() < HEADING_BYTES {
        &heading[heading.len()..]
    } else {
        &heading[HEADING_BYTES..]
    }
}

// Enters symbols with the path of the object that defines them.
fn enter(
    alloc: Global,
    table: &mut BTreeMap<Text, Text>,
    path: &[u8],
    symbols: &[Text],
) -> Result<(), NoMemory>
    ensures { OnOk result (table_in table.new ≡ with_symbols path.now symbols.now (table_in table.old)) }
{
    for symbol in symbols {
        let path = Text::from_slice(alloc, path)?;
        table.insert(Text::from_slice(alloc, symbol.as_slice())?, path)?;
    }
    Ok(())
}

fn enter_object(
    alloc: Global,
    table: &mut BTreeMap<Text, Text>,
    object: &[u8],
) -> Result<(), NoMemory>
    ensures { OnOk result (table_in table.new ≡ with_objects (object.now ∷ []) (table_in table.old)) }
{
    let symbols = defined_in(alloc, object)?;
    enter(alloc, table, path_of(object), &symbols)?;
    Ok(())
}

// The path of each symbol that objects define.
fn table_of(alloc: Global, objects: &[Text]) -> Result<BTreeMap<Text, Text>, NoMemory>
    ensures { IfOk result (λ table. table_in table ≡ table_of objects.now) }
{
    let mut table = BTreeMap::new(alloc);
    for object in objects {
        enter_object(alloc, &mut table, object.as_slice())?;
    }
    Ok(table)
}

fn push_line(text: &mut Vec<u8>, symbol: &Text, path: &Text) -> Result<(), NoMemory>
    ensures { OnOk result (text.new.items ≡ text.old.items ++ (symbol_line (symbol.now, path.now) ++ codes "\n")) }
{
    text.extend_from_slice(b"symbol ")?;
    text.extend_from_slice(symbol.as_slice())?;
    text.extend_from_slice(b" ")?;
    text.extend_from_slice(path.as_slice())?;
    text.extend_from_slice(b"\n")?;
    Ok(())
}

// Adds a line for each symbol, in byte order of the symbol.
fn push_lines(text: &mut Vec<u8>, table: &BTreeMap<Text, Text>) -> Result<(), NoMemory>
    ensures { OnOk result (text.new.items ≡ text.old.items ++ text_of (symbol_lines (table_in table.now))) }
{
    for (symbol, path) in table.iter() {
        push_line(text, symbol, path)?;
    }
    Ok(())
}

// The object texts by path.
fn in_order(alloc: Global, objects: &[Text]) -> Result<Vec<Text>, NoMemory>
    requires { All (λ object. IsTrue (is_object object)) objects.now }
    ensures { IfOk result (λ ordered. IsInOrder objects.now ordered.items) }
{
    let ordered = in_byte_order(alloc, objects)?;
    Ok(ordered)
}

fn push_all(text: &mut Vec<u8>, parts: &[Text]) -> Result<(), NoMemory>
    ensures { OnOk result (text.new.items ≡ text.old.items ++ flat_map (λ part. part) parts.now) }
{
    for part in parts {
        text.extend_from_slice(part.as_slice())?;
    }
    Ok(())
}

fn push_heading(text: &mut Vec<u8>, name: &str) -> Result<(), NoMemory>
    ensures { OnOk result (text.new.items ≡ text.old.items ++ ((codes "image " ++ name.now) ++ codes "\n")) }
{
    text.extend_from_slice(b"image ")?;
    text.extend_from_slice(name.as_bytes())?;
    text.extend_from_slice(b"\n")?;
    Ok(())
}

fn image_text(alloc: Global, name: &str, objects: &[Text]) -> Result<Text, NoMemory>
    requires { All (λ object. IsTrue (is_object object)) objects.now }
    ensures { IfOk result (λ text. IsImage name.now objects.now text) }
{
    let table = table_of(alloc, objects)?;
    let ordered = in_order(alloc, objects)?;
    let mut text = Vec::new(alloc);
    push_heading(&mut text, name)?;
    push_lines(&mut text, &table)?;
    push_all(&mut text, &ordered)?;
    Ok(Text::from_vec(text))
}

/// The image of a module: the line `image NAME`, a line `symbol SYMBOL PATH` for each symbol that an
/// object defines, in byte order of the symbol, and then the object texts by path, whatever their
/// order here. Object texts of one path stand in byte order.
///
/// A line `global SYMBOL W` or `func SYMBOL P S R` defines a symbol, and a line ` load SYMBOL 0 W`,
/// ` store SYMBOL OFFSET W` or ` call SYMBOL WORDS W` uses one.
///
/// # Errors
///
/// `Twice` with the least symbol that is defined twice, else `Missing` with the least that is used
/// and not defined. `NoMemory` where memory was wanted.
pub fn image(alloc: Global, name: &str, objects: &[Text]) -> Result<Text, MergeEnd>
    requires object { All (λ object. IsTrue (is_object object)) objects.now }
    ensures text { IfOk result (λ text. IsImage name.now objects.now text) }
    ensures distinct { IfOk result (λ _. AreDistinct (all_defined objects.now)) }
    ensures linked { IfOk result (λ _. AreLinked objects.now) }
    ensures end { IfErr result (λ end. IsEnd objects.now end) }
{
    match first_end(alloc, objects) {
        Ok(None) => match image_text(alloc, name, objects) {
            Ok(text) => Ok(text),
            Err(_) => Err(MergeEnd::NoMemory),
        },
        Ok(Some(end)) => Err(end),
        Err(_) => Err(MergeEnd::NoMemory),
    }
}
