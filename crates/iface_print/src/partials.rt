//! The partial texts of files.

ghost use Rattle.std.specs.Prelude.{◌≡◌, ◌++◌, ◌∷◌, ◌||◌, [], Some, codes, decimal, flat_map, IfOk, OnOk};
ghost use Rattle.std.specs.List.{slice_get};
ghost use Rattle.std.specs.Option.{option_copied, option_map};
ghost use Rattle.swift_ast.specs.declared.declarations.FileTree.{FileTree as Tree};
ghost use Rattle.decl_index.specs.Declarations.{is_private, declarations_in};
ghost use Rattle.decl_index.specs.Found.{shown_declaration, shown_item};
ghost use Rattle.iface_print.specs.Partials as partials;
ghost use Rattle.iface_print.specs.Places.{declarations_of};
ghost use Rattle.type_infer.specs.Plain.{line_feed, blank, opening, closing, comma, colon};

use crate::texts::{access_text, put, put_number, specifier_text};
use decl_index::{DeclRef, Declared, Index, Item};
use dep_key::{FileNo, Key, Kind, NoMemory, Text};
use sqlite_items::at;
use std::alloc::Global;
use swift_ast::Access;
use type_rules::{Answers, Field, Meaning, Parameter, Ty};

/// A type: a struct by its context.
fn type_name(ty: &Ty) -> &str
    ensures { result.now ≡ partials.type_name ty.now }
{
    match ty {
        Ty::Int => "Int",
        Ty::String => "String",
        Ty::Bool => "Bool",
        Ty::Void => "Void",
        Ty::Struct(context) => context.as_str(),
    }
}

/// Whether a declaration is visible in its file alone.
fn is_private(access: Option<&Access>) -> bool
    ensures { result ≡ is_private (option_copied access.entry) }
{
    match access {
        None => false,
        Some(Access::Private(_)) => true,
        Some(Access::Fileprivate(_)) => true,
        Some(Access::Internal(_)) => false,
        Some(Access::Public(_)) => false,
    }
}

/// Whether a context is that of a struct that its file keeps to itself.
fn is_kept_context(context: &str) -> bool
    ensures { result ≡ partials.is_kept_context context.now }
{
    context.as_bytes().contains(&b'@')
}

/// Whether a declaration is kept to its file.
fn is_kept(declared: Declared<'_>, key: &Key) -> bool
    ensures { result ≡ partials.is_kept (shown_declaration declared.entry) key.now }
{
    is_private(declared.access) || is_kept_context(key.context.as_str())
}

/// Puts the name of a declaration that has a key, that of a member with its context before it.
fn put_name(out: &mut Vec<u8>, key: &Key) -> Result<(), NoMemory>
    ensures { OnOk result (out.new.items ≡ out.old.items ++ partials.name_by_kind key.now.kind key.now) }
{
    if let Kind::Member = key.kind {
        put(out, key.context.as_str())?;
        put(out, ":")?;
    }
    put(out, key.name.as_str())?;
    Ok(())
}

/// Puts who may see a declaration, what it is, and its name.
fn put_front(
    out: &mut Vec<u8>,
    declared: Declared<'_>,
    keyword: &str,
    key: &Key,
) -> Result<(), NoMemory>
    ensures { OnOk result (out.new.items ≡ out.old.items ++ partials.front (shown_declaration declared.entry) keyword.now key.now) }
{
    put(out, access_text(declared.access))?;
    put(out, " ")?;
    put(out, keyword)?;
    put(out, " ")?;
    put_name(out, key)?;
    Ok(())
}

/// Puts a type, and ends the line.
fn put_last_type(out: &mut Vec<u8>, ty: &Ty) -> Result<(), NoMemory>
    ensures { OnOk result (out.new.items ≡ out.old.items ++ (blank ∷ (partials.type_name ty.now ++ (line_feed ∷ [])))) }
{
    put(out, " ")?;
    put(out, type_name(ty))?;
    put(out, "\n")?;
    Ok(())
}

/// Puts a number, and ends the line.
fn put_last_number(alloc: Global, out: &mut Vec<u8>, number: u64) -> Result<(), NoMemory>
    ensures { OnOk result (out.new.items ≡ out.old.items ++ (blank ∷ (decimal number ++ (line_feed ∷ [])))) }
{
    put(out, " ")?;
    put_number(alloc, out, number)?;
    put(out, "\n")?;
    Ok(())
}

/// Puts the line of what has a type.
fn put_type_line(
    out: &mut Vec<u8>,
    declared: Declared<'_>,
    keyword: &str,
    key: &Key,
    ty: &Ty,
) -> Result<(), NoMemory>
    ensures { OnOk result (out.new.items ≡ out.old.items ++ partials.type_line (shown_declaration declared.entry) keyword.now key.now ty.now) }
{
    put_front(out, declared, keyword, key)?;
    put_last_type(out, ty)?;
    Ok(())
}

/// Puts the line of a global or a computed property.
fn put_value_line(
    out: &mut Vec<u8>,
    declared: Declared<'_>,
    keyword: &str,
    key: &Key,
    meaning: &Meaning,
) -> Result<(), NoMemory>
    ensures { OnOk result (out.new.items ≡ out.old.items ++ partials.value_line (shown_declaration declared.entry) keyword.now key.now meaning.now) }
{
    match meaning {
        Meaning::Value { ty, .. } => put_type_line(out, declared, keyword, key, ty),
        _ => Ok(()),
    }
}

/// Puts the line of an alias.
fn put_alias_line(
    out: &mut Vec<u8>,
    declared: Declared<'_>,
    key: &Key,
    meaning: &Meaning,
) -> Result<(), NoMemory>
    ensures { OnOk result (out.new.items ≡ out.old.items ++ partials.alias_line (shown_declaration declared.entry) key.now meaning.now) }
{
    match meaning {
        Meaning::Alias { ty } => put_type_line(out, declared, "alias", key, ty),
        _ => Ok(()),
    }
}

/// Puts a label and a type.
fn put_labelled(out: &mut Vec<u8>, parameter: &Parameter) -> Result<(), NoMemory>
    ensures { OnOk result (out.new.items ≡ out.old.items ++ partials.labelled parameter.now) }
{
    put(out, parameter.label.as_str())?;
    put(out, ":")?;
    put(out, type_name(&parameter.ty))?;
    Ok(())
}

/// Puts the parameters behind the first one.
fn put_further(out: &mut Vec<u8>, parameters: &[Parameter]) -> Result<(), NoMemory>
    ensures { OnOk result (out.new.items ≡ out.old.items ++ flat_map (λ p. comma ∷ partials.labelled p) parameters.now) }
{
    for parameter in parameters {
        put(out, ",")?;
        put_labelled(out, parameter)?;
    }
    Ok(())
}

/// Puts parameters, with commas between them.
fn put_all_labelled(out: &mut Vec<u8>, parameters: &[Parameter]) -> Result<(), NoMemory>
    ensures { OnOk result (out.new.items ≡ out.old.items ++ partials.all_labelled parameters.now) }
{
    match parameters {
        [] => Ok(()),
        [first, more @ ..] => {
            put_labelled(out, first)?;
            put_further(out, more)?;
            Ok(())
        }
    }
}

/// Puts the line of a function that has these parameters and this result.
fn put_function(
    out: &mut Vec<u8>,
    declared: Declared<'_>,
    key: &Key,
    parameters: &[Parameter],
    of: &Ty,
) -> Result<(), NoMemory>
    ensures { OnOk result (out.new.items ≡ out.old.items ++ (partials.front (shown_declaration declared.entry) (codes "func") key.now ++ (opening ∷ (partials.all_labelled parameters.now ++ (closing ∷ (blank ∷ (partials.type_name of.now ++ (line_feed ∷ [])))))))) }
{
    put_front(out, declared, "func", key)?;
    put(out, "(")?;
    put_all_labelled(out, parameters)?;
    put(out, ")")?;
    put_last_type(out, of)?;
    Ok(())
}

/// Puts the line of a function or a method.
fn put_func_line(
    out: &mut Vec<u8>,
    declared: Declared<'_>,
    key: &Key,
    meaning: &Meaning,
) -> Result<(), NoMemory>
    ensures { OnOk result (out.new.items ≡ out.old.items ++ partials.func_line (shown_declaration declared.entry) key.now meaning.now) }
{
    match meaning {
        Meaning::Function { params, result } => {
            put_function(out, declared, key, params.as_slice(), result)
        }
        _ => Ok(()),
    }
}

/// Puts a struct of so many words.
fn put_struct(
    alloc: Global,
    out: &mut Vec<u8>,
    declared: Declared<'_>,
    key: &Key,
    words: u64,
) -> Result<(), NoMemory>
    ensures { OnOk result (out.new.items ≡ out.old.items ++ (partials.front (shown_declaration declared.entry) (codes "struct") key.now ++ (blank ∷ (decimal words ++ (line_feed ∷ []))))) }
{
    put_front(out, declared, "struct", key)?;
    put_last_number(alloc, out, words)?;
    Ok(())
}

/// Puts the line of a struct, by what its stored properties mean.
fn put_struct_line(
    alloc: Global,
    out: &mut Vec<u8>,
    declared: Declared<'_>,
    key: &Key,
    meaning: &Meaning,
) -> Result<(), NoMemory>
    ensures { OnOk result (out.new.items ≡ out.old.items ++ partials.struct_line (shown_declaration declared.entry) key.now meaning.now) }
{
    match meaning {
        Meaning::Fields { words, .. } => put_struct(alloc, out, declared, key, *words),
        _ => Ok(()),
    }
}

/// The first field of a name.
fn field_named<'a>(fields: &'a [Field], name: &str) -> Option<&'a Field>
    ensures { option_copied result ≡ partials.field_named name.now fields.now }
{
    for field in fields {
        if field.name.as_str() == name {
            return Some(field);
        }
    }
    None
}

/// Puts a stored property that stands at an offset.
fn put_field(
    alloc: Global,
    out: &mut Vec<u8>,
    declared: Declared<'_>,
    key: &Key,
    field: &Field,
) -> Result<(), NoMemory>
    ensures { OnOk result (out.new.items ≡ out.old.items ++ partials.found_field_line (shown_declaration declared.entry) key.now (Some field.now)) }
{
    put_front(out, declared, "field", key)?;
    put(out, " ")?;
    put(out, type_name(&field.ty))?;
    put_last_number(alloc, out, field.offset)?;
    Ok(())
}

/// Puts the line of a stored property, by what the stored properties of its struct mean.
fn put_field_line(
    alloc: Global,
    out: &mut Vec<u8>,
    declared: Declared<'_>,
    key: &Key,
    meaning: &Meaning,
) -> Result<(), NoMemory>
    ensures { OnOk result (out.new.items ≡ out.old.items ++ partials.field_line (shown_declaration declared.entry) key.now meaning.now) }
{
    match meaning {
        Meaning::Fields { fields, .. } => {
            match field_named(fields.as_slice(), key.name.as_str()) {
                Some(field) => put_field(alloc, out, declared, key, field),
                None => Ok(()),
            }
        }
        _ => Ok(()),
    }
}

/// Puts the line of a declaration that has a key.
fn put_item_line<A: Answers>(
    alloc: Global,
    answers: &A,
    out: &mut Vec<u8>,
    declared: Declared<'_>,
    key: &Key,
) -> Result<(), NoMemory>
    ensures { OnOk result (out.new.items ≡ out.old.items ++ partials.item_line (A.meanings answers.now) (shown_declaration declared.entry) key.now (shown_item declared.entry.item)) }
{
    match declared.item {
        Item::Global(tree) => {
            let keyword = specifier_text(&tree.specifier);
            put_value_line(out, declared, keyword, key, answers.meaning(key))
        }
        Item::Computed(_) => put_value_line(out, declared, "prop", key, answers.meaning(key)),
        Item::Func(_) => put_func_line(out, declared, key, answers.meaning(key)),
        Item::Alias(_) => put_alias_line(out, declared, key, answers.meaning(key)),
        Item::Struct(_) => {
            let fields = Key::nominal(key.name.clone()?);
            put_struct_line(alloc, out, declared, key, answers.meaning(&fields))
        }
        Item::Stored(_) => {
            let fields = Key::nominal(key.context.clone()?);
            put_field_line(alloc, out, declared, key, answers.meaning(&fields))
        }
        Item::Extension(_) => Ok(()),
    }
}

/// Puts the line of a declaration, if it isn't kept to its file.
#[tactic(auto, unfolding(crate::specs::Partials::partial_line))]
fn put_partial_line<A: Answers>(
    alloc: Global,
    answers: &A,
    out: &mut Vec<u8>,
    declared: Declared<'_>,
) -> Result<(), NoMemory>
    ensures { OnOk result (out.new.items ≡ out.old.items ++ partials.partial_line (A.meanings answers.now) (shown_declaration declared.entry)) }
{
    match declared.keys {
        [key, ..] => {
            if is_kept(declared, key) {
                return Ok(());
            }
            put_item_line(alloc, answers, out, declared, key)
        }
        [] => Ok(()),
    }
}

/// Puts the lines of the declarations of the file of a number.
fn put_lines<A: Answers>(
    alloc: Global,
    answers: &A,
    index: &Index,
    number: FileNo,
    out: &mut Vec<u8>,
) -> Result<(), NoMemory>
    ensures { OnOk result (out.new.items ≡ out.old.items ++ flat_map (partials.partial_line (A.meanings answers.now)) (declarations_of index.now number)) }
{
    for place in 0..u32::MAX {
        match index.declared(DeclRef {
            file: number,
            place,
        }) {
            None => return Ok(()),
            Some(declared) => put_partial_line(alloc, answers, out, declared)?,
        }
    }
    Err(NoMemory)
}

/// Puts the line with the path of the file.
fn put_heading(out: &mut Vec<u8>, path: &str) -> Result<(), NoMemory>
    ensures { OnOk result (out.new.items ≡ out.old.items ++ (codes "partial " ++ (path.now ++ (line_feed ∷ [])))) }
{
    put(out, "partial ")?;
    put(out, path)?;
    put(out, "\n")?;
    Ok(())
}

/// The partial text of the file of a number, where each key means what it is answered.
///
/// An error says that memory was wanted and not there, or that the module has no file of the number.
pub fn partial_text<A: Answers>(
    alloc: Global,
    answers: &A,
    index: &Index,
    number: FileNo,
) -> Result<Text, NoMemory>
    ensures text { IfOk result (λ text. Some text ≡ option_map (partials.partial_text (A.meanings answers.now)) (slice_get index.now number)) }
{
    match at(index.files(), number as usize) {
        None => Err(NoMemory),
        Some(file) => {
            let mut out = Vec::new(alloc);
            put_heading(&mut out, file.path.as_str())?;
            put_lines(alloc, answers, index, number, &mut out)?;
            Ok(Text::from_vec(out))
        }
    }
}
