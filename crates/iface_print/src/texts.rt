//! The texts of prints.

ghost use Rattle.std.specs.Prelude.{◌≡◌, ℕ, List, ◌∷◌, ◌++◌, decimal, OnOk};
ghost use Rattle.std.specs.Option.{option_copied};
ghost use Rattle.decl_index.specs.Found.{shown_declaration, shown_item};
ghost use Rattle.iface_print.specs.Prints as prints;
ghost use Rattle.type_infer.specs.Plain.{blank, bar, opening, closing, colon};
ghost use Rattle.type_infer.specs.Readings.{is_var};
ghost use Rattle.type_rules.specs.declared.meaning.Field.{Field};
ghost use Rattle.type_rules.specs.declared.meaning.Parameter.{Parameter};

use decl_index::{Declared, Item};
use dep_key::{Key, Kind, NoMemory};
use std::alloc::Global;
use swift_ast::{Access, BindingSpecifier};
use type_rules::{Field, Meaning, Parameter, Ty};

/// Who may see a declaration.
pub fn access_text(access: Option<&Access>) -> &'static str
    ensures { result.now ≡ prints.access_text (option_copied access.entry) }
{
    match access {
        None => "internal",
        Some(Access::Private(_)) => "private",
        Some(Access::Fileprivate(_)) => "private",
        Some(Access::Internal(_)) => "internal",
        Some(Access::Public(_)) => "public",
    }
}

fn mutable_text(mutable: bool) -> &'static str
    ensures { result.now ≡ prints.mutable_text mutable }
{
    if mutable { "var" } else { "let" }
}

pub fn specifier_text(specifier: &BindingSpecifier) -> &'static str
    ensures { result.now ≡ prints.mutable_text (is_var specifier.now) }
{
    match specifier {
        BindingSpecifier::Let(_) => "let",
        BindingSpecifier::Var(_) => "var",
    }
}

/// What is declared.
fn item_text(item: Item<'_>) -> &'static str
    ensures { result.now ≡ prints.item_text (shown_item item.entry) }
{
    match item {
        Item::Global(tree) => specifier_text(&tree.specifier),
        Item::Stored(tree) => specifier_text(&tree.specifier),
        Item::Computed(_) => "prop",
        Item::Func(_) => "func",
        Item::Alias(_) => "typealias",
        Item::Struct(_) => "struct",
        Item::Extension(_) => "extension",
    }
}

/// A type: a struct by its context, a built-in type so that no struct is taken for it.
fn type_text(ty: &Ty) -> &str
    ensures { result.now ≡ prints.type_text ty.now }
{
    match ty {
        Ty::Int => "Swift.Int",
        Ty::String => "Swift.String",
        Ty::Bool => "Swift.Bool",
        Ty::Void => "Swift.Void",
        Ty::Struct(context) => context.as_str(),
    }
}

/// Puts a text behind the others.
pub fn put(out: &mut Vec<u8>, text: &str) -> Result<(), NoMemory>
    ensures { OnOk result (out.new.items ≡ out.old.items ++ text.now) }
{
    out.extend_from_slice(text.as_bytes())?;
    Ok(())
}

/// Puts a number.
pub fn put_number(alloc: Global, out: &mut Vec<u8>, number: u64) -> Result<(), NoMemory>
    ensures { OnOk result (out.new.items ≡ out.old.items ++ decimal number) }
{
    let text = format!(in alloc; "{number}")?;
    put(out, text.as_str())?;
    Ok(())
}

/// Puts a label and a type.
fn put_parameter(out: &mut Vec<u8>, parameter: &Parameter) -> Result<(), NoMemory>
    ensures { OnOk result (out.new.items ≡ out.old.items ++ (parameter.now.label ++ (colon ∷ prints.type_text parameter.now.ty))) }
{
    put(out, parameter.label.as_str())?;
    put(out, ":")?;
    put(out, type_text(&parameter.ty))?;
    Ok(())
}

/// Puts a parameter behind another one.
fn put_further(out: &mut Vec<u8>, parameter: &Parameter) -> Result<(), NoMemory>
    ensures { OnOk result ((more : List Parameter) (after : List ℕ) → out.new.items ++ prints.more_params_text more after ≡ out.old.items ++ prints.more_params_text (parameter.now ∷ more) after) }
{
    put(out, ",")?;
    put_parameter(out, parameter)?;
    Ok(())
}

/// Puts the parameters behind the first one.
fn put_more(out: &mut Vec<u8>, parameters: &[Parameter]) -> Result<(), NoMemory>
    ensures { OnOk result ((after : List ℕ) → out.new.items ++ (closing ∷ after) ≡ out.old.items ++ prints.more_params_text parameters.now after) }
{
    for parameter in parameters {
        put_further(out, parameter)?;
    }
    Ok(())
}

/// Puts parameters, with commas between them.
fn put_parameters(out: &mut Vec<u8>, parameters: &[Parameter]) -> Result<(), NoMemory>
    ensures { OnOk result ((after : List ℕ) → out.new.items ++ (closing ∷ after) ≡ out.old.items ++ prints.params_text parameters.now after) }
{
    match parameters {
        [] => Ok(()),
        [first, more @ ..] => {
            put_parameter(out, first)?;
            put_more(out, more)?;
            Ok(())
        }
    }
}

/// Puts a function's parameters in brackets, and the type of its result.
fn put_function(out: &mut Vec<u8>, parameters: &[Parameter], of: &Ty) -> Result<(), NoMemory>
    ensures { OnOk result (out.new.items ≡ out.old.items ++ (opening ∷ prints.params_text parameters.now (blank ∷ prints.type_text of.now))) }
{
    put(out, "(")?;
    put_parameters(out, parameters)?;
    put(out, ") ")?;
    put(out, type_text(of))?;
    Ok(())
}

/// `=` behind a stored property that has an initial value.
fn put_value_mark(out: &mut Vec<u8>, has_value: bool) -> Result<(), NoMemory>
    ensures { OnOk result ((after : List ℕ) → out.new.items ++ after ≡ out.old.items ++ prints.value_mark has_value after) }
{
    if has_value {
        put(out, " =")?;
    }
    Ok(())
}

/// Puts the keyword and the name of a stored property.
fn put_binding(out: &mut Vec<u8>, field: &Field) -> Result<(), NoMemory>
    ensures { OnOk result (out.new.items ≡ out.old.items ++ (blank ∷ (bar ∷ (blank ∷ (prints.mutable_text field.now.mutable ++ (blank ∷ field.now.name)))))) }
{
    put(out, " | ")?;
    put(out, mutable_text(field.mutable))?;
    put(out, " ")?;
    put(out, field.name.as_str())?;
    Ok(())
}

/// Puts the type and the offset of a stored property.
fn put_place(alloc: Global, out: &mut Vec<u8>, field: &Field) -> Result<(), NoMemory>
    ensures { OnOk result (out.new.items ≡ out.old.items ++ (colon ∷ (blank ∷ (prints.type_text field.now.ty ++ (blank ∷ decimal field.now.offset))))) }
{
    put(out, ": ")?;
    put(out, type_text(&field.ty))?;
    put(out, " ")?;
    put_number(alloc, out, field.offset)?;
    Ok(())
}

/// Puts a stored property: its keyword, name, type and offset.
fn put_field(alloc: Global, out: &mut Vec<u8>, field: &Field) -> Result<(), NoMemory>
    ensures { OnOk result ((more : List Field) → out.new.items ++ prints.fields_text more ≡ out.old.items ++ prints.fields_text (field.now ∷ more)) }
{
    put_binding(out, field)?;
    put_place(alloc, out, field)?;
    put_value_mark(out, field.has_value)?;
    Ok(())
}

/// Puts the stored properties of a struct.
fn put_fields(alloc: Global, out: &mut Vec<u8>, fields: &[Field]) -> Result<(), NoMemory>
    ensures { OnOk result (out.new.items ≡ out.old.items ++ prints.fields_text fields.now) }
{
    for field in fields {
        put_field(alloc, out, field)?;
    }
    Ok(())
}

/// Puts the words of a struct and its stored properties.
fn put_layout(
    alloc: Global,
    out: &mut Vec<u8>,
    fields: &[Field],
    words: u64,
) -> Result<(), NoMemory>
    ensures { OnOk result (out.new.items ≡ out.old.items ++ (blank ∷ (decimal words ++ prints.fields_text fields.now))) }
{
    put(out, " ")?;
    put_number(alloc, out, words)?;
    put_fields(alloc, out, fields)?;
    Ok(())
}

/// Puts a mark and a type.
fn put_type(out: &mut Vec<u8>, mark: &str, ty: &Ty) -> Result<(), NoMemory>
    ensures { OnOk result (out.new.items ≡ out.old.items ++ mark.now ++ prints.type_text ty.now) }
{
    put(out, mark)?;
    put(out, type_text(ty))?;
    Ok(())
}

/// Puts what follows the name of a declaration, by what its key means.
fn put_meaning(alloc: Global, out: &mut Vec<u8>, meaning: &Meaning) -> Result<(), NoMemory>
    ensures { OnOk result (out.new.items ≡ out.old.items ++ prints.meaning_text meaning.now) }
{
    match meaning {
        Meaning::Value { ty, .. } => put_type(out, ": ", ty),
        Meaning::Function { params, result } => put_function(out, params.as_slice(), result),
        Meaning::Alias { ty } => put_type(out, " = ", ty),
        Meaning::Struct { .. } => Ok(()),
        Meaning::Fields { fields, words } => put_layout(alloc, out, fields.as_slice(), *words),
        Meaning::Broken => put(out, " broken"),
        Meaning::Circular => put(out, " circular"),
        Meaning::Ambiguous => put(out, " ambiguous"),
        Meaning::NoProvider => Ok(()),
    }
}

/// Puts a declaration with what its key means.
fn put_declaration(
    alloc: Global,
    out: &mut Vec<u8>,
    declared: Declared<'_>,
    meaning: &Meaning,
) -> Result<(), NoMemory>
    ensures { OnOk result (out.new.items ≡ out.old.items ++ prints.declaration_text (shown_declaration declared.entry) meaning.now) }
{
    put(out, access_text(declared.access))?;
    put(out, " ")?;
    put(out, item_text(declared.item))?;
    put(out, " ")?;
    put(out, declared.name)?;
    put_meaning(alloc, out, meaning)?;
    Ok(())
}

/// Puts what a struct or an extension says of a potential member.
fn put_potential(out: &mut Vec<u8>, declared: Declared<'_>) -> Result<(), NoMemory>
    ensures { OnOk result (out.new.items ≡ out.old.items ++ prints.potential_text (shown_declaration declared.entry) (shown_item declared.entry.item)) }
{
    match declared.item {
        Item::Extension(_) => put(out, "extension ")?,
        _ => {
            put(out, access_text(declared.access))?;
            put(out, " struct ")?;
        }
    }
    put(out, declared.name)?;
    Ok(())
}

/// Puts the print of a declaration under one of its keys, where the key has this meaning.
pub fn put_print(
    alloc: Global,
    out: &mut Vec<u8>,
    key: &Key,
    meaning: &Meaning,
    declared: Declared<'_>,
) -> Result<(), NoMemory>
    ensures { OnOk result (out.new.items ≡ out.old.items ++ prints.print_of key.now meaning.now (shown_declaration declared.entry)) }
{
    match key.kind {
        Kind::TopLevel | Kind::Nominal | Kind::Member => {
            put_declaration(alloc, out, declared, meaning)
        }
        _ => put_potential(out, declared),
    }
}
