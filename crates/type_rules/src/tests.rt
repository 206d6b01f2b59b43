ghost use Rattle.std.specs.Prelude.{◌≡◌, if◌then◌else◌, IfOk};
ghost use Rattle.std.specs.Ordering.{eq_by_cmp};
ghost use Rattle.dep_key.specs.KeyOrder.{key_order};

use super::*;
use std::alloc::Global;
use std::test::Fail;

fn struct_type(alloc: Global, context: &str) -> Result<Ty, NoMemory> {
    Ok(Ty::Struct(Name::from_str(alloc, context)?))
}

#[test]
fn arithmetic_and_concatenation(rt: HostRuntime) {
    assert_eq!(rt; binary("+", &Ty::Int, &Ty::Int), Some(Ty::Int));
    assert_eq!(rt; binary("+", &Ty::String, &Ty::String), Some(Ty::String));
    assert_eq!(rt; binary("-", &Ty::Int, &Ty::Int), Some(Ty::Int));
    assert_eq!(rt; binary("*", &Ty::Int, &Ty::Int), Some(Ty::Int));
    assert_eq!(rt; binary("/", &Ty::Int, &Ty::Int), Some(Ty::Int));
    assert_eq!(rt; binary("%", &Ty::Int, &Ty::Int), Some(Ty::Int));
}

#[test]
fn integers_and_strings_are_ordered(rt: HostRuntime) {
    assert_eq!(rt; binary("<", &Ty::Int, &Ty::Int), Some(Ty::Bool));
    assert_eq!(rt; binary("<", &Ty::String, &Ty::String), Some(Ty::Bool));
    assert_eq!(rt; binary("<=", &Ty::Int, &Ty::Int), Some(Ty::Bool));
    assert_eq!(rt; binary("<=", &Ty::String, &Ty::String), Some(Ty::Bool));
    assert_eq!(rt; binary(">", &Ty::Int, &Ty::Int), Some(Ty::Bool));
    assert_eq!(rt; binary(">", &Ty::String, &Ty::String), Some(Ty::Bool));
    assert_eq!(rt; binary(">=", &Ty::Int, &Ty::Int), Some(Ty::Bool));
    assert_eq!(rt; binary(">=", &Ty::String, &Ty::String), Some(Ty::Bool));
}

#[test]
fn equality_of_three_types(rt: HostRuntime) {
    assert_eq!(rt; binary("==", &Ty::Int, &Ty::Int), Some(Ty::Bool));
    assert_eq!(rt; binary("==", &Ty::String, &Ty::String), Some(Ty::Bool));
    assert_eq!(rt; binary("==", &Ty::Bool, &Ty::Bool), Some(Ty::Bool));
    assert_eq!(rt; binary("!=", &Ty::Int, &Ty::Int), Some(Ty::Bool));
    assert_eq!(rt; binary("!=", &Ty::String, &Ty::String), Some(Ty::Bool));
    assert_eq!(rt; binary("!=", &Ty::Bool, &Ty::Bool), Some(Ty::Bool));
}

#[test]
fn logical_operators(rt: HostRuntime) {
    assert_eq!(rt; binary("&&", &Ty::Bool, &Ty::Bool), Some(Ty::Bool));
    assert_eq!(rt; binary("||", &Ty::Bool, &Ty::Bool), Some(Ty::Bool));
    assert_eq!(rt; binary("&&", &Ty::Int, &Ty::Int), None);
    assert_eq!(rt; binary("||", &Ty::String, &Ty::String), None);
}

#[test]
fn other_operands_are_refused(rt: HostRuntime) -> Result<(), Fail> {
    let alloc = rt.alloc();
    let point = struct_type(alloc, "Point")?;
    let other = struct_type(alloc, "Line")?;
    assert_eq!(rt; binary("+", &Ty::Bool, &Ty::Bool), None);
    assert_eq!(rt; binary("-", &Ty::String, &Ty::String), None);
    assert_eq!(rt; binary("<", &Ty::Bool, &Ty::Bool), None);
    assert_eq!(rt; binary("==", &Ty::Void, &Ty::Void), None);
    assert_eq!(rt; binary("==", &point, &point), None);
    assert_eq!(rt; binary("==", &point, &other), None);
    assert_eq!(rt; binary("+", &Ty::Int, &Ty::String), None);
    assert_eq!(rt; binary("==", &Ty::Bool, &Ty::Int), None);
    Ok(())
}

#[test]
fn other_operators_are_refused(rt: HostRuntime) {
    assert_eq!(rt; binary("&", &Ty::Bool, &Ty::Bool), None);
    assert_eq!(rt; binary("&", &Ty::Int, &Ty::Int), None);
    assert_eq!(rt; binary("=", &Ty::Int, &Ty::Int), None);
    assert_eq!(rt; binary("!", &Ty::Bool, &Ty::Bool), None);
    assert_eq!(rt; binary("", &Ty::String, &Ty::String), None);
    assert_eq!(rt; binary("++", &Ty::String, &Ty::String), None);
}

#[test]
fn prefix_operators(rt: HostRuntime) {
    assert_eq!(rt; unary("-", &Ty::Int), Some(Ty::Int));
    assert_eq!(rt; unary("!", &Ty::Bool), Some(Ty::Bool));
    assert_eq!(rt; unary("-", &Ty::String), None);
    assert_eq!(rt; unary("-", &Ty::Bool), None);
    assert_eq!(rt; unary("!", &Ty::Int), None);
    assert_eq!(rt; unary("!", &Ty::Void), None);
    assert_eq!(rt; unary("+", &Ty::Int), None);
}

#[test]
fn types_are_shown(rt: HostRuntime) -> Result<(), Fail> {
    let alloc = rt.alloc();
    assert_eq!(rt; Ty::Int.shown(), "Int");
    assert_eq!(rt; Ty::String.shown(), "String");
    assert_eq!(rt; Ty::Bool.shown(), "Bool");
    assert_eq!(rt; Ty::Void.shown(), "Void");
    assert_eq!(rt; struct_type(alloc, "Point")?.shown(), "Point");
    assert_eq!(rt; struct_type(alloc, "Point@a/b.swift")?.shown(), "Point");
    assert_eq!(rt; struct_type(alloc, "Point@a@b.swift")?.shown(), "Point");
    Ok(())
}

#[test]
fn types_are_equal_or_differ(rt: HostRuntime) -> Result<(), Fail> {
    let alloc = rt.alloc();
    let point = struct_type(alloc, "Point")?;
    let own = struct_type(alloc, "Point@a.swift")?;
    assert_eq!(rt; point.clone()?, point);
    assert_eq!(rt; Ty::Void.clone()?, Ty::Void);
    assert!(rt; point != own);
    assert!(rt; point != Ty::Int);
    assert!(rt; Ty::Int != Ty::Bool);
    Ok(())
}

/// One key that has a meaning, where all others have another one.
#[derive(Drop)]
struct OneKnown {
    key: Key,
    meaning: Meaning,
    others: Meaning,
}

impl Answers for OneKnown {
    ghost meanings = { λ known key. if eq_by_cmp key_order key known.key then known.meaning else known.others };

    fn meaning(&self, key: &Key) -> &Meaning {
        if *key == self.key {
            &self.meaning
        } else {
            &self.others
        }
    }
}

fn field(alloc: Global, name: &str, ty: Ty, offset: u64) -> Result<Field, NoMemory> {
    Ok(Field {
        name: Name::from_str(alloc, name)?,
        ty,
        mutable: true,
        has_value: false,
        offset,
    })
}

// A caller knows that a copy equals what it copies.
fn copy_of_type(ty: &Ty) -> Result<Ty, NoMemory>
    ensures { IfOk result (λ copy. copy ≡ ty.now) }
{
    Ok(ty.clone()?)
}

fn copy_of_field(field: &Field) -> Result<Field, NoMemory>
    ensures { IfOk result (λ copy. copy ≡ field.now) }
{
    Ok(field.clone()?)
}

fn copy_of_parameter(parameter: &Parameter) -> Result<Parameter, NoMemory>
    ensures { IfOk result (λ copy. copy ≡ parameter.now) }
{
    Ok(parameter.clone()?)
}

#[test]
fn copies_equal_what_they_copy(rt: HostRuntime) -> Result<(), Fail> {
    let alloc = rt.alloc();
    let width = field(alloc, "width", struct_type(alloc, "Point@a.swift")?, 3)?;
    let parameter = Parameter {
        label: Name::from_str(alloc, "_")?,
        ty: Ty::Bool,
    };
    assert_eq!(rt; copy_of_type(&width.ty)?, width.ty);
    assert_eq!(rt; copy_of_field(&width)?, width);
    assert_eq!(rt; copy_of_parameter(&parameter)?, parameter);
    let known = point_known(alloc)?;
    assert_eq!(rt; known.meaning.clone()?, known.meaning);
    assert!(rt; known.meaning != known.others);
    Ok(())
}

fn point_known(alloc: Global) -> Result<OneKnown, NoMemory> {
    let key = Key::nominal(Name::from_str(alloc, "Point")?);
    let mut fields = Vec::new(alloc);
    fields.push(field(alloc, "x", Ty::Int, 0)?)?;
    fields.push(field(alloc, "label", Ty::String, 1)?)?;
    Ok(OneKnown {
        key,
        meaning: Meaning::Fields {
            fields: Fields::from_vec(fields),
            words: 3,
        },
        others: Meaning::NoProvider,
    })
}

#[test]
fn sizes_in_words(rt: HostRuntime) -> Result<(), Fail> {
    let alloc = rt.alloc();
    let known = point_known(alloc)?;
    assert_eq!(rt; words(alloc, &Ty::Int, &known)?, Some(1));
    assert_eq!(rt; words(alloc, &Ty::Bool, &known)?, Some(1));
    assert_eq!(rt; words(alloc, &Ty::String, &known)?, Some(2));
    assert_eq!(rt; words(alloc, &Ty::Void, &known)?, Some(0));
    Ok(())
}

fn struct_words(alloc: Global, context: &str) -> Result<Option<u64>, NoMemory> {
    let known = point_known(alloc)?;
    let ty = struct_type(alloc, context)?;
    let found = words(alloc, &ty, &known)?;
    Ok(found)
}

#[test]
fn structs_have_the_words_of_their_fields(rt: HostRuntime) -> Result<(), Fail> {
    let alloc = rt.alloc();
    assert_eq!(rt; struct_words(alloc, "Point")?, Some(3));
    assert_eq!(rt; struct_words(alloc, "Line")?, None);
    assert_eq!(rt; struct_words(alloc, "Point@a.swift")?, None);
    Ok(())
}
