//! What the keys of the examples mean.

ghost use Rattle.std.specs.Prelude.{if◌then◌else◌};
ghost use Rattle.std.specs.Ordering.{eq_by_cmp};
ghost use Rattle.dep_key.specs.KeyOrder.{key_order};

use dep_key::{Key, Name, NoMemory};
use std::alloc::Global;
use type_rules::{Answers, Field, Fields, Meaning, Ty};

/// Two structs with their stored properties; no other key has a provider.
#[derive(Drop)]
pub struct Known {
    money: Key,
    money_fields: Meaning,
    account: Key,
    account_fields: Meaning,
    others: Meaning,
}

impl Answers for Known {
    ghost meanings = { λ known key. if eq_by_cmp key_order key known.money then known.money_fields else (if eq_by_cmp key_order key known.account then known.account_fields else known.others) };

    fn meaning(&self, key: &Key) -> &Meaning {
        if *key == self.money {
            &self.money_fields
        } else if *key == self.account {
            &self.account_fields
        } else {
            &self.others
        }
    }
}

/// A type by its name: a type of the language, or a struct.
pub fn type_of(alloc: Global, name: &str) -> Result<Ty, NoMemory> {
    match name {
        "Int" => Ok(Ty::Int),
        "String" => Ok(Ty::String),
        "Bool" => Ok(Ty::Bool),
        "Void" => Ok(Ty::Void),
        _ => {
            let context = Name::from_str(alloc, name)?;
            Ok(Ty::Struct(context))
        }
    }
}

fn field(alloc: Global, name: &str, ty: &str, offset: u64) -> Result<Field, NoMemory> {
    let name = Name::from_str(alloc, name)?;
    let ty = type_of(alloc, ty)?;
    Ok(Field {
        name,
        ty,
        mutable: true,
        has_value: false,
        offset,
    })
}

fn money_fields(alloc: Global) -> Result<Meaning, NoMemory> {
    let mut fields = Vec::new(alloc);
    fields.push(field(alloc, "cents", "Int", 0)?)?;
    Ok(Meaning::Fields {
        fields: Fields::from_vec(fields),
        words: 1,
    })
}

fn account_fields(alloc: Global) -> Result<Meaning, NoMemory> {
    let mut fields = Vec::new(alloc);
    fields.push(field(alloc, "owner", "String", 0)?)?;
    fields.push(field(alloc, "balance", "Money", 2)?)?;
    fields.push(field(alloc, "entries", "Int", 3)?)?;
    Ok(Meaning::Fields {
        fields: Fields::from_vec(fields),
        words: 4,
    })
}

fn struct_key(alloc: Global, name: &str) -> Result<Key, NoMemory> {
    let context = Name::from_str(alloc, name)?;
    Ok(Key::nominal(context))
}

impl Known {
    /// The structs of the bank.
    pub fn new(alloc: Global) -> Result<Known, NoMemory> {
        let money_fields = money_fields(alloc)?;
        let account_fields = account_fields(alloc)?;
        let money = struct_key(alloc, "Money")?;
        let account = struct_key(alloc, "Account")?;
        Ok(Known {
            money,
            money_fields,
            account,
            account_fields,
            others: Meaning::NoProvider,
        })
    }
}
