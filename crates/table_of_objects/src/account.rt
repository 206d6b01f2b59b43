//! A struct, an extension of it, and a computed property of another one:
//!
//!     struct Account {
//!         let owner: String
//!         var balance: Money
//!         var entries = 0
//!     }
//!     extension Account {
//!         func after(deposit m: Money) -> Account {
//!             var next = Account(owner: owner, balance: balance.plus(m))
//!             next.entries = entries + 1
//!             return next
//!         }
//!     }
//!     extension Money {
//!         var text: String { return sign + "cents" }
//!     }
//!
//! where `sign` is a computed property that its file `Money.swift` alone sees.

use crate::code::{Code, function};
use crate::known::type_of;
use dep_key::{Name, NoMemory};
use sqlite_items::Items;
use std::alloc::Global;
use type_rules::Ty;
use typed_code::{Initial, Operator, Unit};

fn no_entries(alloc: Global) -> Result<Initial, NoMemory> {
    let mut code = Code::new(alloc);
    code.integer("0")?;
    Ok(Initial::Own(code.finish()))
}

fn initials(alloc: Global) -> Result<Vec<Initial>, NoMemory> {
    let mut initials = Vec::new(alloc);
    initials.push(Initial::Given(Ty::String))?;
    initials.push(Initial::Given(type_of(alloc, "Money")?))?;
    initials.push(no_entries(alloc)?)?;
    Ok(initials)
}

fn initializer(alloc: Global) -> Result<Unit, NoMemory> {
    let initials = initials(alloc)?;
    let context = Name::from_str(alloc, "Account")?;
    Ok(Unit::Initializer(context, Items::from_vec(initials)))
}

fn next_account(code: &mut Code) -> Result<(), NoMemory> {
    code.self_value("Account")?;
    code.property("Account", "owner", "String")?;
    code.self_value("Account")?;
    code.property("Account", "balance", "Money")?;
    code.local(0, "Money")?;
    code.call("Money:plus", &["Money", "Money"], "Money")?;
    code.call("Account:init", &["String", "Money"], "Account")?;
    code.set_local(1, &[], "Account")
}

fn count_entry(code: &mut Code) -> Result<(), NoMemory> {
    code.self_value("Account")?;
    code.property("Account", "entries", "Int")?;
    code.integer("1")?;
    code.operate(Operator::Add, "Int")?;
    code.set_local(1, &[("Account", "entries")], "Int")
}

fn after(alloc: Global) -> Result<Unit, NoMemory> {
    let mut code = Code::new(alloc);
    next_account(&mut code)?;
    count_entry(&mut code)?;
    code.local(1, "Account")?;
    code.give_back("Account")?;
    let code = code.finish();
    function(
        alloc,
        "Account:after",
        "Account",
        1,
        &["Money", "Account"],
        "Account",
        code,
    )
}

fn text(alloc: Global) -> Result<Unit, NoMemory> {
    let mut code = Code::new(alloc);
    code.self_value("Money")?;
    code.property("Money", "sign@Money.swift", "String")?;
    code.string("\"cents\"")?;
    code.operate(Operator::Add, "String")?;
    code.give_back("String")?;
    function(
        alloc,
        "Money:text",
        "Money",
        0,
        &[],
        "String",
        code.finish(),
    )
}

pub fn units(alloc: Global) -> Result<Vec<Unit>, NoMemory> {
    let mut units = Vec::new(alloc);
    units.push(initializer(alloc)?)?;
    units.push(after(alloc)?)?;
    units.push(text(alloc)?)?;
    Ok(units)
}
