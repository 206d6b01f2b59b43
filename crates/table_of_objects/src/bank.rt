//! `typealias Balance = Money`, a global, and a function that uses both:
//!
//!     let opening: Balance = Money(cents: 100)
//!     func run() {
//!         var n = 0
//!         var a = Account(owner: "Ada", balance: opening)
//!         while n < 3 {
//!             a = a.after(deposit: Money(cents: n * 10))
//!             n = n + 1
//!         }
//!         print(a.balance.cents)
//!     }

use crate::code::{Code, function};
use dep_key::{Name, NoMemory};
use sqlite_items::Items;
use std::alloc::Global;
use type_rules::Ty;
use typed_code::{Operator, Step, Unit};

fn opening(alloc: Global) -> Result<Unit, NoMemory> {
    let mut code = Code::new(alloc);
    code.integer("100")?;
    code.call("Money:init", &["Int"], "Money")?;
    let money = Name::from_str(alloc, "Money")?;
    let symbol = Name::from_str(alloc, "opening")?;
    Ok(Unit::Global(symbol, Ty::Struct(money), code.finish()))
}

fn is_below_three(alloc: Global) -> Result<Items<Step>, NoMemory> {
    let mut code = Code::new(alloc);
    code.local(0, "Int")?;
    code.integer("3")?;
    code.operate(Operator::Less, "Int")?;
    Ok(code.finish())
}

fn add_deposit(code: &mut Code) -> Result<(), NoMemory> {
    code.local(1, "Account")?;
    code.local(0, "Int")?;
    code.integer("10")?;
    code.operate(Operator::Multiply, "Int")?;
    code.call("Money:init", &["Int"], "Money")?;
    code.call("Account:after", &["Account", "Money"], "Account")?;
    code.set_local(1, &[], "Account")
}

fn count_up(code: &mut Code) -> Result<(), NoMemory> {
    code.local(0, "Int")?;
    code.integer("1")?;
    code.operate(Operator::Add, "Int")?;
    code.set_local(0, &[], "Int")
}

fn block(alloc: Global) -> Result<Items<Step>, NoMemory> {
    let mut code = Code::new(alloc);
    add_deposit(&mut code)?;
    count_up(&mut code)?;
    Ok(code.finish())
}

fn locals(code: &mut Code) -> Result<(), NoMemory> {
    code.integer("0")?;
    code.set_local(0, &[], "Int")?;
    code.string("\"Ada\"")?;
    code.global("opening", "Money")?;
    code.call("Account:init", &["String", "Money"], "Account")?;
    code.set_local(1, &[], "Account")
}

fn print_cents(code: &mut Code) -> Result<(), NoMemory> {
    code.local(1, "Account")?;
    code.property("Account", "balance", "Money")?;
    code.property("Money", "cents", "Int")?;
    code.step(Step::Print(Ty::Int))?;
    code.give_back("Void")
}

fn run(alloc: Global) -> Result<Unit, NoMemory> {
    let mut code = Code::new(alloc);
    locals(&mut code)?;
    let condition = is_below_three(alloc)?;
    let block = block(alloc)?;
    code.step(Step::While(condition, block))?;
    print_cents(&mut code)?;
    function(
        alloc,
        "run",
        "",
        0,
        &["Int", "Account"],
        "Void",
        code.finish(),
    )
}

pub fn units(alloc: Global) -> Result<Vec<Unit>, NoMemory> {
    let mut units = Vec::new(alloc);
    units.push(opening(alloc)?)?;
    units.push(run(alloc)?)?;
    Ok(units)
}
