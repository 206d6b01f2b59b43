//! Every form of control, and an assignment to a member of a global:
//!
//!     func classify(_ n: Int, _ flag: Bool) -> Int {
//!         if n < 0 {
//!             return -n
//!         } else if flag && n > 1_0 || !flag {
//!             return n % 007
//!         } else if flag == true {
//!             log(n)
//!         } else {
//!             return 0
//!         }
//!         var t = "a" + "b"
//!         while n != 3 && flag {
//!             note()
//!         }
//!         return n
//!     }
//!     func reset() {
//!         wallet.entries = 0
//!     }
//!
//! where `log` returns a string, `note` nothing, and `wallet` is an `Account`.

use crate::code::{Code, branch, function};
use dep_key::NoMemory;
use sqlite_items::Items;
use std::alloc::Global;
use typed_code::{Branch, Operator, Step, Unit};

fn is_below_zero(alloc: Global) -> Result<Items<Step>, NoMemory> {
    let mut code = Code::new(alloc);
    code.local(0, "Int")?;
    code.integer("0")?;
    code.operate(Operator::Less, "Int")?;
    Ok(code.finish())
}

fn return_negated(alloc: Global) -> Result<Items<Step>, NoMemory> {
    let mut code = Code::new(alloc);
    code.local(0, "Int")?;
    code.step(Step::Negate)?;
    code.give_back("Int")?;
    Ok(code.finish())
}

fn is_above_ten(alloc: Global) -> Result<Items<Step>, NoMemory> {
    let mut code = Code::new(alloc);
    code.local(0, "Int")?;
    code.integer("1_0")?;
    code.operate(Operator::Greater, "Int")?;
    Ok(code.finish())
}

fn is_not_flagged(alloc: Global) -> Result<Items<Step>, NoMemory> {
    let mut code = Code::new(alloc);
    code.local(1, "Bool")?;
    code.step(Step::Not)?;
    Ok(code.finish())
}

fn is_chosen(alloc: Global) -> Result<Items<Step>, NoMemory> {
    let mut code = Code::new(alloc);
    code.local(1, "Bool")?;
    let right = is_above_ten(alloc)?;
    code.step(Step::And(right))?;
    let right = is_not_flagged(alloc)?;
    code.step(Step::Or(right))?;
    Ok(code.finish())
}

fn return_remainder(alloc: Global) -> Result<Items<Step>, NoMemory> {
    let mut code = Code::new(alloc);
    code.local(0, "Int")?;
    code.integer("007")?;
    code.operate(Operator::Remainder, "Int")?;
    code.give_back("Int")?;
    Ok(code.finish())
}

fn is_flagged(alloc: Global) -> Result<Items<Step>, NoMemory> {
    let mut code = Code::new(alloc);
    code.local(1, "Bool")?;
    code.step(Step::Truth(true))?;
    code.operate(Operator::Equal, "Bool")?;
    Ok(code.finish())
}

fn log(alloc: Global) -> Result<Items<Step>, NoMemory> {
    let mut code = Code::new(alloc);
    code.local(0, "Int")?;
    code.call("log", &["Int"], "String")?;
    code.drop_value("String")?;
    Ok(code.finish())
}

fn return_zero(alloc: Global) -> Result<Items<Step>, NoMemory> {
    let mut code = Code::new(alloc);
    code.integer("0")?;
    code.give_back("Int")?;
    Ok(code.finish())
}

fn branches(alloc: Global) -> Result<Vec<Branch>, NoMemory> {
    let mut branches = Vec::new(alloc);
    let condition = is_below_zero(alloc)?;
    branches.push(branch(condition, return_negated(alloc)?))?;
    let condition = is_chosen(alloc)?;
    branches.push(branch(condition, return_remainder(alloc)?))?;
    let condition = is_flagged(alloc)?;
    branches.push(branch(condition, log(alloc)?))?;
    Ok(branches)
}

fn set_text(code: &mut Code) -> Result<(), NoMemory> {
    code.string("\"a\"")?;
    code.string("\"b\"")?;
    code.operate(Operator::Add, "String")?;
    code.set_local(2, &[], "String")
}

fn goes_on(alloc: Global) -> Result<Items<Step>, NoMemory> {
    let mut right = Code::new(alloc);
    right.local(1, "Bool")?;
    let mut code = Code::new(alloc);
    code.local(0, "Int")?;
    code.integer("3")?;
    code.operate(Operator::NotEqual, "Int")?;
    code.step(Step::And(right.finish()))?;
    Ok(code.finish())
}

fn note(alloc: Global) -> Result<Items<Step>, NoMemory> {
    let mut code = Code::new(alloc);
    code.call("note", &[], "Void")?;
    code.drop_value("Void")?;
    Ok(code.finish())
}

fn classify(alloc: Global) -> Result<Unit, NoMemory> {
    let mut code = Code::new(alloc);
    let branches = branches(alloc)?;
    let last = return_zero(alloc)?;
    code.step(Step::If(Items::from_vec(branches), last))?;
    set_text(&mut code)?;
    let condition = goes_on(alloc)?;
    let block = note(alloc)?;
    code.step(Step::While(condition, block))?;
    code.local(0, "Int")?;
    code.give_back("Int")?;
    let code = code.finish();
    function(
        alloc,
        "classify",
        "",
        2,
        &["Int", "Bool", "String"],
        "Int",
        code,
    )
}

fn reset(alloc: Global) -> Result<Unit, NoMemory> {
    let mut code = Code::new(alloc);
    code.integer("0")?;
    code.set_global("wallet", &[("Account", "entries")], "Int")?;
    code.give_back("Void")?;
    function(alloc, "reset", "", 0, &[], "Void", code.finish())
}

pub fn units(alloc: Global) -> Result<Vec<Unit>, NoMemory> {
    let mut units = Vec::new(alloc);
    units.push(classify(alloc)?)?;
    units.push(reset(alloc)?)?;
    Ok(units)
}
