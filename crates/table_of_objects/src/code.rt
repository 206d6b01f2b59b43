//! Steps, written one behind the other.

use crate::known::type_of;
use dep_key::{Name, NoMemory, Text};
use sqlite_items::Items;
use std::alloc::Global;
use type_rules::Ty;
use typed_code::{Branch, Function, Operator, Step, Unit};

/// Steps in the making. Types are given by their names.
#[derive(Drop)]
pub struct Code {
    steps: Vec<Step>,
    alloc: Global,
}

fn types_of(alloc: Global, names: &[&str]) -> Result<Items<Ty>, NoMemory> {
    let mut types = Vec::new(alloc);
    for name in names {
        types.push(type_of(alloc, name)?)?;
    }
    Ok(Items::from_vec(types))
}

// The members of a struct on the way to what is assigned to.
fn members_of(alloc: Global, members: &[(&str, &str)]) -> Result<Items<(Name, Name)>, NoMemory> {
    let mut made = Vec::new(alloc);
    for (context, name) in members {
        let context = Name::from_str(alloc, context)?;
        let name = Name::from_str(alloc, name)?;
        made.push((context, name))?;
    }
    Ok(Items::from_vec(made))
}

impl Code {
    pub fn new(alloc: Global) -> Code {
        Code {
            steps: Vec::new(alloc),
            alloc,
        }
    }

    pub fn finish(self) -> Items<Step> {
        let Code { steps, .. } = self;
        Items::from_vec(steps)
    }

    pub fn step(&mut self, step: Step) -> Result<(), NoMemory> {
        self.steps.push(step)?;
        Ok(())
    }

    pub fn integer(&mut self, literal: &str) -> Result<(), NoMemory> {
        let literal = Text::from_slice(self.alloc, literal.as_bytes())?;
        self.step(Step::Integer(literal))
    }

    pub fn string(&mut self, literal: &str) -> Result<(), NoMemory> {
        let literal = Text::from_slice(self.alloc, literal.as_bytes())?;
        self.step(Step::StringText(literal))
    }

    pub fn local(&mut self, number: u32, ty: &str) -> Result<(), NoMemory> {
        let ty = type_of(self.alloc, ty)?;
        self.step(Step::Local(number, ty))
    }

    pub fn self_value(&mut self, ty: &str) -> Result<(), NoMemory> {
        let ty = type_of(self.alloc, ty)?;
        self.step(Step::SelfValue(ty))
    }

    pub fn global(&mut self, symbol: &str, ty: &str) -> Result<(), NoMemory> {
        let ty = type_of(self.alloc, ty)?;
        let symbol = Name::from_str(self.alloc, symbol)?;
        self.step(Step::Global(symbol, ty))
    }

    pub fn property(&mut self, context: &str, name: &str, ty: &str) -> Result<(), NoMemory> {
        let ty = type_of(self.alloc, ty)?;
        let context = Name::from_str(self.alloc, context)?;
        let name = Name::from_str(self.alloc, name)?;
        self.step(Step::Property(context, name, ty))
    }

    pub fn call(&mut self, symbol: &str, takes: &[&str], gives: &str) -> Result<(), NoMemory> {
        let takes = types_of(self.alloc, takes)?;
        let gives = type_of(self.alloc, gives)?;
        let symbol = Name::from_str(self.alloc, symbol)?;
        self.step(Step::Call(symbol, takes, gives))
    }

    pub fn operate(&mut self, operator: Operator, ty: &str) -> Result<(), NoMemory> {
        let ty = type_of(self.alloc, ty)?;
        self.step(Step::Operate(operator, ty))
    }

    pub fn set_local(
        &mut self,
        number: u32,
        members: &[(&str, &str)],
        ty: &str,
    ) -> Result<(), NoMemory> {
        let members = members_of(self.alloc, members)?;
        let ty = type_of(self.alloc, ty)?;
        self.step(Step::SetLocal(number, members, ty))
    }

    pub fn set_global(
        &mut self,
        symbol: &str,
        members: &[(&str, &str)],
        ty: &str,
    ) -> Result<(), NoMemory> {
        let members = members_of(self.alloc, members)?;
        let ty = type_of(self.alloc, ty)?;
        let symbol = Name::from_str(self.alloc, symbol)?;
        self.step(Step::SetGlobal(symbol, members, ty))
    }

    pub fn give_back(&mut self, ty: &str) -> Result<(), NoMemory> {
        let ty = type_of(self.alloc, ty)?;
        self.step(Step::Return(ty))
    }

    pub fn drop_value(&mut self, ty: &str) -> Result<(), NoMemory> {
        let ty = type_of(self.alloc, ty)?;
        self.step(Step::Drop(ty))
    }
}

/// A branch of an `if`.
pub fn branch(condition: Items<Step>, block: Items<Step>) -> Branch {
    Branch { condition, block }
}

fn receiver_of(alloc: Global, receiver: &str) -> Result<Option<Ty>, NoMemory> {
    if receiver.is_empty() {
        return Ok(None);
    }
    let ty = type_of(alloc, receiver)?;
    Ok(Some(ty))
}

/// A function: the type of `self`, empty where there is none, how many parameters it has, the types of these and of
/// its locals, and its steps.
pub fn function(
    alloc: Global,
    symbol: &str,
    receiver: &str,
    params: u32,
    types: &[&str],
    gives: &str,
    code: Items<Step>,
) -> Result<Unit, NoMemory> {
    let types = types_of(alloc, types)?;
    let receiver = receiver_of(alloc, receiver)?;
    let result = type_of(alloc, gives)?;
    let symbol = Name::from_str(alloc, symbol)?;
    Ok(Unit::Function(
        symbol,
        Function {
            receiver,
            params,
            types,
            result,
            code,
        },
    ))
}
