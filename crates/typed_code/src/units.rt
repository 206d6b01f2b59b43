use crate::Step;
use dep_key::Name;
use sqlite_items::Items;
use type_rules::Ty;

/// A body that has no error.
#[derive(Drop)]
pub struct Function {
    /// The type of `self`, inside a struct or an extension.
    pub receiver: Option<Ty>,

    /// How many of the types are those of parameters, which come first.
    pub params: u32,

    /// The types of the parameters and of all locals, in the order of the text. The number of a parameter or a local
    /// is its place here.
    pub types: Items<Ty>,

    /// The type of what it returns, `Void` where it returns no value.
    pub result: Ty,

    /// The steps of the body. Where the body falls through, the last one is a return of `Void`.
    pub code: Items<Step>,
}

/// What the initializer of a struct does for a stored property.
#[derive(Drop)]
pub enum Initial {
    /// The value is handed in: its type.
    Given(Ty),

    /// The steps that give the value that the declaration has.
    Own(Items<Step>),
}

/// A part of an object.
#[derive(Drop)]
pub enum Unit {
    /// A global: its symbol, its type, and the steps that give its initial value.
    Global(Name, Ty, Items<Step>),

    /// A function, a method or a computed property: its symbol, and its body.
    Function(Name, Function),

    /// The initializer of a struct: the context of the struct, and what is done for each of its stored properties, in
    /// the order of the text.
    Initializer(Name, Items<Initial>),
}
