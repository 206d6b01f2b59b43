use dep_key::{Name, Text};
use sqlite_items::Items;
use type_rules::Ty;

/// An operator between two operands of one type.
#[derive(Clone, Copy, Debug, PartialEq, Eq)]
pub enum Operator {
    /// `+`: of integers their sum, of strings the one behind the other.
    Add,

    /// `-`
    Subtract,

    /// `*`
    Multiply,

    /// `/`
    Divide,

    /// `%`
    Remainder,

    /// `<`
    Less,

    /// `<=`
    LessOrEqual,

    /// `>`
    Greater,

    /// `>=`
    GreaterOrEqual,

    /// `==`
    Equal,

    /// `!=`
    NotEqual,
}

/// One step of a body. What it takes lies on top of the stack, the last on top, and what it gives is left there.
#[cycle(steps)]
#[derive(Drop)]
pub enum Step {
    /// Gives the value of an integer literal, as it is spelled.
    Integer(Text),

    /// Gives the value of a string literal, as it is spelled, with its quotation marks.
    StringText(Text),

    /// Gives `true` or `false`.
    Truth(bool),

    /// Gives the value of a parameter or a local: its number in the function, from 0, and its type.
    Local(u32, Ty),

    /// Gives the value of `self`, which has this type.
    SelfValue(Ty),

    /// Gives the value of a global: its symbol, and its type.
    Global(Name, Ty),

    /// Takes a struct, and gives one of its properties, stored or computed: the context of the struct, the name of the
    /// property in keys, and its type.
    Property(Name, Name, Ty),

    /// Takes values of these types and gives one of the last: the symbol of a function, of a method, which takes its
    /// receiver first, or of the initializer of a struct.
    Call(Name, Items<Ty>, Ty),

    /// Takes a value of this type and prints it.
    Print(Ty),

    /// Takes two operands of this type.
    Operate(Operator, Ty),

    /// Takes an integer, and gives it with the other sign.
    Negate,

    /// Takes a truth value, and gives the other one.
    Not,

    /// Takes the left operand of `&&`, and does the steps of the right one only where it is true.
    And(Items<Step>),

    /// Takes the left operand of `||`, and does the steps of the right one only where it is false.
    Or(Items<Step>),

    /// Takes a value of this type for a parameter or a local, by its number, or for a stored property inside it: for
    /// each member on the way, the context of its struct and its name in keys.
    SetLocal(u32, Items<(Name, Name)>, Ty),

    /// Takes a value of this type for a global, by its symbol, or for a stored property inside it: for each member on
    /// the way, the context of its struct and its name in keys.
    SetGlobal(Name, Items<(Name, Name)>, Ty),

    /// Takes a value of this type, and ends the function with it. Of `Void` there is nothing to take.
    Return(Ty),

    /// Takes a value of this type that nobody wants. Of `Void` there is nothing to take.
    Drop(Ty),

    /// Does the first steps, which give a truth value, and where it is true the second ones, again and again.
    While(Items<Step>, Items<Step>),

    /// Does the first branch whose condition gives true, and where none does, the last steps.
    If(Items<Branch>, Items<Step>),
}

/// A condition, and what is done where it gives true.
#[cycle(steps)]
#[derive(Drop)]
pub struct Branch {
    /// The steps that give a truth value.
    pub condition: Items<Step>,

    /// The steps that are done where it is true.
    pub block: Items<Step>,
}
