use dep_key::{Name, Text};
use type_rules::Ty;
use typed_code::Operator;

/// An instruction of the stack machine. Sizes, slots and offsets count words.
#[derive(Drop)]
pub enum Instruction {
    /// Gives an integer, by its decimal digits.
    Int(Text),

    /// Gives a truth value.
    Bool(bool),

    /// Gives a string, by its literal.
    Str(Text),

    /// Gives the words of a function's slots from one on.
    Get {
        slot: u64,
        words: u64,
    },

    /// Gives words of a global, from an offset on.
    Load {
        symbol: Name,
        offset: u64,
        words: u64,
    },

    /// Takes a value of so many words, and gives some of them, from an offset on.
    Field {
        offset: u64,
        words: u64,
        of: u64,
    },

    /// Takes the arguments of a function, calls it, and gives its result.
    Call {
        symbol: Name,
        takes: u64,
        gives: u64,
    },

    /// Takes a value of a type, and prints it.
    Print(Ty),

    /// Takes two operands of a type, and gives what the operator makes of them.
    Operate(Operator, Ty),

    /// Takes an integer, and gives it with the other sign.
    Neg,

    /// Takes a truth value, and gives the other one.
    Not,

    /// Takes a truth value, and goes on at the label where it is false.
    Unless(u64),

    /// Goes on at the label.
    Jump(u64),

    /// A place to go on at.
    Label(u64),

    /// Takes words for a function's slots from one on.
    Set {
        slot: u64,
        words: u64,
    },

    /// Takes words for a global, from an offset on.
    Store {
        symbol: Name,
        offset: u64,
        words: u64,
    },

    /// Takes the words of the result, and ends the function.
    Return(u64),

    /// Takes words that nobody wants.
    Drop(u64),
}
