use dep_key::{Name, Path};
use sqlite_items::Items;
use type_rules::Ty;

/// A parameter or a local of a function.
#[derive(Debug, Drop)]
pub struct Local {
    pub name: Name,

    /// Its type, which is missing where its declaration has an error.
    pub ty: Option<Ty>,

    /// Whether it may be assigned to.
    pub mutable: bool,

    /// Its number in the function: parameters and locals count from 0 in the order of the text.
    pub number: u32,
}

/// Where an expression or a statement stands.
#[derive(Debug, Drop)]
pub struct Scope {
    /// The path of its file.
    pub path: Path,

    /// Inside a member, the context whose members are in scope.
    pub context: Option<Name>,

    /// The type of `self`, where the context is that of a struct.
    pub self_type: Option<Ty>,

    /// The parameters and locals of each block that is open, the innermost block last, each block in the order of the text.
    pub blocks: Items<Items<Local>>,

    /// The types of the parameters and of all locals so far, in the order of the text.
    pub types: Items<Option<Ty>>,

    /// What the function gives, which is missing where its type has an error.
    pub result: Option<Ty>,

    /// Whether what is read is emitted, so that the layout of each value has to be known.
    pub emits: bool,
}
