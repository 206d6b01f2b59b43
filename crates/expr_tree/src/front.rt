use expr_check::Typed;
use swift_ast::Leaf;

/// What stands before a part of a postfix. A value is missing where an error stands inside.
#[derive(Drop)]
pub enum Front<'t> {
    /// A value.
    Value(Option<Typed>),

    /// A name in scope that isn't looked up yet, since it is a callee where arguments follow.
    Name(&'t Leaf),

    /// The name of a member of a value, that isn't looked up yet.
    MemberOf(Option<Typed>, &'t Leaf),
}
