use crate::{
    Access, And, Arg, Block, Cmp, Decl, ElseIf, Expr, ExtensionMember, Leaf, Param, PostfixPart,
    Prefix, Product, ProductOperator, Stmt, StructMember, Sum, SumOperator,
};

/// A part of a tree whose tokens are still to be given: a token, a tree, or what is left of a list.
#[derive(Clone, Copy)]
pub enum Part<'a> {
    One(&'a Leaf),
    Expr(&'a Expr),
    Sum(&'a Sum),
    OrRest(&'a [(Leaf, And)]),
    AndRest(&'a [(Leaf, Cmp)]),
    SumRest(&'a [(SumOperator, Product)]),
    ProductRest(&'a [(ProductOperator, Prefix)]),
    PartRest(&'a [PostfixPart]),
    ArgRest(&'a [(Leaf, Arg)]),
    Block(&'a Block),
    StmtRest(&'a [Stmt]),
    ElseIfRest(&'a [ElseIf]),
    MemberRest(&'a [(Leaf, Leaf)]),
    DeclRest(&'a [Decl]),
    ParamRest(&'a [(Leaf, Param)]),
    StructRest(&'a [(Option<Access>, StructMember)]),
    ExtensionRest(&'a [(Option<Access>, ExtensionMember)]),
}
