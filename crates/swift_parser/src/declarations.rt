ghost use Rattle.std.specs.Prelude.{◌≡◌, ◌≤◌, length, ◌∷◌, true, IfOk};
ghost use Rattle.grammar.specs.Forms.{lines};
ghost use Rattle.grammar.specs.Faults.{Stops};
ghost use Rattle.swift_ast.specs.declared.terminals.Terminal.TheVariants as T;
ghost use Rattle.swift_ast.specs.Tests.{on, is, is_access, is_label, begins_struct_member, begins_extension_member, on_new_line};
ghost use Rattle.swift_ast.specs.Expressions.{expr_form};
ghost use Rattle.swift_ast.specs.Declarations.{access_form, param_form, params_rule, result_rule, func_form, initial_rule, stored_value_form, stored_form, computed_form, struct_member_form, with_access, struct_form, extension_member_form, extension_form, alias_form, named_form, decl_form, decls_form};
ghost use Rattle.token_cursor.specs.Reading.{Parses, TakesIf, Shortens};

use crate::expressions::expr;
use crate::statements::{binding_behind, block, specifier, type_name};
use sqlite_items::Items;
use std::alloc::{AllocError, Global};
use swift_ast::{
    Access, Alias, BindingSpecifier, Computed, Decl, Expr, Extension, ExtensionMember, Func, Leaf,
    NamedDecl, Param, Stored, StoredValue, Struct, StructMember, Terminal, TypeName,
};
use token_cursor::{Stop, TokenClass, TokenCursor};

/// Who may see a declaration, if it is said next.
fn access(alloc: Global, tokens: &mut TokenCursor<'_>) -> Result<Option<Access>, AllocError>
    ensures takes { IfOk result (λ found. TakesIf (on is_access) access_form found tokens.old tokens.new) }
    ensures shrinks { length tokens.new ≤ length tokens.old }
    ensures shortens { IfOk result (λ found. Shortens found tokens.old tokens.new) }
{
    if let Some(t) = tokens.eat(alloc, TokenClass::Is(Terminal::Private))? {
        return Ok(Some(Access::Private(t)));
    }
    if let Some(t) = tokens.eat(alloc, TokenClass::Is(Terminal::Fileprivate))? {
        return Ok(Some(Access::Fileprivate(t)));
    }
    if let Some(t) = tokens.eat(alloc, TokenClass::Is(Terminal::Internal))? {
        return Ok(Some(Access::Internal(t)));
    }
    if let Some(t) = tokens.eat(alloc, TokenClass::Is(Terminal::Public))? {
        return Ok(Some(Access::Public(t)));
    }
    Ok(None)
}

fn param(alloc: Global, tokens: &mut TokenCursor<'_>) -> Result<Param, Stop>
    ensures reads { Parses param_form result tokens.old tokens.new }
    ensures shrinks { length tokens.new ≤ length tokens.old }
{
    if let Some(wildcard) = tokens.eat(alloc, TokenClass::Is(Terminal::Wildcard))? {
        let name = tokens.expect(alloc, TokenClass::Is(Terminal::Identifier))?;
        return labelled_behind(alloc, tokens, wildcard, name);
    }
    let first = tokens.expect(alloc, TokenClass::Is(Terminal::Identifier))?;
    if let Some(name) = tokens.eat(alloc, TokenClass::Is(Terminal::Identifier))? {
        return labelled_behind(alloc, tokens, first, name);
    }
    plain_behind(alloc, tokens, first)
}

/// A parameter behind its label and its name.
fn labelled_behind(
    alloc: Global,
    tokens: &mut TokenCursor<'_>,
    label: Leaf,
    name: Leaf,
) -> Result<Param, Stop>
    requires label { on is_label label ≡ true }
    requires name { on (is T.Identifier) name ≡ true }
    ensures reads { Parses param_form result (label ∷ (name ∷ tokens.old)) tokens.new }
    ensures shrinks { length tokens.new ≤ length tokens.old }
{
    let colon = tokens.expect(alloc, TokenClass::Is(Terminal::Colon))?;
    let written = type_name(alloc, tokens)?;
    Ok(Param {
        label: Some(label),
        name,
        colon,
        type_name: written,
    })
}

/// A parameter behind its name, where that is no label.
fn plain_behind(alloc: Global, tokens: &mut TokenCursor<'_>, name: Leaf) -> Result<Param, Stop>
    requires name { on (is T.Identifier) name ≡ true }
    requires alone { Stops (on (is T.Identifier)) tokens.old }
    ensures reads { Parses param_form result (name ∷ tokens.old) tokens.new }
    ensures shrinks { length tokens.new ≤ length tokens.old }
{
    let colon = tokens.expect(alloc, TokenClass::Is(Terminal::Colon))?;
    let written = type_name(alloc, tokens)?;
    Ok(Param {
        label: None,
        name,
        colon,
        type_name: written,
    })
}

fn params(
    alloc: Global,
    tokens: &mut TokenCursor<'_>,
) -> Result<Option<(Param, Items<(Leaf, Param)>)>, Stop>
    ensures reads { Parses params_rule result tokens.old tokens.new }
    ensures shrinks { length tokens.new ≤ length tokens.old }
{
    if !tokens.sees(TokenClass::Label) {
        return Ok(None);
    }
    let first = param(alloc, tokens)?;
    let mut more = Items::new(alloc);
    while let Some(comma) = tokens.eat(alloc, TokenClass::Is(Terminal::Comma))? {
        let next = param(alloc, tokens)?;
        more.push((comma, next))?;
    }
    Ok(Some((first, more)))
}

fn result_type(
    alloc: Global,
    tokens: &mut TokenCursor<'_>,
) -> Result<Option<(Leaf, TypeName)>, Stop>
    ensures reads { Parses result_rule result tokens.old tokens.new }
    ensures shrinks { length tokens.new ≤ length tokens.old }
{
    let Some(arrow) = tokens.eat(alloc, TokenClass::Is(Terminal::Arrow))? else {
        return Ok(None);
    };
    let written = type_name(alloc, tokens)?;
    Ok(Some((arrow, written)))
}

fn func_behind(alloc: Global, tokens: &mut TokenCursor<'_>, keyword: Leaf) -> Result<Func, Stop>
    requires keyword { on (is T.Func) keyword ≡ true }
    ensures reads { Parses func_form result (keyword ∷ tokens.old) tokens.new }
    ensures shrinks { length tokens.new ≤ length tokens.old }
{
    let name = tokens.expect(alloc, TokenClass::Is(Terminal::Identifier))?;
    let opening = tokens.expect(alloc, TokenClass::Is(Terminal::LeftParenthesis))?;
    let params = params(alloc, tokens)?;
    let closing = tokens.expect(alloc, TokenClass::Is(Terminal::RightParenthesis))?;
    let result_type = result_type(alloc, tokens)?;
    let body = block(alloc, tokens)?;
    Ok(Func {
        keyword,
        name,
        opening,
        params,
        closing,
        result_type,
        body,
    })
}

/// `=` and an initial value, or nothing.
fn initial(alloc: Global, tokens: &mut TokenCursor<'_>) -> Result<Option<(Leaf, Expr)>, Stop>
    ensures reads { Parses initial_rule result tokens.old tokens.new }
    ensures shrinks { length tokens.new ≤ length tokens.old }
{
    let Some(assign) = tokens.eat(alloc, TokenClass::Is(Terminal::Assign))? else {
        return Ok(None);
    };
    let value = expr(alloc, tokens)?;
    Ok(Some((assign, value)))
}

fn stored_value(alloc: Global, tokens: &mut TokenCursor<'_>) -> Result<StoredValue, Stop>
    ensures reads { Parses stored_value_form result tokens.old tokens.new }
    ensures shrinks { length tokens.new ≤ length tokens.old }
{
    let Some(colon) = tokens.eat(alloc, TokenClass::Is(Terminal::Colon))? else {
        let assign = tokens.expect(alloc, TokenClass::Is(Terminal::Assign))?;
        let value = expr(alloc, tokens)?;
        return Ok(StoredValue::Inferred(assign, value));
    };
    let written = type_name(alloc, tokens)?;
    let value = initial(alloc, tokens)?;
    Ok(StoredValue::Typed(colon, written, value))
}

/// A stored property behind `let`.
fn constant_behind(
    alloc: Global,
    tokens: &mut TokenCursor<'_>,
    keyword: Leaf,
) -> Result<Stored, Stop>
    requires keyword { on (is T.Let) keyword ≡ true }
    ensures reads { Parses stored_form result (keyword ∷ tokens.old) tokens.new }
    ensures shrinks { length tokens.new ≤ length tokens.old }
{
    let name = tokens.expect(alloc, TokenClass::Is(Terminal::Identifier))?;
    let value = stored_value(alloc, tokens)?;
    Ok(Stored {
        specifier: BindingSpecifier::Let(keyword),
        name,
        value,
    })
}

/// A stored or computed property behind `var`.
fn property_behind(
    alloc: Global,
    tokens: &mut TokenCursor<'_>,
    keyword: Leaf,
) -> Result<StructMember, Stop>
    requires keyword { on (is T.Var) keyword ≡ true }
    ensures reads { Parses struct_member_form result (keyword ∷ tokens.old) tokens.new }
    ensures shrinks { length tokens.new ≤ length tokens.old }
{
    let name = tokens.expect(alloc, TokenClass::Is(Terminal::Identifier))?;
    if let Some(colon) = tokens.eat(alloc, TokenClass::Is(Terminal::Colon))? {
        return typed_property_behind(alloc, tokens, keyword, name, colon);
    }
    let assign = tokens.expect(alloc, TokenClass::Is(Terminal::Assign))?;
    let value = expr(alloc, tokens)?;
    Ok(StructMember::Stored(Stored {
        specifier: BindingSpecifier::Var(keyword),
        name,
        value: StoredValue::Inferred(assign, value),
    }))
}

/// A stored or computed property behind `var`, its name and a colon.
fn typed_property_behind(
    alloc: Global,
    tokens: &mut TokenCursor<'_>,
    keyword: Leaf,
    name: Leaf,
    colon: Leaf,
) -> Result<StructMember, Stop>
    requires keyword { on (is T.Var) keyword ≡ true }
    requires name { on (is T.Identifier) name ≡ true }
    requires colon { on (is T.Colon) colon ≡ true }
    ensures reads { Parses struct_member_form result (keyword ∷ (name ∷ (colon ∷ tokens.old))) tokens.new }
    ensures shrinks { length tokens.new ≤ length tokens.old }
{
    let type_name = type_name(alloc, tokens)?;
    if tokens.sees(TokenClass::Is(Terminal::LeftBrace)) {
        let body = block(alloc, tokens)?;
        return Ok(StructMember::Computed(Computed {
            keyword,
            name,
            colon,
            type_name,
            body,
        }));
    }
    let value = initial(alloc, tokens)?;
    Ok(StructMember::Stored(Stored {
        specifier: BindingSpecifier::Var(keyword),
        name,
        value: StoredValue::Typed(colon, type_name, value),
    }))
}

fn struct_member(alloc: Global, tokens: &mut TokenCursor<'_>) -> Result<StructMember, Stop>
    ensures reads { Parses struct_member_form result tokens.old tokens.new }
    ensures shrinks { length tokens.new ≤ length tokens.old }
{
    if let Some(keyword) = tokens.eat(alloc, TokenClass::Is(Terminal::Func))? {
        let found = func_behind(alloc, tokens, keyword)?;
        return Ok(StructMember::Func(found));
    }
    if let Some(keyword) = tokens.eat(alloc, TokenClass::Is(Terminal::Let))? {
        let found = constant_behind(alloc, tokens, keyword)?;
        return Ok(StructMember::Stored(found));
    }
    let keyword = tokens.expect(alloc, TokenClass::Is(Terminal::Var))?;
    property_behind(alloc, tokens, keyword)
}

fn struct_member_with_access(
    alloc: Global,
    tokens: &mut TokenCursor<'_>,
) -> Result<(Option<Access>, StructMember), Stop>
    ensures reads { Parses (with_access struct_member_form) result tokens.old tokens.new }
    ensures shrinks { length tokens.new ≤ length tokens.old }
{
    let access = access(alloc, tokens)?;
    let member = struct_member(alloc, tokens)?;
    Ok((access, member))
}

fn struct_members(
    alloc: Global,
    tokens: &mut TokenCursor<'_>,
) -> Result<Items<(Option<Access>, StructMember)>, Stop>
    ensures reads { Parses (lines (on begins_struct_member) (on (on_new_line begins_struct_member)) (with_access struct_member_form)) result tokens.old tokens.new }
    ensures shrinks { length tokens.new ≤ length tokens.old }
{
    let mut all = Items::new(alloc);
    if !tokens.sees(TokenClass::BeginsStructMember) {
        return Ok(all);
    }
    let first = struct_member_with_access(alloc, tokens)?;
    all.push(first)?;
    while tokens.sees(TokenClass::BeginsNextStructMember) {
        let later = struct_member_with_access(alloc, tokens)?;
        all.push(later)?;
    }
    Ok(all)
}

fn struct_behind(alloc: Global, tokens: &mut TokenCursor<'_>, keyword: Leaf) -> Result<Struct, Stop>
    requires keyword { on (is T.Struct) keyword ≡ true }
    ensures reads { Parses struct_form result (keyword ∷ tokens.old) tokens.new }
    ensures shrinks { length tokens.new ≤ length tokens.old }
{
    let name = tokens.expect(alloc, TokenClass::Is(Terminal::Identifier))?;
    let opening = tokens.expect(alloc, TokenClass::Is(Terminal::LeftBrace))?;
    let members = struct_members(alloc, tokens)?;
    let closing = tokens.expect(alloc, TokenClass::Is(Terminal::RightBrace))?;
    Ok(Struct {
        keyword,
        name,
        opening,
        members,
        closing,
    })
}

fn computed_behind(
    alloc: Global,
    tokens: &mut TokenCursor<'_>,
    keyword: Leaf,
) -> Result<Computed, Stop>
    requires keyword { on (is T.Var) keyword ≡ true }
    ensures reads { Parses computed_form result (keyword ∷ tokens.old) tokens.new }
    ensures shrinks { length tokens.new ≤ length tokens.old }
{
    let name = tokens.expect(alloc, TokenClass::Is(Terminal::Identifier))?;
    let colon = tokens.expect(alloc, TokenClass::Is(Terminal::Colon))?;
    let type_name = type_name(alloc, tokens)?;
    let body = block(alloc, tokens)?;
    Ok(Computed {
        keyword,
        name,
        colon,
        type_name,
        body,
    })
}

fn extension_member(alloc: Global, tokens: &mut TokenCursor<'_>) -> Result<ExtensionMember, Stop>
    ensures reads { Parses extension_member_form result tokens.old tokens.new }
    ensures shrinks { length tokens.new ≤ length tokens.old }
{
    if let Some(keyword) = tokens.eat(alloc, TokenClass::Is(Terminal::Func))? {
        let found = func_behind(alloc, tokens, keyword)?;
        return Ok(ExtensionMember::Func(found));
    }
    let keyword = tokens.expect(alloc, TokenClass::Is(Terminal::Var))?;
    let found = computed_behind(alloc, tokens, keyword)?;
    Ok(ExtensionMember::Computed(found))
}

fn extension_member_with_access(
    alloc: Global,
    tokens: &mut TokenCursor<'_>,
) -> Result<(Option<Access>, ExtensionMember), Stop>
    ensures reads { Parses (with_access extension_member_form) result tokens.old tokens.new }
    ensures shrinks { length tokens.new ≤ length tokens.old }
{
    let access = access(alloc, tokens)?;
    let member = extension_member(alloc, tokens)?;
    Ok((access, member))
}

fn extension_members(
    alloc: Global,
    tokens: &mut TokenCursor<'_>,
) -> Result<Items<(Option<Access>, ExtensionMember)>, Stop>
    ensures reads { Parses (lines (on begins_extension_member) (on (on_new_line begins_extension_member)) (with_access extension_member_form)) result tokens.old tokens.new }
    ensures shrinks { length tokens.new ≤ length tokens.old }
{
    let mut all = Items::new(alloc);
    if !tokens.sees(TokenClass::BeginsExtensionMember) {
        return Ok(all);
    }
    let first = extension_member_with_access(alloc, tokens)?;
    all.push(first)?;
    while tokens.sees(TokenClass::BeginsNextExtensionMember) {
        let later = extension_member_with_access(alloc, tokens)?;
        all.push(later)?;
    }
    Ok(all)
}

fn extension_behind(
    alloc: Global,
    tokens: &mut TokenCursor<'_>,
    keyword: Leaf,
) -> Result<Extension, Stop>
    requires keyword { on (is T.Extension) keyword ≡ true }
    ensures reads { Parses extension_form result (keyword ∷ tokens.old) tokens.new }
    ensures shrinks { length tokens.new ≤ length tokens.old }
{
    let name = tokens.expect(alloc, TokenClass::Is(Terminal::Identifier))?;
    let opening = tokens.expect(alloc, TokenClass::Is(Terminal::LeftBrace))?;
    let members = extension_members(alloc, tokens)?;
    let closing = tokens.expect(alloc, TokenClass::Is(Terminal::RightBrace))?;
    Ok(Extension {
        keyword,
        name,
        opening,
        members,
        closing,
    })
}

fn alias_behind(alloc: Global, tokens: &mut TokenCursor<'_>, keyword: Leaf) -> Result<Alias, Stop>
    requires keyword { on (is T.Typealias) keyword ≡ true }
    ensures reads { Parses alias_form result (keyword ∷ tokens.old) tokens.new }
    ensures shrinks { length tokens.new ≤ length tokens.old }
{
    let name = tokens.expect(alloc, TokenClass::Is(Terminal::Identifier))?;
    let assign = tokens.expect(alloc, TokenClass::Is(Terminal::Assign))?;
    let type_name = type_name(alloc, tokens)?;
    Ok(Alias {
        keyword,
        name,
        assign,
        type_name,
    })
}

fn named_decl(alloc: Global, tokens: &mut TokenCursor<'_>) -> Result<NamedDecl, Stop>
    ensures reads { Parses named_form result tokens.old tokens.new }
    ensures shrinks { length tokens.new ≤ length tokens.old }
{
    if let Some(found) = specifier(alloc, tokens)? {
        let global = binding_behind(alloc, tokens, found)?;
        return Ok(NamedDecl::Global(global));
    }
    if let Some(keyword) = tokens.eat(alloc, TokenClass::Is(Terminal::Func))? {
        let found = func_behind(alloc, tokens, keyword)?;
        return Ok(NamedDecl::Func(found));
    }
    if let Some(keyword) = tokens.eat(alloc, TokenClass::Is(Terminal::Struct))? {
        let found = struct_behind(alloc, tokens, keyword)?;
        return Ok(NamedDecl::Struct(found));
    }
    let keyword = tokens.expect(alloc, TokenClass::Is(Terminal::Typealias))?;
    let found = alias_behind(alloc, tokens, keyword)?;
    Ok(NamedDecl::Alias(found))
}

fn decl(alloc: Global, tokens: &mut TokenCursor<'_>) -> Result<Decl, Stop>
    ensures reads { Parses decl_form result tokens.old tokens.new }
    ensures shrinks { length tokens.new ≤ length tokens.old }
{
    if let Some(keyword) = tokens.eat(alloc, TokenClass::Is(Terminal::Extension))? {
        let found = extension_behind(alloc, tokens, keyword)?;
        return Ok(Decl::Extension(found));
    }
    let access = access(alloc, tokens)?;
    let named = named_decl(alloc, tokens)?;
    Ok(Decl::Named(access, named))
}

/// The declarations of a file.
pub fn decls(alloc: Global, tokens: &mut TokenCursor<'_>) -> Result<Items<Decl>, Stop>
    ensures reads { Parses decls_form result tokens.old tokens.new }
    ensures shrinks { length tokens.new ≤ length tokens.old }
{
    let mut all = Items::new(alloc);
    while tokens.sees(TokenClass::BeginsNextDecl) {
        let next = decl(alloc, tokens)?;
        all.push(next)?;
    }
    Ok(all)
}
