ghost use Rattle.std.specs.Prelude.{◌≡◌, ◌≤◌, ◌+◌, [], ◌∷◌, ◌++◌, length, OnOk};
ghost use Rattle.grammar.specs.Forms.{both, in_row, perhaps_tokens};
ghost use Rattle.swift_ast.specs.declared.terminals.Terminal.TheVariants as T;
ghost use Rattle.swift_ast.specs.Expressions.{word};
ghost use Rattle.swift_ast.specs.Declarations.{access_form, param_form, params_rule, result_rule, func_form, initial_rule, stored_value_form, stored_form, computed_form, struct_member_form, with_access, struct_form, extension_member_form, extension_form, alias_form, named_form, decl_form, decls_form};
ghost use Rattle.swift_ast.specs.Flattening.{Spells, Lightens};

use crate::flattening::part::Part;
use crate::flattening::statements::specifier;
use crate::flattening::work::{Work, split};
use crate::{
    Access, Alias, Computed, Decl, Expr, Extension, ExtensionMember, Func, Leaf, NamedDecl, Param,
    Stored, StoredValue, Struct, StructMember, TypeName,
};
use sqlite_items::Items;
use std::alloc::AllocError;

fn access_word(access: &Access) -> &Leaf
    ensures { access_form.tokens access.now ≡ result.now ∷ [] }
{
    match access {
        Access::Private(t) => t,
        Access::Fileprivate(t) => t,
        Access::Internal(t) => t,
        Access::Public(t) => t,
    }
}

impl<'a> Work<'a> {
    fn access(&mut self, access: &'a Option<Access>) -> Result<(), AllocError>
        ensures done { OnOk result (self.new.done ≡ self.old.done ++ perhaps_tokens access_form access.now) }
        ensures longer { OnOk result (length self.old.done ≤ length self.new.done) }
        ensures waiting { OnOk result (self.new.waiting ≡ self.old.waiting) }
        ensures load { OnOk result (self.new.load ≡ self.old.load) }
    {
        if let Some(access) = access {
            self.emit(access_word(access))?;
        }
        Ok(())
    }

    pub fn decl_rest(&mut self, rest: &'a [Decl]) -> Result<(), AllocError>
        ensures spells { OnOk result (Spells (decls_form.tokens rest.now) self.old self.new) }
        ensures lightens { OnOk result (Lightens 0 self.old self.new) }
    {
        let Some((first, more)) = split(rest) else {
            return Ok(());
        };
        self.put(Part::DeclRest(more))?;
        self.decl(first)?;
        Ok(())
    }

    fn decl(&mut self, tree: &'a Decl) -> Result<(), AllocError>
        ensures spells { OnOk result (Spells (decl_form.tokens tree.now) self.old self.new) }
        ensures lightens { OnOk result (Lightens 1 self.old self.new) }
    {
        match tree {
            Decl::Named(access, tree) => {
                self.access(access)?;
                self.named(tree)?;
            }
            Decl::Extension(tree) => self.extension(tree)?,
        }
        Ok(())
    }

    fn named(&mut self, tree: &'a NamedDecl) -> Result<(), AllocError>
        ensures spells { OnOk result (Spells (named_form.tokens tree.now) self.old self.new) }
        ensures lightens { OnOk result (Lightens 1 self.old self.new) }
    {
        match tree {
            NamedDecl::Global(tree) => self.binding(
                &tree.specifier,
                &tree.name,
                &tree.annotation,
                &tree.assign,
                &tree.value,
            )?,
            NamedDecl::Func(tree) => self.func(tree)?,
            NamedDecl::Struct(tree) => self.struct_decl(tree)?,
            NamedDecl::Alias(tree) => self.alias(tree)?,
        }
        Ok(())
    }

    fn func(&mut self, tree: &'a Func) -> Result<(), AllocError>
        ensures spells { OnOk result (Spells (func_form.tokens tree.now) self.old self.new) }
        ensures lightens { OnOk result (Lightens 1 self.old self.new) }
    {
        self.emit(&tree.keyword)?;
        self.emit(&tree.name)?;
        self.emit(&tree.opening)?;
        self.put(Part::Block(&tree.body))?;
        self.put_result_type(&tree.result_type)?;
        self.put(Part::One(&tree.closing))?;
        self.params(&tree.params)?;
        Ok(())
    }

    fn put_result_type(&mut self, tree: &'a Option<(Leaf, TypeName)>) -> Result<(), AllocError>
        ensures done { OnOk result (self.new.done ≡ self.old.done) }
        ensures waiting { OnOk result (self.new.waiting ≡ result_rule.tokens tree.now ++ self.old.waiting) }
        ensures load { OnOk result (self.new.load ≤ self.old.load + 2) }
    {
        if let Some((arrow, type_name)) = tree {
            self.put(Part::One(&type_name.name))?;
            self.put(Part::One(arrow))?;
        }
        Ok(())
    }

    fn params(&mut self, list: &'a Option<(Param, Items<(Leaf, Param)>)>) -> Result<(), AllocError>
        ensures spells { OnOk result (Spells (params_rule.tokens list.now) self.old self.new) }
        ensures lightens { OnOk result (Lightens 0 self.old self.new) }
    {
        if let Some((first, more)) = list {
            self.put(Part::ParamRest(more.as_slice()))?;
            self.param(first)?;
        }
        Ok(())
    }

    fn param(&mut self, tree: &'a Param) -> Result<(), AllocError>
        ensures spells { OnOk result (Spells (param_form.tokens tree.now) self.old self.new) }
        ensures lightens { OnOk result (Lightens 1 self.old self.new) }
    {
        if let Some(label) = &tree.label {
            self.emit(label)?;
            self.param_name(tree)?;
            return Ok(());
        }
        self.param_name(tree)?;
        Ok(())
    }

    fn param_name(&mut self, tree: &'a Param) -> Result<(), AllocError>
        ensures spells { OnOk result (Spells (tree.now.name ∷ (tree.now.colon ∷ (tree.now.type_name.name ∷ []))) self.old self.new) }
        ensures lightens { OnOk result (Lightens 1 self.old self.new) }
    {
        self.emit(&tree.name)?;
        self.emit(&tree.colon)?;
        self.emit(&tree.type_name.name)?;
        Ok(())
    }

    pub fn param_rest(&mut self, rest: &'a [(Leaf, Param)]) -> Result<(), AllocError>
        ensures spells { OnOk result (Spells (in_row (both (word T.Comma) param_form) rest.now) self.old self.new) }
        ensures lightens { OnOk result (Lightens 0 self.old self.new) }
    {
        let Some((first, more)) = split(rest) else {
            return Ok(());
        };
        self.emit(&first.0)?;
        self.put(Part::ParamRest(more))?;
        self.param(&first.1)?;
        Ok(())
    }

    fn struct_decl(&mut self, tree: &'a Struct) -> Result<(), AllocError>
        ensures spells { OnOk result (Spells (struct_form.tokens tree.now) self.old self.new) }
        ensures lightens { OnOk result (Lightens 1 self.old self.new) }
    {
        self.emit(&tree.keyword)?;
        self.emit(&tree.name)?;
        self.emit(&tree.opening)?;
        self.put(Part::One(&tree.closing))?;
        self.put(Part::StructRest(tree.members.as_slice()))?;
        Ok(())
    }

    pub fn struct_rest(
        &mut self,
        rest: &'a [(Option<Access>, StructMember)],
    ) -> Result<(), AllocError>
        ensures spells { OnOk result (Spells (in_row (with_access struct_member_form) rest.now) self.old self.new) }
        ensures lightens { OnOk result (Lightens 0 self.old self.new) }
    {
        let Some((first, more)) = split(rest) else {
            return Ok(());
        };
        self.put(Part::StructRest(more))?;
        self.access(&first.0)?;
        self.struct_member(&first.1)?;
        Ok(())
    }

    fn struct_member(&mut self, tree: &'a StructMember) -> Result<(), AllocError>
        ensures spells { OnOk result (Spells (struct_member_form.tokens tree.now) self.old self.new) }
        ensures lightens { OnOk result (Lightens 1 self.old self.new) }
    {
        match tree {
            StructMember::Stored(tree) => self.stored(tree)?,
            StructMember::Computed(tree) => self.computed(tree)?,
            StructMember::Func(tree) => self.func(tree)?,
        }
        Ok(())
    }

    fn stored(&mut self, tree: &'a Stored) -> Result<(), AllocError>
        ensures spells { OnOk result (Spells (stored_form.tokens tree.now) self.old self.new) }
        ensures lightens { OnOk result (Lightens 1 self.old self.new) }
    {
        self.emit(specifier(&tree.specifier))?;
        self.emit(&tree.name)?;
        self.stored_value(&tree.value)?;
        Ok(())
    }

    fn stored_value(&mut self, tree: &'a StoredValue) -> Result<(), AllocError>
        ensures spells { OnOk result (Spells (stored_value_form.tokens tree.now) self.old self.new) }
        ensures lightens { OnOk result (Lightens 1 self.old self.new) }
    {
        match tree {
            StoredValue::Typed(colon, type_name, value) => {
                self.emit(colon)?;
                self.emit(&type_name.name)?;
                self.initial(value)?;
            }
            StoredValue::Inferred(assign, value) => {
                self.emit(assign)?;
                self.put(Part::Expr(value))?;
            }
        }
        Ok(())
    }

    fn initial(&mut self, tree: &'a Option<(Leaf, Expr)>) -> Result<(), AllocError>
        ensures spells { OnOk result (Spells (initial_rule.tokens tree.now) self.old self.new) }
        ensures lightens { OnOk result (Lightens 0 self.old self.new) }
    {
        if let Some((assign, value)) = tree {
            self.emit(assign)?;
            self.put(Part::Expr(value))?;
        }
        Ok(())
    }

    fn computed(&mut self, tree: &'a Computed) -> Result<(), AllocError>
        ensures spells { OnOk result (Spells (computed_form.tokens tree.now) self.old self.new) }
        ensures lightens { OnOk result (Lightens 1 self.old self.new) }
    {
        self.emit(&tree.keyword)?;
        self.emit(&tree.name)?;
        self.emit(&tree.colon)?;
        self.emit(&tree.type_name.name)?;
        self.put(Part::Block(&tree.body))?;
        Ok(())
    }

    fn extension(&mut self, tree: &'a Extension) -> Result<(), AllocError>
        ensures spells { OnOk result (Spells (extension_form.tokens tree.now) self.old self.new) }
        ensures lightens { OnOk result (Lightens 1 self.old self.new) }
    {
        self.emit(&tree.keyword)?;
        self.emit(&tree.name)?;
        self.emit(&tree.opening)?;
        self.put(Part::One(&tree.closing))?;
        self.put(Part::ExtensionRest(tree.members.as_slice()))?;
        Ok(())
    }

    pub fn extension_rest(
        &mut self,
        rest: &'a [(Option<Access>, ExtensionMember)],
    ) -> Result<(), AllocError>
        ensures spells { OnOk result (Spells (in_row (with_access extension_member_form) rest.now) self.old self.new) }
        ensures lightens { OnOk result (Lightens 0 self.old self.new) }
    {
        let Some((first, more)) = split(rest) else {
            return Ok(());
        };
        self.put(Part::ExtensionRest(more))?;
        self.access(&first.0)?;
        self.extension_member(&first.1)?;
        Ok(())
    }

    fn extension_member(&mut self, tree: &'a ExtensionMember) -> Result<(), AllocError>
        ensures spells { OnOk result (Spells (extension_member_form.tokens tree.now) self.old self.new) }
        ensures lightens { OnOk result (Lightens 1 self.old self.new) }
    {
        match tree {
            ExtensionMember::Computed(tree) => self.computed(tree)?,
            ExtensionMember::Func(tree) => self.func(tree)?,
        }
        Ok(())
    }

    fn alias(&mut self, tree: &'a Alias) -> Result<(), AllocError>
        ensures spells { OnOk result (Spells (alias_form.tokens tree.now) self.old self.new) }
        ensures lightens { OnOk result (Lightens 1 self.old self.new) }
    {
        self.emit(&tree.keyword)?;
        self.emit(&tree.name)?;
        self.emit(&tree.assign)?;
        self.emit(&tree.type_name.name)?;
        Ok(())
    }
}
