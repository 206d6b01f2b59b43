//! The keys of all declarations of a file.

ghost use Rattle.std.specs.Prelude.{◌≡◌, ◌++◌, ℕ, List, [], ◌∷◌, map, flat_map, IfOk, OnOk};
ghost use Rattle.std.specs.BTreeSet as sets;
ghost use Rattle.std.specs.Ordering.{nat_cmp};
ghost use Rattle.std.specs.Cmp.Lexicographic.{slice_cmp};
ghost use Rattle.swift_ast.specs.declared.declarations.NamedDecl.TheVariants as named;
ghost use Rattle.swift_ast.specs.declared.declarations.Decl.TheVariants as decl;
ghost use Rattle.dep_key.specs.KeyBuilders.{key_name};
ghost use Rattle.decl_index.specs.Declarations.{struct_member_name, extension_member_name, struct_member_declaration, extension_member_declaration, global_keys, is_private, named_declarations, extension_declarations, is_among, decl_declarations, keys_of, file_keys};

use crate::keys::{extension_keys, global_keys, is_private, member_keys, struct_keys};
use crate::private_structs::private_structs;
use dep_key::{Keys, Name, NoMemory, key_name};
use std::alloc::Global;
use std::collections::BTreeSet;
use std::marker::Model;
use swift_ast::{
    Access, Decl, Extension, ExtensionMember, FileTree, NamedDecl, Struct, StructMember,
};

fn struct_member_name(member: &StructMember) -> &str
    ensures { result.now ≡ struct_member_name member.now }
{
    match member {
        StructMember::Stored(tree) => tree.name.text.as_str(),
        StructMember::Computed(tree) => tree.name.text.as_str(),
        StructMember::Func(tree) => tree.name.text.as_str(),
    }
}

fn extension_member_name(member: &ExtensionMember) -> &str
    ensures { result.now ≡ extension_member_name member.now }
{
    match member {
        ExtensionMember::Computed(tree) => tree.name.text.as_str(),
        ExtensionMember::Func(tree) => tree.name.text.as_str(),
    }
}

/// Adds the keys of a global, a function or an alias.
fn add_global(
    alloc: Global,
    made: &mut Vec<Keys>,
    path: &str,
    access: &Option<Access>,
    name: &str,
) -> Result<(), NoMemory>
    ensures { OnOk result (made.new.items ≡ made.old.items ++ global_keys (key_name path.now (is_private access.now) name.now) ∷ []) }
{
    let name = key_name(alloc, path, is_private(access), name)?;
    let keys = global_keys(alloc, name)?;
    made.push(keys)?;
    Ok(())
}

fn add_struct_members(
    alloc: Global,
    made: &mut Vec<Keys>,
    path: &str,
    context: &Name,
    members: &[(Option<Access>, StructMember)],
) -> Result<(), NoMemory>
    ensures { OnOk result (made.new.items ≡ made.old.items ++ keys_of (map (struct_member_declaration path.now context.now) members.now)) }
{
    for member in members {
        let name = key_name(
            alloc,
            path,
            is_private(&member.0),
            struct_member_name(&member.1),
        )?;
        let keys = member_keys(alloc, context, name)?;
        made.push(keys)?;
    }
    Ok(())
}

fn add_struct(
    alloc: Global,
    made: &mut Vec<Keys>,
    path: &str,
    access: &Option<Access>,
    tree: &Struct,
) -> Result<(), NoMemory>
    ensures { OnOk result (made.new.items ≡ made.old.items ++ keys_of (named_declarations path.now access.now (named.Struct tree.now))) }
{
    let context = key_name(alloc, path, is_private(access), tree.name.text.as_str())?;
    let keys = struct_keys(alloc, &context)?;
    made.push(keys)?;
    add_struct_members(alloc, made, path, &context, tree.members.as_slice())
}

fn add_extension_members(
    alloc: Global,
    made: &mut Vec<Keys>,
    path: &str,
    context: &Name,
    members: &[(Option<Access>, ExtensionMember)],
) -> Result<(), NoMemory>
    ensures { OnOk result (made.new.items ≡ made.old.items ++ keys_of (map (extension_member_declaration path.now context.now) members.now)) }
{
    for member in members {
        let name = key_name(
            alloc,
            path,
            is_private(&member.0),
            extension_member_name(&member.1),
        )?;
        let keys = member_keys(alloc, context, name)?;
        made.push(keys)?;
    }
    Ok(())
}

/// Adds the keys of a declaration that gives a name, and of its members.
fn add_named(
    alloc: Global,
    made: &mut Vec<Keys>,
    path: &str,
    access: &Option<Access>,
    tree: &NamedDecl,
) -> Result<(), NoMemory>
    ensures { OnOk result (made.new.items ≡ made.old.items ++ keys_of (named_declarations path.now access.now tree.now)) }
{
    match tree {
        NamedDecl::Global(tree) => add_global(alloc, made, path, access, tree.name.text.as_str()),
        NamedDecl::Func(tree) => add_global(alloc, made, path, access, tree.name.text.as_str()),
        NamedDecl::Alias(tree) => add_global(alloc, made, path, access, tree.name.text.as_str()),
        NamedDecl::Struct(tree) => add_struct(alloc, made, path, access, tree),
    }
}

/// Adds the keys of an extension and of its members.
fn add_extension(
    alloc: Global,
    made: &mut Vec<Keys>,
    path: &str,
    is_own: bool,
    tree: &Extension,
) -> Result<(), NoMemory>
    ensures { OnOk result (made.new.items ≡ made.old.items ++ keys_of (extension_declarations path.now is_own tree.now)) }
{
    let context = key_name(alloc, path, is_own, tree.name.text.as_str())?;
    let keys = extension_keys(alloc, &context)?;
    made.push(keys)?;
    add_extension_members(alloc, made, path, &context, tree.members.as_slice())
}

/// Whether an extension extends a struct that its file keeps to itself.
fn extends_own(alloc: Global, own: &BTreeSet<Name>, tree: &Extension) -> Result<bool, NoMemory>
    ensures { IfOk result (λ is_own. is_own ≡ sets.contains (slice_cmp nat_cmp) own.now tree.now.name.text) }
{
    let name = Name::from_str(alloc, tree.name.text.as_str())?;
    Ok(own.contains(&name))
}

/// Adds the keys of a declaration and of its members, where the file keeps some structs to itself.
fn add_decl(
    alloc: Global,
    made: &mut Vec<Keys>,
    path: &str,
    own: &BTreeSet<Name>,
    decl: &Decl,
) -> Result<(), NoMemory>
    ensures { OnOk result ((names : List (List ℕ)) → ((name : List ℕ) → sets.contains (slice_cmp nat_cmp) own.now name ≡ is_among names name) → made.new.items ≡ made.old.items ++ keys_of (decl_declarations path.now names decl.now)) }
{
    match decl {
        Decl::Named(access, tree) => add_named(alloc, made, path, access, tree),
        Decl::Extension(tree) => {
            let is_own = extends_own(alloc, own, tree)?;
            add_extension(alloc, made, path, is_own, tree)
        }
    }
}

/// The keys of each declaration of a file, in the order of its text: a struct and an extension are
/// followed by their members.
pub fn declared_keys(alloc: Global, file: &FileTree) -> Result<Vec<Keys>, NoMemory>
    ensures keys { IfOk result (λ made. made.items ≡ file_keys file.now) }
{
    let decls = file.decls.as_slice();
    let own = private_structs(alloc, decls)?;
    let mut made = Vec::new(alloc);
    for decl in decls {
        add_decl(alloc, &mut made, file.path.as_str(), &own, decl)?;
    }
    Ok(made)
}

/// A `Vec` of lists of keys that contracts see as the list of them.
#[derive(Debug, Drop)]
pub struct KeyLists {
    lists: Vec<Keys>,
}

impl Model for KeyLists {
    ghost use Rattle.std.specs.Prelude.{List};
    ghost use Rattle.dep_key.specs.declared.key.Key.{Key};

    ghost Value = { List (List Key) };

    ghost view = { λ t. t.lists.items };
}

impl KeyLists {
    pub fn as_slice(&self) -> &[Keys]
        ensures { result.now ≡ self.now }
    {
        &self.lists
    }
}

/// The keys of the declarations of each file.
pub fn key_lists(alloc: Global, files: &[FileTree]) -> Result<Vec<KeyLists>, NoMemory>
    ensures { IfOk result (λ made. made.items ≡ map file_keys files.now) }
{
    let mut made = Vec::new(alloc);
    for file in files {
        let lists = declared_keys(alloc, file)?;
        made.push(KeyLists { lists })?;
    }
    Ok(made)
}
