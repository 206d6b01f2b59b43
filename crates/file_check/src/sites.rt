//! What a file declares, in sets that answer at once.

ghost use Rattle.std.specs.Prelude.{◌≡◌, ◌++◌, ℕ, Bool, List, map, flat_map, IfOk, OnOk};
ghost use Rattle.std.specs.List.{list_any};
ghost use Rattle.std.specs.BTreeSet as sets;
ghost use Rattle.std.specs.Ordering.{nat_cmp, eq_by_cmp};
ghost use Rattle.std.specs.Cmp.Lexicographic.{slice_cmp};
ghost use Rattle.dep_key.specs.KeyOrder.{key_order};
ghost use Rattle.dep_key.specs.KeyBuilders.{key_name};
ghost use Rattle.dep_key.specs.declared.key.Key.{Key};
ghost use Rattle.decl_index.specs.Declarations.{is_private, struct_name, private_struct, private_structs, is_among, struct_member_name, extension_member_name};
ghost use Rattle.body_check.specs.Declarations as spec;
ghost use Rattle.file_check.specs.Sites.{name_key, visibility, struct_member_key, extension_member_key, extension_keys, members_keys, named_keys, decl_keys, IsIndexed};

use decl_index::is_private;
use dep_key::{Aspect, Key, Kind, Name, NoMemory, key_name};
use std::alloc::Global;
use std::collections::BTreeSet;
use std::marker::Model;
use swift_ast::{
    Access, Decl, Extension, ExtensionMember, FileTree, Leaf, NamedDecl, Struct, StructMember,
};

/// What a file declares: the structs that it keeps to itself, and all names.
///
/// Contracts see it as the site of the file.
#[derive(Drop)]
pub struct SiteIndex<'a> {
    file: &'a FileTree,
    own_structs: BTreeSet<Name>,
    names: BTreeSet<Key>,
}

impl<'a> Model for SiteIndex<'a> {
    ghost use Rattle.body_check.specs.Declarations.{Site, site};
    ghost use Rattle.file_check.specs.Sites.{IsIndexed};

    ghost Value = { Site };

    ghost view = { λ s. site s.file.now };

    ghost invariant = { λ s. IsIndexed (site s.file.now) s.own_structs s.names };
}

/// Adds the name of a declaration, where it is a struct.
fn add_struct_name(alloc: Global, names: &mut Vec<Name>, tree: &NamedDecl) -> Result<(), NoMemory>
    ensures { OnOk result (names.new.items ≡ names.old.items ++ struct_name tree.now) }
{
    match tree {
        NamedDecl::Struct(tree) => {
            let name = Name::from_str(alloc, tree.name.text.as_str())?;
            names.push(name)?;
            Ok(())
        }
        NamedDecl::Global(_) => Ok(()),
        NamedDecl::Func(_) => Ok(()),
        NamedDecl::Alias(_) => Ok(()),
    }
}

/// Adds the name of a declaration, where it is a struct that its file alone sees.
fn add_private(alloc: Global, names: &mut Vec<Name>, decl: &Decl) -> Result<(), NoMemory>
    ensures { OnOk result (names.new.items ≡ names.old.items ++ private_struct decl.now) }
{
    match decl {
        Decl::Named(access, tree) => {
            if is_private(access) {
                add_struct_name(alloc, names, tree)?;
            }
            Ok(())
        }
        Decl::Extension(_) => Ok(()),
    }
}

/// The names of the structs that a file keeps to itself.
fn private_names(alloc: Global, decls: &[Decl]) -> Result<Vec<Name>, NoMemory>
    ensures { IfOk result (λ names. names.items ≡ private_structs decls.now) }
{
    let mut names = Vec::new(alloc);
    for decl in decls {
        add_private(alloc, &mut names, decl)?;
    }
    Ok(names)
}

/// The set of some names.
fn set_of_names(alloc: Global, names: &[Name]) -> Result<BTreeSet<Name>, NoMemory>
    ensures { IfOk result (λ set. (name : List ℕ) → sets.contains (slice_cmp nat_cmp) set name ≡ is_among names.now name) }
{
    let mut set = BTreeSet::new(alloc);
    for name in names {
        set.insert(name.clone()?)?;
    }
    Ok(set)
}

/// The set of some keys.
fn set_of_keys(alloc: Global, keys: &[Key]) -> Result<BTreeSet<Key>, NoMemory>
    ensures { IfOk result (λ set. (key : Key) → sets.contains key_order set key ≡ list_any (λ k. eq_by_cmp key_order k key) keys.now) }
{
    let mut set = BTreeSet::new(alloc);
    for key in keys {
        set.insert(key.clone()?)?;
    }
    Ok(set)
}

fn aspect_of(private: bool) -> Aspect
    ensures { result ≡ visibility private }
{
    if private {
        Aspect::Implementation
    } else {
        Aspect::Interface
    }
}

/// A name that is declared in a context, as a key.
fn name_key(context: Name, name: Name, private: bool) -> Key
    ensures { result ≡ name_key (record { context = context; name = name; private = private }) }
{
    Key {
        kind: Kind::Member,
        aspect: aspect_of(private),
        context,
        name,
    }
}

fn struct_member_name(member: &StructMember) -> &str
    ensures { result.now ≡ struct_member_name member.now }
{
    match member {
        StructMember::Stored(tree) => tree.name.text.as_str(),
        StructMember::Computed(tree) => tree.name.text.as_str(),
        StructMember::Func(tree) => tree.name.text.as_str(),
    }
}

fn extension_member_name(member: &ExtensionMember) -> &str
    ensures { result.now ≡ extension_member_name member.now }
{
    match member {
        ExtensionMember::Computed(tree) => tree.name.text.as_str(),
        ExtensionMember::Func(tree) => tree.name.text.as_str(),
    }
}

/// The name of a declaration.
fn named_decl(tree: &NamedDecl) -> &Leaf
    ensures { result.now ≡ spec.named_decl tree.now }
{
    match tree {
        NamedDecl::Global(tree) => &tree.name,
        NamedDecl::Func(tree) => &tree.name,
        NamedDecl::Struct(tree) => &tree.name,
        NamedDecl::Alias(tree) => &tree.name,
    }
}

/// Adds the names of the members of a struct.
fn add_struct_members(
    alloc: Global,
    keys: &mut Vec<Key>,
    context: &Name,
    members: &[(Option<Access>, StructMember)],
) -> Result<(), NoMemory>
    ensures { OnOk result (keys.new.items ≡ keys.old.items ++ map (struct_member_key context.now) members.now) }
{
    for member in members {
        let name = Name::from_str(alloc, struct_member_name(&member.1))?;
        keys.push(name_key(context.clone()?, name, is_private(&member.0)))?;
    }
    Ok(())
}

/// Adds the names of the members of an extension.
fn add_extension_members(
    alloc: Global,
    keys: &mut Vec<Key>,
    context: &Name,
    members: &[(Option<Access>, ExtensionMember)],
) -> Result<(), NoMemory>
    ensures { OnOk result (keys.new.items ≡ keys.old.items ++ map (extension_member_key context.now) members.now) }
{
    for member in members {
        let name = Name::from_str(alloc, extension_member_name(&member.1))?;
        keys.push(name_key(context.clone()?, name, is_private(&member.0)))?;
    }
    Ok(())
}

/// Adds the names of the members of a declaration that gives a name.
fn add_members(
    alloc: Global,
    keys: &mut Vec<Key>,
    context: &Name,
    tree: &NamedDecl,
) -> Result<(), NoMemory>
    ensures { OnOk result (keys.new.items ≡ keys.old.items ++ members_keys context.now tree.now) }
{
    match tree {
        NamedDecl::Struct(tree) => add_struct_members(
            alloc,
            keys,
            context,
            tree.members.as_slice(),
        ),
        NamedDecl::Global(_) => Ok(()),
        NamedDecl::Func(_) => Ok(()),
        NamedDecl::Alias(_) => Ok(()),
    }
}

/// Whether an extension extends a struct that its file keeps to itself.
fn extends_own(alloc: Global, own: &BTreeSet<Name>, name: &str) -> Result<bool, NoMemory>
    ensures { IfOk result (λ is_own. is_own ≡ sets.contains (slice_cmp nat_cmp) own.now name.now) }
{
    let name = Name::from_str(alloc, name)?;
    Ok(own.contains(&name))
}

/// Adds the names of a declaration and of its members, where it gives a name.
fn add_named(
    alloc: Global,
    keys: &mut Vec<Key>,
    path: &str,
    access: &Option<Access>,
    tree: &NamedDecl,
) -> Result<(), NoMemory>
    ensures { OnOk result (keys.new.items ≡ keys.old.items ++ named_keys path.now access.now tree.now) }
{
    let private = is_private(access);
    let name = named_decl(tree).text.as_str();
    let context = key_name(alloc, path, private, name)?;
    let own = Name::from_str(alloc, name)?;
    keys.push(name_key(Name::new(), own, private))?;
    add_members(alloc, keys, &context, tree)
}

/// Adds the names of the members of an extension.
fn add_extension(
    alloc: Global,
    keys: &mut Vec<Key>,
    path: &str,
    is_own: bool,
    tree: &Extension,
) -> Result<(), NoMemory>
    ensures { OnOk result (keys.new.items ≡ keys.old.items ++ extension_keys path.now is_own tree.now) }
{
    let context = key_name(alloc, path, is_own, tree.name.text.as_str())?;
    add_extension_members(alloc, keys, &context, tree.members.as_slice())
}

/// Adds the names of a declaration and of its members, where the file keeps some structs to itself.
fn add_decl(
    alloc: Global,
    keys: &mut Vec<Key>,
    path: &str,
    own: &BTreeSet<Name>,
    decl: &Decl,
) -> Result<(), NoMemory>
    ensures { OnOk result ((names : List (List ℕ)) → ((name : List ℕ) → sets.contains (slice_cmp nat_cmp) own.now name ≡ is_among names name) → keys.new.items ≡ keys.old.items ++ decl_keys path.now names decl.now) }
{
    match decl {
        Decl::Named(access, tree) => add_named(alloc, keys, path, access, tree),
        Decl::Extension(tree) => {
            let is_own = extends_own(alloc, own, tree.name.text.as_str())?;
            add_extension(alloc, keys, path, is_own, tree)?;
            Ok(())
        }
    }
}

/// The names that a file declares, as keys.
fn declared_names(
    alloc: Global,
    file: &FileTree,
    own: &BTreeSet<Name>,
) -> Result<Vec<Key>, NoMemory>
    ensures { IfOk result (λ keys. ((name : List ℕ) → sets.contains (slice_cmp nat_cmp) own.now name ≡ is_among (private_structs file.now.decls) name) → keys.items ≡ flat_map (decl_keys file.now.path (private_structs file.now.decls)) file.now.decls) }
{
    let mut keys = Vec::new(alloc);
    let decls = file.decls.as_slice();
    for decl in decls {
        add_decl(alloc, &mut keys, file.path.as_str(), own, decl)?;
    }
    Ok(keys)
}

impl<'a> SiteIndex<'a> {
    /// What a file declares.
    pub fn of(alloc: Global, file: &'a FileTree) -> Result<SiteIndex<'a>, NoMemory>
        ensures { IfOk result (λ site. site ≡ spec.site file.now) }
    {
        let own = private_names(alloc, file.decls.as_slice())?;
        let own_structs = set_of_names(alloc, own.as_slice())?;
        let keys = declared_names(alloc, file, &own_structs)?;
        let names = set_of_keys(alloc, keys.as_slice())?;
        Ok(SiteIndex {
            file,
            own_structs,
            names,
        })
    }

    /// The path of the file.
    pub fn path(&self) -> &str
        ensures { result.now ≡ self.now.path }
    {
        self.file.path.as_str()
    }

    /// Whether the file keeps a struct of the name to itself.
    pub fn keeps_struct(&self, alloc: Global, name: &str) -> Result<bool, NoMemory>
        ensures { IfOk result (λ is_own. is_own ≡ is_among self.now.own_structs name.now) }
    {
        let is_own = extends_own(alloc, &self.own_structs, name)?;
        Ok(is_own)
    }

    /// Whether the file declares a name in a context once more, with the other visibility.
    pub fn has_other_visibility(&self, context: Name, name: Name, private: bool) -> bool
        ensures { result ≡ spec.with_other_visibility self.now (record { context = context; name = name; private = private }) }
    {
        let key = name_key(context, name, !private);
        self.names.contains(&key)
    }
}
