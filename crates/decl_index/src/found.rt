//! A declaration as it stands in the tree of its file.

ghost use Rattle.std.specs.Prelude.{◌≡◌};
ghost use Rattle.std.specs.Option.{option_map, option_copied};
ghost use Rattle.decl_index.specs.Declarations.{struct_member_name, struct_member_item, extension_member_name, extension_member_item};
ghost use Rattle.decl_index.specs.Found.{shown_declaration, shown_item, name_by_keys, with_keys, named_with, own_with, named_member_with, member_with, part_with, at_spot, found_in};

use crate::spots::Spot;
use dep_key::{Key, Keys, Kind};
use sqlite_items::at;
use swift_ast::{
    Access, Alias, Computed, Decl, Extension, ExtensionMember, FileTree, Func, NamedDecl, Stored,
    Struct, StructMember,
};

/// What is declared: the tree of it.
#[derive(Clone, Copy)]
pub enum Item<'a> {
    Global(&'a swift_ast::Global),
    Func(&'a Func),
    Alias(&'a Alias),
    Struct(&'a Struct),
    Stored(&'a Stored),
    Computed(&'a Computed),
    Extension(&'a Extension),
}

/// A declaration as it stands in the tree of its file.
#[derive(Clone, Copy)]
pub struct Declared<'a> {
    /// The path of its file.
    pub path: &'a str,

    /// Its access, where one is written.
    pub access: Option<&'a Access>,

    /// Its name as it is written.
    pub name: &'a str,

    /// The name by which it is known in the module; of an extension, that of the struct that it extends.
    pub key_name: &'a str,

    /// The keys that it provides.
    pub keys: &'a [Key],

    /// What is declared.
    pub item: Item<'a>,
}

/// The name by which the first of the keys knows a declaration.
fn name_by_keys(keys: &[Key]) -> &str
    ensures { result.now ≡ name_by_keys keys.now }
{
    match keys {
        [key, ..] => match key.kind {
            Kind::PotentialMember => key.context.as_str(),
            _ => key.name.as_str(),
        },
        [] => "",
    }
}

fn with_keys<'a>(
    path: &'a str,
    keys: &'a [Key],
    access: Option<&'a Access>,
    name: &'a str,
    item: Item<'a>,
) -> Declared<'a>
    ensures { shown_declaration result ≡ with_keys path.now keys.now (option_copied access.entry) name.now (shown_item item.entry) }
{
    Declared {
        path,
        access,
        name,
        key_name: name_by_keys(keys),
        keys,
        item,
    }
}

fn named_with<'a>(
    path: &'a str,
    keys: &'a [Key],
    access: &'a Option<Access>,
    tree: &'a NamedDecl,
) -> Declared<'a>
    ensures { shown_declaration result ≡ named_with path.now keys.now access.now tree.now }
{
    let access = access.as_ref();
    match tree {
        NamedDecl::Global(tree) => with_keys(
            path,
            keys,
            access,
            tree.name.text.as_str(),
            Item::Global(tree),
        ),
        NamedDecl::Func(tree) => with_keys(
            path,
            keys,
            access,
            tree.name.text.as_str(),
            Item::Func(tree),
        ),
        NamedDecl::Alias(tree) => with_keys(
            path,
            keys,
            access,
            tree.name.text.as_str(),
            Item::Alias(tree),
        ),
        NamedDecl::Struct(tree) => with_keys(
            path,
            keys,
            access,
            tree.name.text.as_str(),
            Item::Struct(tree),
        ),
    }
}

fn own_with<'a>(path: &'a str, keys: &'a [Key], tree: &'a Decl) -> Declared<'a>
    ensures { shown_declaration result ≡ own_with path.now keys.now tree.now }
{
    match tree {
        Decl::Named(access, tree) => named_with(path, keys, access, tree),
        Decl::Extension(tree) => with_keys(
            path,
            keys,
            None,
            tree.name.text.as_str(),
            Item::Extension(tree),
        ),
    }
}

fn struct_member_with<'a>(
    path: &'a str,
    keys: &'a [Key],
    access: &'a Option<Access>,
    member: &'a StructMember,
) -> Declared<'a>
    ensures { shown_declaration result ≡ with_keys path.now keys.now access.now (struct_member_name member.now) (struct_member_item member.now) }
{
    let access = access.as_ref();
    match member {
        StructMember::Stored(tree) => with_keys(
            path,
            keys,
            access,
            tree.name.text.as_str(),
            Item::Stored(tree),
        ),
        StructMember::Computed(tree) => with_keys(
            path,
            keys,
            access,
            tree.name.text.as_str(),
            Item::Computed(tree),
        ),
        StructMember::Func(tree) => with_keys(
            path,
            keys,
            access,
            tree.name.text.as_str(),
            Item::Func(tree),
        ),
    }
}

fn extension_member_with<'a>(
    path: &'a str,
    keys: &'a [Key],
    access: &'a Option<Access>,
    member: &'a ExtensionMember,
) -> Declared<'a>
    ensures { shown_declaration result ≡ with_keys path.now keys.now access.now (extension_member_name member.now) (extension_member_item member.now) }
{
    let access = access.as_ref();
    match member {
        ExtensionMember::Computed(tree) => with_keys(
            path,
            keys,
            access,
            tree.name.text.as_str(),
            Item::Computed(tree),
        ),
        ExtensionMember::Func(tree) => with_keys(
            path,
            keys,
            access,
            tree.name.text.as_str(),
            Item::Func(tree),
        ),
    }
}

fn named_member_with<'a>(
    path: &'a str,
    keys: &'a [Key],
    tree: &'a NamedDecl,
    place: usize,
) -> Option<Declared<'a>>
    ensures { option_map shown_declaration result ≡ named_member_with path.now keys.now tree.now place }
{
    match tree {
        NamedDecl::Struct(tree) => match at(tree.members.as_slice(), place) {
            Some(member) => Some(struct_member_with(path, keys, &member.0, &member.1)),
            None => None,
        },
        NamedDecl::Global(_) => None,
        NamedDecl::Func(_) => None,
        NamedDecl::Alias(_) => None,
    }
}

fn member_with<'a>(
    path: &'a str,
    keys: &'a [Key],
    tree: &'a Decl,
    place: usize,
) -> Option<Declared<'a>>
    ensures { option_map shown_declaration result ≡ member_with path.now keys.now tree.now place }
{
    match tree {
        Decl::Named(_, tree) => named_member_with(path, keys, tree, place),
        Decl::Extension(tree) => match at(tree.members.as_slice(), place) {
            Some(member) => Some(extension_member_with(path, keys, &member.0, &member.1)),
            None => None,
        },
    }
}

fn part_with<'a>(
    path: &'a str,
    keys: &'a [Key],
    member: Option<usize>,
    tree: &'a Decl,
) -> Option<Declared<'a>>
    ensures { option_map shown_declaration result ≡ part_with path.now keys.now member tree.now }
{
    match member {
        None => Some(own_with(path, keys, tree)),
        Some(place) => member_with(path, keys, tree, place),
    }
}

fn at_spot<'a>(file: &'a FileTree, keys: &'a [Key], spot: &Spot) -> Option<Declared<'a>>
    ensures { option_map shown_declaration result ≡ at_spot file.now.path file.now.decls keys.now spot.now }
{
    match at(file.decls.as_slice(), spot.decl) {
        Some(tree) => part_with(file.path.as_str(), keys, spot.member, tree),
        None => None,
    }
}

/// The declaration at a place of a file with these keys and spots.
pub fn found_in<'a>(
    file: &'a FileTree,
    keys: &'a [Keys],
    spots: &[Spot],
    place: usize,
) -> Option<Declared<'a>>
    ensures { option_map shown_declaration result ≡ found_in file.now.path file.now.decls keys.now spots.now place }
{
    match (at(keys, place), at(spots, place)) {
        (Some(keys), Some(spot)) => at_spot(file, keys.as_slice(), spot),
        _ => None,
    }
}
