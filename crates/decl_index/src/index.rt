//! Which declarations have a key.

ghost use Rattle.std.specs.Prelude.{◌≡◌, ◌++◌, ◌∷◌, [], IfOk, OnOk};
ghost use Rattle.std.specs.BTreeMap.{get};
ghost use Rattle.std.specs.Option.{option_map};
ghost use Rattle.decl_index.specs.Found.{shown_declaration, found_at, declaration_at};
ghost use Rattle.dep_key.specs.declared.key.Key.{Key};
ghost use Rattle.dep_key.specs.KeyOrder.{key_order};
ghost use Rattle.decl_index.specs.Providers.{reference, entries_at, entries_from, found, items_or_none, providers, InStep};

use crate::declarations::{KeyLists, declared_keys, key_lists};
use crate::found::{Declared, found_in};
use crate::spots::{Spots, spots_in};
use dep_key::{FileNo, Key, Keys, NoMemory};
use sqlite_items::at;
use std::alloc::Global;
use std::collections::BTreeMap;
use std::marker::Model;
use swift_ast::FileTree;

/// A declaration of a module.
#[derive(Clone, Copy, Debug, PartialEq, Eq)]
pub struct DeclRef {
    /// The place of its file in the list of files, from 0.
    pub file: FileNo,

    /// Its number in its file, from 0, where a struct and an extension are followed by their members.
    pub place: u32,
}

/// The trees of a module, and their declarations by their keys.
///
/// Contracts see an index as the list of the trees.
#[derive(Drop)]
pub struct Index {
    files: Vec<FileTree>,
    /// Of each file the keys of its declarations, by place.
    keys: Vec<KeyLists>,
    /// Of each file where its declarations stand in its tree, by place.
    spots: Vec<Spots>,
    providers: BTreeMap<Key, Vec<DeclRef>>,
}

impl Model for Index {
    ghost use Rattle.std.specs.Prelude.{List};
    ghost use Rattle.swift_ast.specs.declared.declarations.FileTree.{FileTree};
    ghost use Rattle.std.specs.Coded.{codes};
    ghost use Rattle.swift_ast.specs.contracts.expressions.Expr as expr;
    ghost use Rattle.swift_ast.specs.contracts.statements.Block as block;
    ghost use Rattle.decl_index.specs.Providers.{IsIndexed};

    ghost Value = { List FileTree };

    ghost coded = { Prim.hlevel (codes, expr.the_row.coded, block.the_row.coded) };

    ghost view = { λ s. s.files.items };

    ghost invariant = { λ s. IsIndexed s.files.items s.keys.items s.spots.items s.providers };
}

/// Enters a declaration under one of its keys.
fn enter(
    alloc: Global,
    map: &mut BTreeMap<Key, Vec<DeclRef>>,
    key: Key,
    at: DeclRef,
) -> Result<(), NoMemory>
    ensures { OnOk result ((q : Key) → items_or_none (get key_order map.new q) ≡ items_or_none (get key_order map.old q) ++ found q ((key, at) ∷ [])) }
{
    let mut known = match map.remove(&key) {
        Some(known) => known,
        None => Vec::new(alloc),
    };
    known.push(at)?;
    map.insert(key, known)?;
    Ok(())
}

/// Enters a declaration under its keys.
fn enter_keys(
    alloc: Global,
    map: &mut BTreeMap<Key, Vec<DeclRef>>,
    keys: Keys,
    at: DeclRef,
) -> Result<(), NoMemory>
    ensures { OnOk result ((q : Key) → items_or_none (get key_order map.new q) ≡ items_or_none (get key_order map.old q) ++ found q (entries_at at keys)) }
{
    for key in keys.into_vec() {
        enter(alloc, map, key, at)?;
    }
    Ok(())
}

/// The reference to a declaration; none for numbers of 2^32 and more, which have no room.
fn reference(file: usize, place: usize) -> Result<DeclRef, NoMemory>
    ensures { IfOk result (λ at. at ≡ reference file place) }
{
    if file > u32::MAX as usize || place > u32::MAX as usize {
        return Err(NoMemory);
    }
    Ok(DeclRef {
        file: file as u32,
        place: place as u32,
    })
}

/// Enters the declarations of a file.
fn enter_file(
    alloc: Global,
    map: &mut BTreeMap<Key, Vec<DeclRef>>,
    file: usize,
    declared: Vec<Keys>,
) -> Result<(), NoMemory>
    ensures { OnOk result ((q : Key) → items_or_none (get key_order map.new q) ≡ items_or_none (get key_order map.old q) ++ found q (entries_from file 0 declared.items)) }
{
    let mut place = 0usize;
    for keys in declared {
        let at = reference(file, place)?;
        enter_keys(alloc, map, keys, at)?;
        place += 1;
    }
    Ok(())
}

/// The declarations of all files by their keys.
fn enter_files(alloc: Global, files: &[FileTree]) -> Result<BTreeMap<Key, Vec<DeclRef>>, NoMemory>
    ensures { IfOk result (λ providers. InStep files.now providers) }
{
    let mut providers = BTreeMap::new(alloc);
    let mut number = 0usize;
    for file in files {
        let declared = declared_keys(alloc, file)?;
        enter_file(alloc, &mut providers, number, declared)?;
        number += 1;
    }
    Ok(providers)
}

/// The declaration of a reference, by the keys and spots of each file.
fn found_at<'a>(
    files: &'a [FileTree],
    keys: &'a [KeyLists],
    spots: &'a [Spots],
    reference: DeclRef,
) -> Option<Declared<'a>>
    ensures { option_map shown_declaration result ≡ found_at files.now keys.now spots.now reference }
{
    let number = reference.file as usize;
    let place = reference.place as usize;
    match at(files, number) {
        Some(file) => match at(keys, number) {
            Some(keys) => match at(spots, number) {
                Some(spots) => found_in(file, keys.as_slice(), spots.as_slice(), place),
                None => None,
            },
            None => None,
        },
        None => None,
    }
}

impl Index {
    /// Enters the declarations of all files, in their order. Numbers of 2^32 and more have no room.
    pub fn new(alloc: Global, files: Vec<FileTree>) -> Result<Index, NoMemory>
        ensures files { IfOk result (λ index. index ≡ files.items) }
    {
        let keys = key_lists(alloc, files.as_slice())?;
        let spots = spots_in(alloc, files.as_slice())?;
        let providers = enter_files(alloc, files.as_slice())?;
        Ok(Index {
            files,
            keys,
            spots,
            providers,
        })
    }

    /// The trees, in the order in which they were handed in.
    pub fn files(&self) -> &[FileTree]
        ensures files { result.now ≡ self.now }
    {
        &self.files
    }

    /// The declarations that have a key, in order of file and place. Takes no memory.
    pub fn providers(&self, key: &Key) -> &[DeclRef]
        ensures providers { result.now ≡ providers self.now key.now }
    {
        match self.providers.get(key) {
            Some(found) => found.as_slice(),
            None => &[],
        }
    }

    /// The declaration of a reference, with its keys, and `None` where the files have no such place. Takes no memory, and
    /// the same time in every project.
    pub fn declared(&self, reference: DeclRef) -> Option<Declared<'_>>
        ensures declared { option_map shown_declaration result ≡ declaration_at self.now reference }
    {
        found_at(&self.files, &self.keys, &self.spots, reference)
    }
}
