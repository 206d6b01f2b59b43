//! Where the declarations of a file stand in its tree.

ghost use Rattle.std.specs.Prelude.{◌≡◌, ◌++◌, [], ◌∷◌, Some, map, IfOk, OnOk};
ghost use Rattle.decl_index.specs.Spots.{spot, decl_spots, file_spots, member_spots, member_count, named_member_count};

use dep_key::NoMemory;
use std::alloc::Global;
use std::marker::Model;
use swift_ast::{Decl, FileTree, NamedDecl};

/// Where a declaration stands in the tree of its file.
#[derive(Clone, Copy, Debug)]
pub struct Spot {
    /// The place in the declarations of the file, from 0.
    pub decl: usize,

    /// Of a member its place in that declaration, from 0.
    pub member: Option<usize>,
}

/// A `Vec` of spots that contracts see as the list of them.
#[derive(Debug, Drop)]
pub struct Spots {
    spots: Vec<Spot>,
}

impl Model for Spots {
    ghost use Rattle.std.specs.Prelude.{List};
    ghost use Rattle.decl_index.specs.declared.spots.Spot.{Spot};

    ghost Value = { List Spot };

    ghost view = { λ t. t.spots.items };
}

impl Spots {
    pub fn as_slice(&self) -> &[Spot]
        ensures { result.now ≡ self.now }
    {
        &self.spots
    }
}

fn named_member_count(decl: &NamedDecl) -> usize
    ensures { result ≡ named_member_count decl.now }
{
    match decl {
        NamedDecl::Struct(tree) => tree.members.len(),
        NamedDecl::Global(_) => 0,
        NamedDecl::Func(_) => 0,
        NamedDecl::Alias(_) => 0,
    }
}

fn member_count(decl: &Decl) -> usize
    ensures { result ≡ member_count decl.now }
{
    match decl {
        Decl::Named(_, tree) => named_member_count(tree),
        Decl::Extension(tree) => tree.members.len(),
    }
}

fn add_member(spots: &mut Vec<Spot>, decl: usize, member: usize) -> Result<(), NoMemory>
    ensures { OnOk result (spots.new.items ≡ spots.old.items ++ spot decl (Some member) ∷ []) }
{
    spots.push(Spot {
        decl,
        member: Some(member),
    })?;
    Ok(())
}

/// Adds the spots of a declaration and its members.
fn add_spots(spots: &mut Vec<Spot>, decl: usize, tree: &Decl) -> Result<(), NoMemory>
    ensures { OnOk result (spots.new.items ≡ spots.old.items ++ decl_spots decl tree.now) }
{
    let count = member_count(tree);
    spots.push(Spot { decl, member: None })?;
    let mut member = 0usize;
    while member < count {
        add_member(spots, decl, member)?;
        member += 1;
    }
    Ok(())
}

fn spots_of(alloc: Global, file: &FileTree) -> Result<Spots, NoMemory>
    ensures { IfOk result (λ spots. spots ≡ file_spots file.now) }
{
    let mut spots = Vec::new(alloc);
    for (decl, tree) in file.decls.as_slice().iter().enumerate() {
        add_spots(&mut spots, decl, tree)?;
    }
    Ok(Spots { spots })
}

/// The spots of the declarations of each file.
pub fn spots_in(alloc: Global, files: &[FileTree]) -> Result<Vec<Spots>, NoMemory>
    ensures { IfOk result (λ made. made.items ≡ map file_spots files.now) }
{
    let mut made = Vec::new(alloc);
    for file in files {
        let spots = spots_of(alloc, file)?;
        made.push(spots)?;
    }
    Ok(made)
}
