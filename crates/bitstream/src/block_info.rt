//! What BLOCKINFO defined.

ghost use Rattle.std.specs.Prelude.{◌≡◌, ◌++◌, ◌∷◌, ◌==◌, [], ℕ, length, slice_get, All, IfSome, IsTrue, OnOk, OnErr, if◌then◌else◌};
ghost use Rattle.std.specs.Option.{option_copied};
ghost use Rattle.bitstream.specs.Stream.{has_width};
ghost use Rattle.bitstream.specs.BlockInfo.{listed_at, places_from, ArePlaces};

use crate::NoMemory;
use crate::definition::Definition;
use std::alloc::Global;
use std::collections::BTreeMap;

/// A definition of BLOCKINFO, and the block that it is for.
#[derive(Drop)]
pub struct BlockInfoDefinition {
    block: u32,
    definition: Definition,
}

/// The definitions of BLOCKINFO in order, and the places of each block's among them.
#[derive(Drop)]
pub struct BlockInfo {
    alloc: Global,
    all: Vec<BlockInfoDefinition>,
    places: BTreeMap<u32, Vec<usize>>,
    ghost listed: { ArePlaces places all.items },
}

/// Puts a place behind those of a block.
fn add_place(
    alloc: Global,
    places: &mut BTreeMap<u32, Vec<usize>>,
    block: u32,
    place: usize,
) -> Result<(), NoMemory>
    ensures ok { OnOk result ((other : ℕ) → listed_at other places.new ≡ listed_at other places.old ++ (if other == block then place ∷ [] else [])) }
    ensures err { OnErr result ((other : ℕ) → listed_at other places.new ≡ listed_at other places.old) }
{
    if let Some(list) = places.get_mut(&block) {
        return match list.push(place) {
            Ok(()) => Ok(()),
            Err(_) => Err(NoMemory),
        };
    }
    let mut list = Vec::new(alloc);
    if let Err(_) = list.push(place) {
        return Err(NoMemory);
    }
    match places.insert(block, list) {
        Ok(_) => Ok(()),
        Err(_) => Err(NoMemory),
    }
}

impl BlockInfo {
    ghost use Rattle.bitstream.specs.BlockInfo.{block_info_for};

    pub fn new(alloc: Global) -> BlockInfo
        ensures { result.all.items ≡ [] }
    {
        BlockInfo {
            alloc,
            all: Vec::new(alloc),
            places: BTreeMap::new(alloc),
        }
    }

    /// How many definitions there are for a block.
    pub fn count(&self, block: u32) -> usize
        ensures { result ≡ length (block_info_for block self.now.all.items) }
    {
        match self.places.get(&block) {
            Some(places) => places.len(),
            None => 0,
        }
    }

    /// A block's definition, by its number among these from 0 on.
    pub fn get(&self, block: u32, number: usize) -> Option<&Definition>
        ensures { option_copied result ≡ slice_get (block_info_for block self.now.all.items) number }
    {
        match self.place(block, number) {
            Some(place) => Some(&self.all[place].definition),
            None => None,
        }
    }

    fn place(&self, block: u32, number: usize) -> Option<usize>
        ensures { result ≡ slice_get (places_from block 0 self.now.all.items) number }
    {
        match self.places.get(&block) {
            Some(places) => match places.get(number) {
                Some(&place) => Some(place),
                None => None,
            },
            None => None,
        }
    }

    /// Puts a definition for a block behind the others.
    pub fn push(&mut self, block: u32, definition: Definition) -> Result<(), NoMemory>
        ensures { OnOk result (self.new.all.items ≡ self.old.all.items ++ record { block = block; definition = definition } ∷ []) }
    {
        if let Err(_) = self.all.reserve(1) {
            return Err(NoMemory);
        }
        let place = self.all.len();
        if let Err(fault) = add_place(self.alloc, &mut self.places, block, place) {
            return Err(fault);
        }
        // There is room for one more.
        match self.all.push(BlockInfoDefinition { block, definition }) {
            Ok(()) => Ok(()),
            Err(_) => Err(NoMemory),
        }
    }
}
