ghost use Rattle.bitstream.specs.Cursor.{here};
ghost use Rattle.std.specs.Prelude.{◌≡◌, None};
ghost use Rattle.bitstream.specs.Reading.{context};
ghost use Rattle.bitstream.specs.Items.{IsSound};

use crate::entry_reader::EntryReader;
use crate::{BitFault, Item, Operands};
use arrayvec::ArrayVec;
use std::alloc::Global;

/// Reads a bitstream from the first bit of its bytes on.
///
/// Bits go from the least significant of each byte upwards, as in the LLVM Bitstream Container
/// Format (<https://llvm.org/docs/BitCodeFormat.html>). After a fault every call answers the same
/// one.
#[derive(Drop)]
pub struct BitReader<'b> {
    entries: EntryReader<'b>,
    item: u128,
    fault: Option<BitFault>,
    ghost sound: { fault ≡ None → IsSound (context entries) (here entries.cursor) },
}

impl<'b> BitReader<'b> {
    ghost use Rattle.std.specs.Prelude.{◌≢◌, ◌≤◌, ◌*◌, List, [], ◌∷◌, length, Some, Err, OnOk, IfOk, IfErr, All, ℕ};
    ghost use Rattle.bitstream.specs.declared.item.BitFault.{BitFault};
    ghost use Rattle.bitstream.specs.declared.item.BitFault.TheVariants.{NoMemory};
    ghost use Rattle.bitstream.specs.Fields.{fixed_at, vbr_at};
    ghost use Rattle.bitstream.specs.Reading.{seen, Ends, Stuck, first_bit, answer_of, item_of, NextGives};
    ghost use Rattle.bitstream.specs.Reader.{reading};
    ghost use Rattle.bitstream.specs.Items.{items_of, items_in, total_bits, operand_count};

    /// A reader at the first bit, with no fault.
    pub fn new(alloc: Global, bytes: &'b [u8]) -> BitReader<'b>
        ensures place { reading result ≡ first_bit bytes.now }
        ensures items { items_of (reading result) ≡ items_in bytes.now }
        ensures total { total_bits (reading result) ≡ 8 * length bytes.now }
        ensures fault { (items_in bytes.now).1 ≢ Some NoMemory }
        ensures few_operands { All (λ item. operand_count item.1 ≤ 8 * length bytes.now) (items_in bytes.now).0 }
    {
        BitReader {
            entries: EntryReader::new(alloc, bytes),
            item: 0,
            fault: None,
        }
    }

    /// The first bit of the last item that was given, and 0 before there is one.
    pub fn at(&self) -> u128
        ensures { result ≡ item_of (reading self.now) }
    {
        self.item
    }

    /// Reads a number of `width` bits, least significant first.
    ///
    /// Answers `Short` where fewer bits are left. Takes no memory.
    pub fn fixed(&mut self, width: u32) -> Result<u64, BitFault>
        requires { width ≤ 64 }
        ensures { (result, reading self.new) ≡ answer_of (fixed_at width) (reading self.old) }
    {
        if let Some(fault) = self.fault {
            return Err(fault);
        }
        match self.entries.fixed(width) {
            Ok(number) => Ok(number),
            Err(fault) => {
                self.fault = Some(fault);
                Err(fault)
            }
        }
    }

    /// Reads a number in groups of `width` bits, the lowest first: the top bit of each but the last
    /// is set, and the bits below it are the number's. A width of 0 reads as 0.
    ///
    /// Answers `WideNumber` where the groups that are there don't fit 64 bits, and else `Short` where
    /// the last one is missing. Takes no memory.
    pub fn vbr(&mut self, width: u32) -> Result<u64, BitFault>
        requires { width ≤ 32 }
        ensures { (result, reading self.new) ≡ answer_of (vbr_at width) (reading self.old) }
    {
        if let Some(fault) = self.fault {
            return Err(fault);
        }
        match self.entries.vbr(width) {
            Ok(number) => Ok(number),
            Err(fault) => {
                self.fault = Some(fault);
                Err(fault)
            }
        }
    }

    /// The next item, or `End` where no bit is left outside all blocks.
    ///
    /// Want of memory is answered as `NoMemory`; every other fault is the first one of the input.
    #[inline(always)]
    pub fn next(&mut self) -> Result<Item<'b>, BitFault>
        ensures shown { IfOk result (λ item. seen item ≢ Ends → items_of (reading self.old) ≡ ((item_of (reading self.new), seen item) ∷ (items_of (reading self.new)).0, (items_of (reading self.new)).1)) }
        ensures ended { IfOk result (λ item. seen item ≡ Ends → items_of (reading self.old) ≡ ([], None)) }
        ensures still_ended { IfOk result (λ item. seen item ≡ Ends → items_of (reading self.new) ≡ ([], None)) }
        ensures end_position { IfOk result (λ item. seen item ≡ Ends → item_of (reading self.new) ≡ total_bits (reading self.new)) }
        ensures few_operands { IfOk result (λ item. operand_count (seen item) ≤ total_bits (reading self.new)) }
        ensures total { OnOk result (total_bits (reading self.new) ≡ total_bits (reading self.old)) }
        ensures fault { IfErr result (λ e. e ≢ NoMemory → items_of (reading self.old) ≡ ([], Some e)) }
        ensures stuck { IfErr result (λ e. reading self.new ≡ Stuck e (item_of (reading self.old))) }
        ensures no_more { IfErr result (λ e. items_of (reading self.new) ≡ ([], Some e)) }
        ensures again { (e : BitFault) (i : ℕ) → reading self.old ≡ Stuck e i → result ≡ Err e }
        ensures place { NextGives (reading self.old) result (reading self.new) }
    {
        self.step()
    }

    #[inline(always)]
    fn step(&mut self) -> Result<Item<'b>, BitFault>
        ensures { NextGives (reading self.old) result (reading self.new) }
    {
        if let Some(fault) = self.fault {
            return Err(fault);
        }
        let mut numbers = ArrayVec::new();
        if let Some((at, code)) = self.entries.unabbreviated_fast_path(&mut numbers) {
            self.item = at;
            return Ok(Item::Rec {
                code,
                ops: Operands::from_few(numbers),
                blob: None,
            });
        }
        self.any_item()
    }

    /// The next item, of any kind.
    #[inline(never)]
    fn any_item(&mut self) -> Result<Item<'b>, BitFault>
        ensures { NextGives (reading self.old) result (reading self.new) }
    {
        if let Some(fault) = self.fault {
            return Err(fault);
        }
        match self.entries.read_item() {
            Ok((at, item)) => {
                self.item = at;
                Ok(item)
            }
            Err(fault) => {
                self.fault = Some(fault);
                Err(fault)
            }
        }
    }
}
