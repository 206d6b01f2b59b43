ghost use Rattle.std.specs.Prelude.{◌≡◌, ◌≤◌, ◌*◌, ◌-◌, ◌<◌, [], ◌∷◌, ℕ, List, All, length, nat_lt, Ok, Some, None, Option, IfSome, IfNone, IsTrue};
ghost use Rattle.std.specs.Option.{option_copied};
ghost use Rattle.bitstream.specs.Fields.{fixed_at, vbr_at};
ghost use Rattle.bitstream.specs.declared.item.AbbrevOp.TheVariants.{Literal, Blob};
ghost use Rattle.bitstream.specs.Stream.{slice_seen, definition_at};
ghost use Rattle.bitstream.specs.Scopes.{abbrev_in};
ghost use Rattle.bitstream.specs.declared.codes.TheConstants.{BLOCKINFO_BLOCK_ID, FIRST_APPLICATION_ABBREV};
ghost use Rattle.bitstream.specs.declared.definition.TheConstants.{MOST_COPIED};
ghost use Rattle.bitstream.specs.Sparse.{ops_in_bits, filled};

use crate::block_info::BlockInfo;
use crate::codes::{
    BLOCKINFO_BLOCK_ID, BLOCKINFO_CODE_SETBID, DEFINE_ABBREV, END_BLOCK, ENTER_SUBBLOCK,
    FIRST_APPLICATION_ABBREV, MOST_OPEN_BLOCKS, OUTER_ID_WIDTH, RECORD_WIDTH, UNABBREV_RECORD,
    WORD_BITS,
};
use crate::cursor::Cursor;
use crate::definition::Definition;
use crate::unfilled::Unfilled;
use crate::{AbbrevOp, BitFault, Item, Operands};
use arrayvec::ArrayVec;
use std::alloc::Global;

/// A block that is open: the bit of its ENTER, its number, the width of its ids, how many
/// abbreviations of their own the outer blocks have, how many BLOCKINFO had defined for it, the bit
/// behind its length field, and its length in words.
#[derive(Clone, Copy)]
pub struct Scope {
    entered: u128,
    block: u32,
    width: u32,
    first: usize,
    block_info: usize,
    begins: u128,
    said: u32,
}

/// The definition of the innermost block's abbreviation that has the id.
fn abbrev_of<'a>(
    scope: Scope,
    block_info: &'a BlockInfo,
    own: &'a [Definition],
    id: u64,
) -> Option<&'a Definition>
    requires { FIRST_APPLICATION_ABBREV ≤ id }
    ensures { option_copied result ≡ abbrev_in scope block_info.now.all.items own.now (id - FIRST_APPLICATION_ABBREV) }
{
    let number = (id - FIRST_APPLICATION_ABBREV) as usize;
    if number < scope.block_info {
        return block_info.get(scope.block, number);
    }
    let place = scope.first as u128 + (number - scope.block_info) as u128;
    if place >= own.len() as u128 {
        return None;
    }
    Some(&own[place as usize])
}

/// The code of an abbreviation that is this literal and a blob.
fn code_before_blob(ops: &[AbbrevOp]) -> Option<u64>
    ensures { IfSome result (λ code. ops.now ≡ Literal code ∷ Blob ∷ []) }
{
    match ops {
        [AbbrevOp::Literal(code), AbbrevOp::Blob] => Some(*code),
        _ => None,
    }
}

/// Reads the entries of a bitstream one by one. After a fault it stands anywhere.
// Outside all blocks `outer` is empty, and `scope` has the width 2. `abbrevs` has what the open blocks
// define themselves, the innermost's last.
#[derive(Drop)]
pub struct EntryReader<'b> {
    alloc: Global,
    cursor: Cursor<'b>,
    scope: Scope,
    outer: Vec<Scope>,
    abbrevs: Vec<Definition>,
    block_info: BlockInfo,
    named: Option<u32>,
    ghost width: { scope.width ≤ 32 },
    ghost widths: { All (λ s. s.width ≤ 32) outer.items },
}

impl<'b> EntryReader<'b> {
    ghost use Rattle.bitstream.specs.Reading.{Record, at_end, context, by_abbrev, judged_values, named_by, GivesAnyList, left_at, EntryGives, ItemGives, outside, end_at, enter_at, define_at, judged, abbreviated_at, plain_at, blob_record_at, entry_at, entry_by, next_at};
    ghost use Rattle.bitstream.specs.Cursor.{here};
    ghost use Rattle.bitstream.specs.Fields.{Gives, input_at};

    /// A reader at the first bit.
    pub fn new(alloc: Global, bytes: &'b [u8]) -> EntryReader<'b>
        ensures place { here result.cursor ≡ input_at bytes.now 0 }
        ensures context { context result ≡ outside }
    {
        EntryReader {
            alloc,
            cursor: Cursor::new(bytes),
            scope: Scope {
                entered: 0,
                block: 1,
                width: OUTER_ID_WIDTH,
                first: 0,
                block_info: 0,
                begins: 0,
                said: 0,
            },
            outer: Vec::new(alloc),
            abbrevs: Vec::new(alloc),
            block_info: BlockInfo::new(alloc),
            named: None,
        }
    }

    /// A number of this many bits.
    pub fn fixed(&mut self, width: u32) -> Result<u64, BitFault>
        requires { width ≤ 64 }
        ensures read { Gives (here self.new.cursor) result (fixed_at width (here self.old.cursor)) }
        ensures context { context self.new ≡ context self.old }
    {
        self.cursor.fixed(width)
    }

    /// A number in groups of this many bits.
    pub fn vbr(&mut self, width: u32) -> Result<u64, BitFault>
        requires { width ≤ 32 }
        ensures read { Gives (here self.new.cursor) result (vbr_at width (here self.old.cursor)) }
        ensures context { context self.new ≡ context self.old }
    {
        self.cursor.vbr(width)
    }

    fn is_at_end(&self) -> bool
        ensures { result ≡ at_end (context self.now) (here self.now.cursor) }
    {
        self.outer.is_empty() && self.cursor.left() == 0
    }

    /// The first bit and the code of the next item, and its operands, where that is a record without an
    /// abbreviation that is read quickly. Where it isn't, the reader stays where it is.
    #[inline(always)]
    pub fn unabbreviated_fast_path(&mut self, values: &mut ArrayVec<u64, 4>) -> Option<(u128, u64)>
        requires { values.old.items ≡ [] }
        ensures found { IfSome result (λ x. next_at (left_at (here self.old.cursor)) (context self.old) (here self.old.cursor) ≡ Ok ((x.0, Record x.1 values.new.items None, context self.old), here self.new.cursor)) }
        ensures context { context self.new ≡ context self.old }
        ensures none { IfNone result (here self.new.cursor ≡ here self.old.cursor) }
    {
        if self.outer.is_empty() || self.scope.block == BLOCKINFO_BLOCK_ID {
            return None;
        }
        let at = self.cursor.at();
        let mut cursor = self.cursor;
        let head = cursor.quick_head(self.scope.width)?;
        if head.id != UNABBREV_RECORD || head.count > 4 {
            return None;
        }
        cursor.quick_numbers(head.count, values)?;
        self.cursor = cursor;
        Some((at, head.code))
    }

    /// The next item and its first bit.
    pub fn read_item(&mut self) -> Result<(u128, Item<'b>), BitFault>
        ensures { ItemGives (context self.new) (here self.new.cursor) result (next_at (left_at (here self.old.cursor)) (context self.old) (here self.old.cursor)) }
    {
        let mut entries = self.cursor.left() + 1;
        'each: while entries > 0 {
            entries -= 1;
            let at = self.cursor.at();
            if self.is_at_end() {
                return Ok((at, Item::End));
            }
            match self.entry() {
                Ok(Some(item)) => return Ok((at, item)),
                Ok(None) => {}
                Err(fault) => return Err(fault),
            }
        }
        // Each entry takes bits, so one of those that are left shows an item or has a fault.
        Err(BitFault::NoMemory)
    }

    fn entry(&mut self) -> Result<Option<Item<'b>>, BitFault>
        ensures { EntryGives (context self.new) (here self.new.cursor) result (entry_at (context self.old) (here self.old.cursor)) }
    {
        let at = self.cursor.at();
        let id = match self.cursor.fixed(self.scope.width) {
            Ok(id) => id,
            Err(fault) => return Err(fault),
        };
        self.entry_behind(at, id)
    }

    fn entry_behind(&mut self, at: u128, id: u64) -> Result<Option<Item<'b>>, BitFault>
        ensures { EntryGives (context self.new) (here self.new.cursor) result (entry_by at id (context self.old) (here self.old.cursor)) }
    {
        if id == ENTER_SUBBLOCK {
            return self.enter(at);
        }
        if self.outer.is_empty() {
            return Err(BitFault::OutsideBlock { at });
        }
        if id == END_BLOCK {
            return self.end();
        }
        if id == DEFINE_ABBREV {
            return self.define(at);
        }
        if id == UNABBREV_RECORD {
            return self.plain(at);
        }
        self.abbreviated(at, id)
    }

    /// The end of the innermost block, behind its id.
    fn end(&mut self) -> Result<Option<Item<'b>>, BitFault>
        ensures { EntryGives (context self.new) (here self.new.cursor) result (end_at (context self.old) (here self.old.cursor)) }
    {
        let scope = self.scope;
        if let Err(fault) = self.cursor.align() {
            return Err(fault);
        }
        let words = self.cursor.at().saturating_sub(scope.begins) / WORD_BITS as u128 % 4294967296;
        if words != scope.said as u128 {
            return Err(BitFault::BadBlockLength {
                at: scope.entered,
                said: scope.said as u64,
            });
        }
        self.abbrevs.truncate(scope.first);
        if let Some(outer) = self.outer.pop() {
            self.scope = outer;
        }
        if scope.block == BLOCKINFO_BLOCK_ID {
            return Ok(None);
        }
        Ok(Some(Item::Leave))
    }

    /// The beginning of a block at the bit `at`, behind its id.
    fn enter(&mut self, at: u128) -> Result<Option<Item<'b>>, BitFault>
        ensures { EntryGives (context self.new) (here self.new.cursor) result (enter_at at (context self.old) (here self.old.cursor)) }
    {
        if self.scope.block == BLOCKINFO_BLOCK_ID {
            return Err(BitFault::BadOperands { at });
        }
        if self.outer.len() >= MOST_OPEN_BLOCKS {
            return Err(BitFault::TooDeep { at });
        }
        let opened = match self.cursor.opened(at) {
            Ok(opened) => opened,
            Err(fault) => return Err(fault),
        };
        if let Err(_) = self.outer.push(self.scope) {
            return Err(BitFault::NoMemory);
        }
        self.scope = Scope {
            entered: at,
            block: opened.block,
            width: opened.width,
            first: self.abbrevs.len(),
            block_info: self.block_info.count(opened.block),
            begins: opened.begins,
            said: opened.said,
        };
        self.named = None;
        if opened.block == BLOCKINFO_BLOCK_ID {
            return Ok(None);
        }
        Ok(Some(Item::Enter {
            block: opened.block,
        }))
    }

    /// A definition at the bit `at`, behind its id.
    fn define(&mut self, at: u128) -> Result<Option<Item<'b>>, BitFault>
        ensures { EntryGives (context self.new) (here self.new.cursor) result (define_at at (context self.old) (here self.old.cursor)) }
    {
        if self.scope.block == BLOCKINFO_BLOCK_ID {
            let block = match self.named {
                Some(block) => block,
                None => return Err(BitFault::BadOperands { at }),
            };
            let definition = match self.definition(at) {
                Ok(definition) => definition,
                Err(fault) => return Err(fault),
            };
            if let Err(_) = self.block_info.push(block, definition) {
                return Err(BitFault::NoMemory);
            }
            return Ok(None);
        }
        let definition = match self.definition(at) {
            Ok(definition) => definition,
            Err(fault) => return Err(fault),
        };
        if let Err(_) = self.abbrevs.push(definition) {
            return Err(BitFault::NoMemory);
        }
        Ok(None)
    }

    /// The operands of a definition at the bit `at`, behind its id.
    fn definition(&mut self, at: u128) -> Result<Definition, BitFault>
        ensures read { GivesAnyList (here self.new.cursor) result (definition_at at (here self.old.cursor)) }
        ensures context { context self.new ≡ context self.old }
    {
        let ops = match self.cursor.definition(self.alloc, at) {
            Ok(ops) => ops,
            Err(fault) => return Err(fault),
        };
        match Definition::from_vec(self.alloc, ops) {
            Ok(definition) => Ok(definition),
            Err(_) => Err(BitFault::NoMemory),
        }
    }

    /// A record without an abbreviation at the bit `at`, behind its id.
    fn plain(&mut self, at: u128) -> Result<Option<Item<'b>>, BitFault>
        ensures { EntryGives (context self.new) (here self.new.cursor) result (plain_at at (context self.old) (here self.old.cursor)) }
    {
        let code = match self.cursor.vbr(RECORD_WIDTH) {
            Ok(code) => code,
            Err(fault) => return Err(fault),
        };
        let count = match self.cursor.vbr(RECORD_WIDTH) {
            Ok(count) => count,
            Err(fault) => return Err(fault),
        };
        let mut numbers = Vec::new(self.alloc);
        if let Err(fault) = self
            .cursor
            .numbers(count, AbbrevOp::Vbr(RECORD_WIDTH), &mut numbers)
        {
            return Err(fault);
        }
        self.record(at, code, numbers, None)
    }

    /// A record at the bit `at` by the abbreviation that has the id.
    fn abbreviated(&mut self, at: u128, id: u64) -> Result<Option<Item<'b>>, BitFault>
        requires { FIRST_APPLICATION_ABBREV ≤ id }
        ensures { EntryGives (context self.new) (here self.new.cursor) result (abbreviated_at at id (context self.old) (here self.old.cursor)) }
    {
        let definition = match abbrev_of(
            self.scope,
            &self.block_info,
            self.abbrevs.as_slice(),
            id,
        ) {
            Some(definition) => definition,
            None => return Err(BitFault::UnknownAbbrev { at, id }),
        };
        let ops = definition.as_slice();
        if let Some(code) = code_before_blob(ops) {
            return self.blob_record(at, code);
        }
        if definition.is_sparse() {
            return match definition.share() {
                Ok(definition) => self.sparse(at, definition),
                Err(_) => Err(BitFault::NoMemory),
            };
        }
        let mut numbers = Vec::new(self.alloc);
        let blob = match self.cursor.values(ops, &mut numbers) {
            Ok(blob) => blob,
            Err(fault) => return Err(fault),
        };
        if numbers.is_empty() {
            return self.record(at, 0, numbers, blob);
        }
        let code = numbers.remove(0);
        self.record(at, code, numbers, blob)
    }

    /// A record at the bit `at` by an abbreviation that has its code and a blob.
    fn blob_record(&mut self, at: u128, code: u64) -> Result<Option<Item<'b>>, BitFault>
        ensures { EntryGives (context self.new) (here self.new.cursor) result (blob_record_at at code (context self.old) (here self.old.cursor)) }
    {
        let blob = match self.cursor.blob() {
            Ok(blob) => blob,
            Err(fault) => return Err(fault),
        };
        self.record(at, code, Vec::new(self.alloc), Some(blob))
    }

    /// A record at the bit `at` by a definition of which many numbers take no bits.
    fn sparse(&mut self, at: u128, definition: Definition) -> Result<Option<Item<'b>>, BitFault>
        requires { IsTrue (nat_lt MOST_COPIED (length definition - length (ops_in_bits definition))) }
        ensures { EntryGives (context self.new) (here self.new.cursor) result (by_abbrev at 0 (Some definition) (context self.old) (here self.old.cursor)) }
    {
        let mut in_bits = Vec::new(self.alloc);
        let blob = match self.cursor.values(definition.in_bits(), &mut in_bits) {
            Ok(blob) => blob,
            Err(fault) => return Err(fault),
        };
        if self.scope.block == BLOCKINFO_BLOCK_ID {
            return self.pass_over(at, definition.as_slice(), in_bits.as_slice());
        }
        match Unfilled::new(definition.as_slice(), in_bits.as_slice()).next() {
            Some(code) => Ok(Some(Item::Rec {
                code,
                ops: Operands::from_shared(definition, in_bits),
                blob,
            })),
            None => self.record(at, 0, Vec::new(self.alloc), blob),
        }
    }

    /// What a record at the bit `at` is in BLOCKINFO, where no more than its first two numbers count.
    fn pass_over(
        &mut self,
        at: u128,
        ops: &[AbbrevOp],
        in_bits: &[u64],
    ) -> Result<Option<Item<'b>>, BitFault>
        requires { (context self.old).scope.block ≡ BLOCKINFO_BLOCK_ID }
        ensures { (blob : Option (List ℕ)) → EntryGives (context self.new) (here self.new.cursor) result (judged_values at (filled ops.now in_bits.now) blob (context self.old) (here self.old.cursor)) }
    {
        let mut left = Unfilled::new(ops, in_bits);
        let code = match left.next() {
            Some(code) => code,
            None => return Ok(None),
        };
        if code != BLOCKINFO_CODE_SETBID {
            return Ok(None);
        }
        match left.next() {
            Some(block) => self.name_block(at, block),
            None => Err(BitFault::BadOperands { at }),
        }
    }

    /// The number of the block to which the definitions behind belong, from the record at the bit `at`.
    fn name_block(&mut self, at: u128, block: u64) -> Result<Option<Item<'b>>, BitFault>
        ensures { (more : List ℕ) → EntryGives (context self.new) (here self.new.cursor) result (named_by at (block ∷ more) (context self.old) (here self.old.cursor)) }
    {
        if block >= 4294967296 {
            return Err(BitFault::BadOperands { at });
        }
        self.named = Some(block as u32);
        Ok(None)
    }

    /// What a record at the bit `at` is: an item, or in BLOCKINFO the name of a block.
    fn record(
        &mut self,
        at: u128,
        code: u64,
        numbers: Vec<u64>,
        blob: Option<&'b [u8]>,
    ) -> Result<Option<Item<'b>>, BitFault>
        ensures { EntryGives (context self.new) (here self.new.cursor) result (judged at code numbers.items (slice_seen blob.entry) (context self.old) (here self.old.cursor)) }
    {
        if self.scope.block != BLOCKINFO_BLOCK_ID {
            return Ok(Some(Item::Rec {
                code,
                ops: Operands::from_vec(numbers),
                blob,
            }));
        }
        if code != BLOCKINFO_CODE_SETBID {
            return Ok(None);
        }
        if numbers.is_empty() {
            return Err(BitFault::BadOperands { at });
        }
        let block = numbers[0];
        if block >= 4294967296 {
            return Err(BitFault::BadOperands { at });
        }
        self.named = Some(block as u32);
        Ok(None)
    }
}
