//! Fields that are joined in a register before they are written.

ghost use Rattle.std.specs.Prelude.{◌≡◌, ◌≤◌, ◌+◌, ◌^◌, ◌<◌, ◌++◌, OnOk, IfOk};

use crate::NoMemory;
use crate::buffer::BitBuffer;

/// At most 64 bits: the number that they stand for, and how many there are.
#[derive(Clone, Copy)]
pub struct Packed {
    value: u64,
    width: u32,
    ghost room: { width ≤ 64 },
    ghost low: { value < 2 ^ width },
}

impl Packed {
    ghost use Rattle.bitstream.specs.Bits.{bits};
    ghost use Rattle.bitstream.specs.Buffer.{packed_bits};

    /// A number in `width` bits.
    pub fn new(value: u64, width: u32) -> Packed
        requires width { width ≤ 64 }
        requires value { value < 2 ^ width }
        ensures { packed_bits result ≡ bits width value }
    {
        Packed { value, width }
    }

    /// The bits with a number in `width` bits behind them.
    fn with(self, value: u64, width: u32) -> Packed
        requires some { 0 < width }
        requires room { self.width + width ≤ 64 }
        requires value { value < 2 ^ width }
        ensures { packed_bits result ≡ packed_bits self ++ bits width value }
    {
        Packed {
            value: value << self.width | self.value,
            width: self.width + width,
        }
    }
}

impl BitBuffer {
    ghost use Rattle.std.specs.List.{flat_map};
    ghost use Rattle.bitstream.specs.Bits.{bits};
    ghost use Rattle.bitstream.specs.Buffer.{bits_in, packed_bits};
    ghost use Rattle.bitstream.specs.Writing.{vbr_bits, Grows};

    /// Writes the bits.
    pub fn push_packed(&mut self, packed: Packed) -> Result<(), NoMemory>
        ensures ok { OnOk result (bits_in self.new ≡ bits_in self.old ++ packed_bits packed) }
        ensures kept { Grows self.old.bytes.items self.new.bytes.items }
    {
        self.push_bits(packed.value, packed.width)
    }

    /// Puts a number in `width` bits behind others, which are written first where it has no room beside
    /// them.
    #[inline(always)]
    fn pack(&mut self, packed: Packed, value: u64, width: u32) -> Result<Packed, NoMemory>
        requires some { 0 < width }
        requires width { width ≤ 64 }
        requires value { value < 2 ^ width }
        ensures ok { IfOk result (λ joined. bits_in self.new ++ packed_bits joined ≡ bits_in self.old ++ packed_bits packed ++ bits width value) }
        ensures kept { Grows self.old.bytes.items self.new.bytes.items }
    {
        if packed.width + width <= 64 {
            return Ok(packed.with(value, width));
        }
        self.push_packed(packed)?;
        Ok(Packed::new(value, width))
    }

    /// Puts a number in groups of `width` bits behind other bits.
    #[inline(always)]
    pub fn pack_vbr(&mut self, first: Packed, value: u64, width: u32) -> Result<Packed, NoMemory>
        requires low { 2 ≤ width }
        requires high { width ≤ 32 }
        ensures ok { IfOk result (λ joined. bits_in self.new ++ packed_bits joined ≡ bits_in self.old ++ packed_bits first ++ vbr_bits width value) }
        ensures kept { Grows self.old.bytes.items self.new.bytes.items }
    {
        let low = width - 1;
        let top = 1u64 << low;
        let mut packed = first;
        let mut rest = value;
        'each: while rest >= top {
            packed = self.pack(packed, top + rest % top, width)?;
            rest >>= low;
        }
        let packed = self.pack(packed, rest, width)?;
        Ok(packed)
    }

    /// Puts numbers in groups of `width` bits behind other bits.
    pub fn pack_vbrs(
        &mut self,
        first: Packed,
        numbers: &[u64],
        width: u32,
    ) -> Result<Packed, NoMemory>
        requires low { 2 ≤ width }
        requires high { width ≤ 32 }
        ensures ok { IfOk result (λ joined. bits_in self.new ++ packed_bits joined ≡ bits_in self.old ++ packed_bits first ++ flat_map (vbr_bits width) numbers.now) }
        ensures kept { Grows self.old.bytes.items self.new.bytes.items }
    {
        let mut packed = first;
        for &number in numbers {
            packed = self.pack_vbr(packed, number, width)?;
        }
        Ok(packed)
    }

    /// Writes a number in groups of `width` bits.
    pub fn push_vbr(&mut self, value: u64, width: u32) -> Result<(), NoMemory>
        requires low { 2 ≤ width }
        requires high { width ≤ 32 }
        ensures ok { OnOk result (bits_in self.new ≡ bits_in self.old ++ vbr_bits width value) }
        ensures kept { Grows self.old.bytes.items self.new.bytes.items }
    {
        let none = Packed::new(0, 0);
        let packed = self.pack_vbr(none, value, width)?;
        self.push_packed(packed)?;
        Ok(())
    }
}
