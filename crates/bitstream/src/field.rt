//! Numbers in bytes, from a bit on: of a fixed width, and in groups.

ghost use Rattle.std.specs.Prelude.{◌≡◌, ◌≤◌, ◌*◌, ◌+◌, ◌/◌, ◌%◌, ◌^◌, ◌<◌, length, Ok, OnOk, IfOk, IfSome, IfNone, OnSome};
ghost use Rattle.bitstream.specs.Bits.{value, bits_of};
ghost use Rattle.bitstream.specs.Fields.{fixed_at, vbr_at, input_at, Gives, GivesWith};

use crate::BitFault;

/// The bytes as one number, the first the lowest.
fn word(bytes: &[u8]) -> u128
    requires { length bytes.now ≤ 16 }
    ensures { result ≡ value (bits_of bytes.now) }
{
    let mut sum = 0u128;
    let mut i = bytes.len();
    while i > 0 {
        i -= 1;
        sum = (sum << 8) | bytes[i] as u128;
    }
    sum
}

/// The number in `width` bits of eight bytes, behind the first `skip` bits.
#[inline(always)]
fn bits_in(eight: &[u8; 8], skip: u32, width: u32) -> u64
    requires skip { skip + width < 64 }
    requires width { width ≤ 56 }
    ensures { result ≡ value (bits_of eight.now) / 2 ^ skip % 2 ^ width }
{
    (u64::from_le_bytes(*eight) >> skip) & ((1u64 << width) - 1)
}

/// The number in `width` bits from the bit `at` on.
#[inline(always)]
pub fn fixed_field(bytes: &[u8], at: u128, width: u32) -> Result<u64, BitFault>
    requires width { width ≤ 64 }
    requires at { at ≤ 8 * length bytes.now }
    ensures read { Gives (input_at bytes.now (at + width)) result (fixed_at width (input_at bytes.now at)) }
    ensures end { OnOk result (at + width ≤ 8 * length bytes.now) }
    ensures value { IfOk result (λ v. v < 2 ^ width) }
{
    let (_, rest) = bytes.split_at((at / 8) as usize);
    if width <= 56 {
        if let Some(eight) = rest.first_chunk::<8>() {
            return Ok(bits_in(eight, (at % 8) as u32, width));
        }
    }
    any_field(bytes, at, width)
}

/// What stands before the operands of a record without an abbreviation.
#[derive(Clone, Copy)]
pub struct Head {
    pub id: u64,
    pub code: u64,
    pub count: u64,
}

/// An id of `width` bits from the bit `at` on, and a code and a count of one group each, where there
/// are eight bytes from there on.
#[inline(always)]
pub fn near_head(bytes: &[u8], at: u128, width: u32) -> Option<Head>
    requires width { width ≤ 32 }
    requires at { at ≤ 8 * length bytes.now }
    ensures id { IfSome result (λ head. fixed_at width (input_at bytes.now at) ≡ Ok (head.id, input_at bytes.now (at + width))) }
    ensures code { IfSome result (λ head. vbr_at 6 (input_at bytes.now (at + width)) ≡ Ok (head.code, input_at bytes.now (at + (width + 6)))) }
    ensures count { IfSome result (λ head. vbr_at 6 (input_at bytes.now (at + (width + 6))) ≡ Ok (head.count, input_at bytes.now (at + (width + 12)))) }
    ensures end { OnSome result (at + (width + 12) ≤ 8 * length bytes.now) }
{
    let (_, rest) = bytes.split_at((at / 8) as usize);
    let eight = match rest.first_chunk::<8>() {
        Some(eight) => eight,
        None => return None,
    };
    let skip = (at % 8) as u32;
    let id = bits_in(eight, skip, width);
    let code = bits_in(eight, skip + width, 6);
    let count = bits_in(eight, skip + (width + 6), 6);
    // The top bit of a group says that another one follows.
    if code >= 32 || count >= 32 {
        return None;
    }
    Some(Head { id, code, count })
}

/// The number in `width` bits from the bit `at` on, byte by byte.
#[cold]
#[inline(never)]
fn any_field(bytes: &[u8], at: u128, width: u32) -> Result<u64, BitFault>
    requires width { width ≤ 64 }
    requires at { at ≤ 8 * length bytes.now }
    ensures read { Gives (input_at bytes.now (at + width)) result (fixed_at width (input_at bytes.now at)) }
    ensures end { OnOk result (at + width ≤ 8 * length bytes.now) }
    ensures value { IfOk result (λ v. v < 2 ^ width) }
{
    let (_, rest) = bytes.split_at((at / 8) as usize);
    let skip = (at % 8) as u32;
    let need = ((skip + width + 7) / 8) as usize;
    if rest.len() < need {
        return Err(BitFault::Short { at });
    }
    let (front, _) = rest.split_at(need);
    Ok(((word(front) >> skip) & ((1u128 << width) - 1)) as u64)
}

/// The sum with a digit more, unless it doesn't fit.
fn with_digit(sum: u64, digit: u64, shift: u128) -> Option<u64>
    requires { sum < 2 ^ shift }
    ensures some { IfSome result (λ more. more ≡ sum + 2 ^ shift * digit) }
    ensures fits { IfSome result (λ more. more < 2 ^ 64) }
    ensures none { IfNone result (2 ^ 64 ≤ sum + 2 ^ shift * digit) }
{
    if digit == 0 {
        return Some(sum);
    }
    if shift >= 64 {
        return None;
    }
    let shift = shift as u32;
    if digit > u64::MAX >> shift {
        return None;
    }
    Some(sum + (digit << shift))
}

/// The number in groups of `width` bits from the bit `at` on, and the bit behind it, where the eight
/// bytes from there on have all its groups.
#[inline(always)]
pub fn near_field(bytes: &[u8], at: u128, width: u32) -> Option<(u64, u128)>
    requires some { 0 < width }
    requires width { width ≤ 32 }
    requires at { at ≤ 8 * length bytes.now }
    ensures read { IfSome result (λ x. vbr_at width (input_at bytes.now at) ≡ Ok (x.0, input_at bytes.now x.1)) }
    ensures end { IfSome result (λ x. x.1 ≤ 8 * length bytes.now) }
{
    let (_, rest) = bytes.split_at((at / 8) as usize);
    let eight = match rest.first_chunk::<8>() {
        Some(eight) => eight,
        None => return None,
    };
    let skip = (at % 8) as u32;
    let low = width - 1;
    let more = 1u64 << low;
    let mut sum = 0u64;
    let mut shift = 0u32;
    let mut over = 0u32;
    'each: while over + width <= 56 {
        let group = bits_in(eight, skip + over, width);
        let digit = group & (more - 1);
        sum += digit << shift;
        over += width;
        if group < more {
            return Some((sum, at + over as u128));
        }
        shift += low;
    }
    None
}

/// The number in groups of `width` bits from the bit `at` on, and the bit behind it.
#[inline(always)]
#[tactic(auto, unfolding(crate::specs::Fields::vbr_at))]
pub fn vbr_field(bytes: &[u8], at: u128, width: u32) -> Result<(u64, u128), BitFault>
    requires width { width ≤ 32 }
    requires at { at ≤ 8 * length bytes.now }
    ensures read { GivesWith bytes.now result (vbr_at width (input_at bytes.now at)) }
    ensures end { IfOk result (λ x. x.1 ≤ 8 * length bytes.now) }
{
    if width == 0 {
        return Ok((0, at));
    }
    if let Some(found) = near_field(bytes, at, width) {
        return Ok(found);
    }
    groups_field(bytes, at, width)
}

/// The number in groups of `width` bits from the bit `at` on, and the bit behind it, group by group.
#[inline(never)]
#[tactic(auto, unfolding(crate::specs::Fields::vbr_at))]
fn groups_field(bytes: &[u8], at: u128, width: u32) -> Result<(u64, u128), BitFault>
    requires some { 0 < width }
    requires width { width ≤ 32 }
    requires at { at ≤ 8 * length bytes.now }
    ensures read { GivesWith bytes.now result (vbr_at width (input_at bytes.now at)) }
    ensures end { IfOk result (λ x. x.1 ≤ 8 * length bytes.now) }
{
    let low = width - 1;
    let top = 1u64 << low;
    let mut sum = 0u64;
    let mut shift = 0u128;
    let mut here = at;
    'each: loop {
        let group = match fixed_field(bytes, here, width) {
            Ok(group) => group,
            Err(fault) => return Err(fault),
        };
        here += width as u128;
        let digit = group & (top - 1);
        match with_digit(sum, digit, shift) {
            Some(more) => sum = more,
            None => return Err(BitFault::WideNumber { at }),
        }
        if group < top {
            return Ok((sum, here));
        }
        shift += low as u128;
    }
}
