//! Laws of numbers in bits and of what bytes stand for. Each function's contract is the law; it does
//! nothing when it runs.

ghost use Rattle.std.specs.Prelude.{◌≡◌, ◌≤◌, ◌*◌, ◌+◌, ◌^◌, ◌<◌, ℕ, Bool, List, Ok, Some, None, length};
ghost use Rattle.bitstream.specs.declared.item.BitFault.{BitFault};
ghost use Rattle.bitstream.specs.Bits.{bits};
ghost use Rattle.bitstream.specs.Fields.{Input, fixed_at, vbr_at, IsReadBack, Stands};
ghost use Rattle.bitstream.specs.Spelling.{IsVbr};
ghost use Rattle.bitstream.specs.Writing.{vbr_bits};
ghost use Rattle.bitstream.specs.Reading.{Seen};
ghost use Rattle.bitstream.specs.Items.{items_in};
ghost use Rattle.bitstream.specs.Stands.{StandFor};
ghost use Rattle.bitstream.specs.Fronts.{OfFurthestFront, FirstFault};

/// What a writer's `fixed` wrote is what a reader's `fixed` reads, whatever follows.
pub fn fixed_is_read_back()
    ensures { (w n : ℕ) → n < 2 ^ w → IsReadBack (fixed_at w) n (bits w n) }
{}

/// What a writer's `vbr` wrote is what a reader's `vbr` reads, whatever follows.
pub fn vbr_is_read_back()
    ensures { (w n : ℕ) → 2 ≤ w → n < 2 ^ 64 → IsReadBack (vbr_at w) n (vbr_bits w n) }
{}

/// A reader's `vbr` reads a number exactly where groups stand that spell it.
pub fn vbr_is_read_where_it_stands()
    ensures read { (w n : ℕ) (front : List Bool) → 0 < w → IsVbr w n front → IsReadBack (vbr_at w) n front }
    ensures stands { (w n : ℕ) (p behind : Input) → 0 < w → vbr_at w p ≡ Ok (n, behind) → Stands (IsVbr w) p n behind }
{}

/// Where a reader of bytes comes to their end, the bytes stand for the items that it gave.
pub fn what_is_read_is_written()
    ensures { (bytes : List ℕ) (items : List (ℕ × Seen)) → items_in bytes ≡ (items, None) → StandFor bytes items }
{}

/// Where bytes stand for items, a reader gives these and comes to the end, with no fault.
pub fn what_is_written_is_read()
    ensures { (bytes : List ℕ) (items : List (ℕ × Seen)) → StandFor bytes items → items_in bytes ≡ (items, None) }
{}

/// Bytes stand for one list of items at most.
pub fn bytes_stand_for_one_list()
    ensures { (bytes : List ℕ) (items others : List (ℕ × Seen)) → StandFor bytes items → StandFor bytes others → items ≡ others }
{}

/// What a reader gives are the items of the furthest front of the bytes, and of no other list.
pub fn items_are_of_the_furthest_front()
    ensures given { (bytes : List ℕ) → (stop : ℕ) × OfFurthestFront bytes (items_in bytes).0 stop }
    ensures one { (bytes : List ℕ) (items others : List (ℕ × Seen)) (stop end : ℕ) → OfFurthestFront bytes items stop → OfFurthestFront bytes others end → (items ≡ others) × (stop ≡ end) }
{}

/// The first fault is told where the furthest front ends. No front goes further there, whatever
/// follows the bytes, but where a field isn't whole, or a block that is entered has not all its words.
pub fn no_front_goes_on_at_the_first_fault()
    ensures { (bytes : List ℕ) (items : List (ℕ × Seen)) (fault : BitFault) → items_in bytes ≡ (items, Some fault) → FirstFault bytes items fault }
{}
