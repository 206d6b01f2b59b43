ghost use Rattle.std.specs.Prelude.{IfOk};
ghost use Rattle.std.specs.List.Sorted.{IsPermutation, IsSorted};
ghost use Rattle.std.specs.Ordering.{nat_cmp};
ghost use Rattle.std.specs.Cmp.Lexicographic.{slice_cmp};

use drv_outside::{NoMemory, Text};
use std::alloc::Global;

// Texts in byte order. Where the first line of each is one word and a path, that is the order of their
// paths, since a line feed is below each byte of a path.
pub(crate) fn in_byte_order(alloc: Global, texts: &[Text]) -> Result<Vec<Text>, NoMemory>
    ensures moved { IfOk result (λ ordered. IsPermutation texts.now ordered.items) }
    ensures sorted { IfOk result (λ ordered. IsSorted (slice_cmp nat_cmp) ordered.items) }
{
    let mut ordered = Vec::new(alloc);
    for text in texts {
        ordered.push(Text::from_slice(alloc, text.as_slice())?)?;
    }
    ordered.sort()?;
    Ok(ordered)
}
