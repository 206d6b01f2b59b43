ghost use Rattle.std.specs.Prelude.{◌≡◌, ℕ, List, IfOk, option_copied};
ghost use Rattle.std.specs.BTreeSet as sets;
ghost use Rattle.std.specs.Ordering.{nat_cmp};
ghost use Rattle.std.specs.Cmp.Lexicographic.{slice_cmp};
ghost use Rattle.ordered_lists.specs.Among.{is_among};
ghost use Rattle.ordered_lists.specs.Repeats.{IsLeastRepeat};
ghost use Rattle.module_merge.specs.Image.{all_defined, undefined, lesser, IsLeastOf};
ghost use Rattle.module_merge.specs.Ends.{IsFirstMissing, IsFirstEnd};

use crate::MergeEnd;
use crate::symbols::{all_defined, all_used};
use drv_outside::{NoMemory, Text};
use ordered_lists::least_repeat;
use std::alloc::Global;
use std::collections::BTreeSet;

fn set_of(alloc: Global, symbols: &[Text]) -> Result<BTreeSet<Text>, NoMemory>
    ensures { IfOk result (λ set. (symbol : List ℕ) → sets.contains (slice_cmp nat_cmp) set symbol ≡ is_among symbols.now symbol) }
{
    let mut set = BTreeSet::new(alloc);
    for symbol in symbols {
        set.insert(symbol.clone()?)?;
    }
    Ok(set)
}

// The symbols that aren't defined.
fn undefined(alloc: Global, symbols: &[Text], defined: &[Text]) -> Result<Vec<Text>, NoMemory>
    ensures { IfOk result (λ left. left.items ≡ undefined defined.now symbols.now) }
{
    let known = set_of(alloc, defined)?;
    let mut left = Vec::new(alloc);
    for symbol in symbols {
        if !known.contains(symbol) {
            left.push(symbol.clone()?)?;
        }
    }
    Ok(left)
}

fn lesser<'a>(symbol: &'a Text, least: Option<&'a Text>) -> Option<&'a Text>
    ensures { option_copied result ≡ lesser symbol.now (option_copied least.entry) }
{
    match least {
        Some(least) if least <= symbol => Some(least),
        _ => Some(symbol),
    }
}

fn least_of(symbols: &[Text]) -> Option<&Text>
    ensures { IsLeastOf symbols.now (option_copied result) }
{
    let mut least = None;
    for symbol in symbols {
        least = lesser(symbol, least);
    }
    least
}

fn copy_of(alloc: Global, symbol: Option<&Text>) -> Result<Option<Text>, NoMemory>
    ensures { IfOk result (λ copy. copy ≡ option_copied symbol.entry) }
{
    match symbol {
        Some(symbol) => {
            let copy = Text::from_slice(alloc, symbol.as_slice())?;
            Ok(Some(copy))
        }
        None => Ok(None),
    }
}

// The least symbol that is used and not defined.
fn missing(alloc: Global, objects: &[Text]) -> Result<Option<Text>, NoMemory>
    ensures { IfOk result (λ symbol. IsFirstMissing objects.now symbol) }
{
    let defined = all_defined(alloc, objects)?;
    let used = all_used(alloc, objects)?;
    let left = undefined(alloc, &used, &defined)?;
    let symbol = copy_of(alloc, least_of(&left))?;
    Ok(symbol)
}

// The least symbol that is defined twice.
fn twice(alloc: Global, objects: &[Text]) -> Result<Option<Text>, NoMemory>
    ensures { IfOk result (λ symbol. IsLeastRepeat (slice_cmp nat_cmp) (all_defined objects.now) symbol) }
{
    let defined = all_defined(alloc, objects)?;
    let symbol = copy_of(alloc, least_repeat(alloc, &defined)?)?;
    Ok(symbol)
}

// What keeps objects from being linked: a symbol that is defined twice, and where there is none, one that
// is missing.
pub(crate) fn first_end(alloc: Global, objects: &[Text]) -> Result<Option<MergeEnd>, NoMemory>
    ensures { IfOk result (λ end. IsFirstEnd objects.now end) }
{
    let twice = twice(alloc, objects)?;
    match twice {
        Some(symbol) => Ok(Some(MergeEnd::Twice { symbol })),
        None => {
            let missing = missing(alloc, objects)?;
            match missing {
                Some(symbol) => Ok(Some(MergeEnd::Missing { symbol })),
                None => Ok(None),
            }
        }
    }
}
