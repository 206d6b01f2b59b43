//! Keys by the numbers of their identifiers.

ghost use Rattle.bitstream.specs.Stream.{slice_seen};
ghost use Rattle.dep_key.specs.KeyOrder.{kind_at, aspect_at};
ghost use Rattle.swiftdeps.specs.declared.fault.DepsFault.TheVariants.{KindNumber};
ghost use Rattle.swiftdeps.specs.Judging.{Gives, or_fault, key_of, key_in};

use crate::fault::{DepsFault, Stop};
use crate::identifiers::Identifiers;
use dep_key::{Aspect, Key, Kind};

#[inline(always)]
fn kind_of(at: u128, number: u64) -> Result<Kind, Stop>
    ensures { Gives result (or_fault (KindNumber at number) (kind_at number)) }
{
    match Kind::from_number(number) {
        Some(kind) => Ok(kind),
        None => Err(Stop::Fault(DepsFault::KindNumber { at, value: number })),
    }
}

#[inline(always)]
fn aspect_of(at: u128, number: u64) -> Result<Aspect, Stop>
    ensures { Gives result (or_fault (KindNumber at number) (aspect_at number)) }
{
    match Aspect::from_number(number) {
        Some(aspect) => Ok(aspect),
        None => Err(Stop::Fault(DepsFault::KindNumber { at, value: number })),
    }
}

/// The key of a kind, an aspect, and the numbers of its context and its name.
#[inline(always)]
#[tactic(auto, unfolding(crate::specs::Judging::key_of))]
fn key_of(
    identifiers: &Identifiers,
    at: u128,
    kind: u64,
    aspect: u64,
    context: u64,
    name: u64,
) -> Result<Key, Stop>
    ensures { Gives result (key_of identifiers.now at kind aspect context name) }
{
    let kind = kind_of(at, kind)?;
    let aspect = aspect_of(at, aspect)?;
    let context = identifiers.text(at, context)?;
    let name = identifiers.text(at, name)?;
    let key = Key {
        kind,
        aspect,
        context,
        name,
    };
    if !key.has_shape() {
        return Err(Stop::Fault(DepsFault::KeyShape { at }));
    }
    Ok(key)
}

/// The key of the operands of a record without a blob.
#[inline(always)]
#[tactic(auto, unfolding(crate::specs::Judging::key_in))]
pub fn key_in(
    identifiers: &Identifiers,
    at: u128,
    ops: &[u64],
    blob: Option<&[u8]>,
) -> Result<Key, Stop>
    ensures { Gives result (key_in identifiers.now at ops.now (slice_seen blob.entry)) }
{
    if blob.is_some() || ops.len() != 4 {
        return Err(Stop::Fault(DepsFault::RecordOrder { at }));
    }
    let key = key_of(identifiers, at, ops[0], ops[1], ops[2], ops[3])?;
    Ok(key)
}
