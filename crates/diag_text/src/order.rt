//! The order in which errors are printed.

ghost use Rattle.std.specs.Prelude.{◌≡◌, IfOk};
ghost use Rattle.std.proofs.Common.{rules};
ghost use Rattle.std.specs.Cmp.{partial_equiv_from_equiv, eq_by_cmp_equiv, partial_order_from_total};
ghost use Rattle.std.specs.Cmp.Rules.{comparing};
ghost use Rattle.std.specs.List.Sorted.{IsStrictlySortedBy};
ghost use Rattle.std.specs.Ordering.{as_partial_cmp, eq_by_cmp};
ghost use Rattle.diag_text.specs.Order.{diag_order, diag_order_total, number_at, in_order, printed_lines};

use crate::{Diag, lines};
use dep_key::{NoMemory, Text};
use std::alloc::Global;
use std::cmp::Ordering;
use std::collections::BTreeSet;

/// A number of an error's place, which an error without a path has not.
fn number_at(diag: &Diag, number: u32) -> u32
    ensures { result ≡ number_at diag.now number }
{
    if diag.path.as_str().is_empty() {
        0
    } else {
        number
    }
}

impl PartialEq for Diag {
    ghost eq = { eq_by_cmp diag_order };

    ghost laws = { partial_equiv_from_equiv (eq_by_cmp_equiv diag_order_total) };

    fn eq(&self, other: &Diag) -> bool {
        self.cmp(other).is_eq()
    }
}

impl Eq for Diag {
    ghost laws = { eq_by_cmp_equiv diag_order_total };
}

/// By path, then by line, by column, and by text.
impl Ord for Diag {
    ghost cmp = { diag_order };

    ghost total = { diag_order_total };

    ghost matches_partial_cmp = { Prim.search (comparing, rules) };

    ghost matches_eq = { Prim.search (comparing, rules) };

    fn cmp(&self, other: &Diag) -> Ordering {
        let path = self.path.cmp(&other.path);
        if path.is_ne() {
            return path;
        }
        let line = number_at(self, self.line).cmp(&number_at(other, other.line));
        if line.is_ne() {
            return line;
        }
        let column = number_at(self, self.column).cmp(&number_at(other, other.column));
        if column.is_ne() {
            return column;
        }
        self.text.cmp(&other.text)
    }
}

impl PartialOrd for Diag {
    ghost partial_cmp = { as_partial_cmp diag_order };

    ghost laws = { partial_order_from_total diag_order_total };

    fn partial_cmp(&self, other: &Diag) -> Option<Ordering> {
        Some(self.cmp(other))
    }
}

/// The errors as a set.
fn entered(alloc: Global, diags: Vec<Diag>) -> Result<BTreeSet<Diag>, NoMemory>
    ensures { IfOk result (λ set. set.keys ≡ in_order diags.items) }
{
    let mut set = BTreeSet::new(alloc);
    for diag in diags {
        set.insert(diag)?;
    }
    Ok(set)
}

/// The errors of a set, in order.
fn listed(alloc: Global, set: BTreeSet<Diag>) -> Result<Vec<Diag>, NoMemory>
    ensures items { IfOk result (λ made. made.items ≡ set.keys) }
    ensures ascending { IfOk result (λ made. IsStrictlySortedBy diag_order made.items) }
{
    let mut made = Vec::new(alloc);
    for diag in set {
        made.push(diag)?;
    }
    Ok(made)
}

/// Errors in the order in which they are printed, by path, line, column and text, and equal ones once. Takes the time of
/// sorting them.
pub fn in_order(alloc: Global, diags: Vec<Diag>) -> Result<Vec<Diag>, NoMemory>
    ensures order { IfOk result (λ made. made.items ≡ in_order diags.items) }
    ensures ascending { IfOk result (λ made. IsStrictlySortedBy diag_order made.items) }
{
    let set = entered(alloc, diags)?;
    let made = listed(alloc, set)?;
    Ok(made)
}

/// The lines that are printed for the errors of a build, in their order and equal ones once.
pub fn printed_lines(alloc: Global, diags: Vec<Diag>) -> Result<Text, NoMemory>
    ensures { IfOk result (λ printed. printed ≡ printed_lines diags.items) }
{
    let ordered = in_order(alloc, diags)?;
    let printed = lines(alloc, ordered.as_slice())?;
    Ok(printed)
}
