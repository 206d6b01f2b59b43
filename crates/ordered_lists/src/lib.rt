//! Facts of lists in order, for every layer: elements that stand more than once, lists that ascend, texts
//! among others, and maps behind lists.
#![tactic(auto)]

mod ascending;
mod repeats;

pub use ascending::ascends;
pub use repeats::least_repeat;

#[cfg(test)]
mod tests;
