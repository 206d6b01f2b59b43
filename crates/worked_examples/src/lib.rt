//! Worked examples of whole builds over the tree in memory: what is printed, and what is left.
#![tactic(auto)]

#[cfg(test)]
mod project;
#[cfg(test)]
mod tests;
