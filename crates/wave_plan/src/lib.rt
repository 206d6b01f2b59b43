//! The first wave of an incremental build: from what a build folder held and what is asked, whether the
//! priors are valid, which files are compiled first and why, and which sources were removed.
#![tactic(auto)]

mod found;
mod graphs;
mod judging;
mod laws;
mod named;
mod plan;
mod planning;
mod reasons;

pub use dep_key::{FileNo, Key, NoMemory};
pub use laws::judgement_is_one;
pub use plan::{Asked, FirstFile, Plan, PriorsWhy, Seen, Why};
pub use planning::first_wave;
