//! Answers on demand: asks what keys mean in any set of rules, and keeps each answer.
//!
//! A language says how the task of a key is read (`Tasks`); `answer` brings a key's answer, with
//! those that it needs, into a memo. Requests that wait stand on a stack of their own, so that no
//! call goes deep, and marks on all keys that were asked show a circle.
#![tactic(auto)]

mod answering;
mod keys;
mod marks;
mod request;
mod tasks;

pub use answering::answer;
pub use keys::QueryKey;
pub use tasks::{Memo, Reading, Tasks};
