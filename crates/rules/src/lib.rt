//! Rules as values that answer questions: the built-in rules free and reply, the pair of any two rules, and lists of a rule's states.

#![tactic(auto)]

pub mod builtin;
pub mod lists;
pub mod numbers;
pub mod pair;
pub mod rule;

pub use builtin::{Free, Reply};
pub use numbers::Numbers;
pub use pair::Pair;
pub use rule::Rule;
