//! Reads a rule from its text, or says what is wrong with the text and where.

#![tactic(auto)]

pub mod line;
pub mod name;
pub mod range;
pub mod reach;
pub mod read;
pub mod rule;
pub mod so_far;
pub mod table;
pub mod token;

pub use rule::ReadRule;
