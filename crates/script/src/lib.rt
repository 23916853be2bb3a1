//! The script language of the program: its lines, words and commands, and the rules that a script can write.

#![tactic(auto)]

pub mod bad_line;
pub mod bytes;
pub mod lines;
pub mod parse;
mod places;
pub mod rule;
pub mod words;
