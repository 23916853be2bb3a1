//! Finds, for rules side by side, a controller of the least count: positions and their steps, the positions within a bound, the
//! largest safe set among them, the lowest commands that stay in it, and the controller's states in the order of meeting.

#![tactic(auto)]

pub mod arrows;
pub mod gathering;
pub mod graphs;
pub mod numbering;
pub mod position;
pub mod pruning;
pub mod solved;
pub mod solving;
pub mod state;
pub mod stepping;
pub mod storing;
pub mod survey;
pub mod surveying;
pub mod table;
#[cfg(test)]
mod tests;
pub mod workspace;
