//! Finds all nodes that a first node of a graph leads to, in the order of meeting, in memory that the caller lends.

#![tactic(auto)]

pub mod breadth_first;
pub mod graph;
pub mod queue;
pub mod rows;
#[cfg(test)]
mod tests;
