//! What a reader must believe: the definitions in specs/, the faults and refusals that the code gives, and the laws of the definitions.

#![tactic(auto)]

pub mod fault;
pub mod laws;
pub mod number;
pub mod refusal;
