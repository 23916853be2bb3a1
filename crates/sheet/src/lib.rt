//! The sheet: rules are added and withdrawn, a controller is solved for them, stepped frame by frame, written to a file, and files are checked.

#![tactic(auto)]

pub mod memory;
pub mod names;
pub mod page;
pub mod replay;
pub mod request;
pub mod sheet;
pub mod stored;
