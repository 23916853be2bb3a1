//! A controller that solve found.

use synthesis::solved::Found;

/// A stored controller: its count, the number of its states, which lie in the workspace, and the current one.
#[derive(Clone, Copy)]
pub struct Stored {
    pub found: Found,
    pub current: usize,
}

// What is told: `Found` is what is stored, and has no command.
/// What solve finds: the count, the number of states and the command at the start.
#[derive(Clone, Copy, Debug, PartialEq, Eq)]
pub struct Solution {
    pub count: u8,
    pub states: usize,
    pub command: u8,
}
