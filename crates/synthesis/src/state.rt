//! The states of a controller as they are stored.

use crate::position::Position;

/// A state of a controller: its command, the next state for each situation, and its position. Behind the last situation the next
/// states mean nothing.
#[derive(Clone, Copy)]
pub struct State {
    pub command: u8,
    pub nexts: [u16; 8],
    pub position: Position,
}
