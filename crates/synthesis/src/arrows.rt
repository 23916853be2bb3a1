//! Rules side by side as a table.

ghost use Rattle.std.specs.Prelude.{◌≤◌};

use crate::pruning::Numbers;

/// Whether a state starts, and whether it is rejecting.
#[derive(Clone, Copy)]
pub struct Flags {
    pub starts: bool,
    pub rejects: bool,
}

// A struct for each row: a literal of a struct with an array of arrays in it gets no proof.

/// Which states a state follows.
#[derive(Clone, Copy)]
pub struct Sources {
    pub states: [bool; 16],
}

/// For each state, what it follows, under one command in one situation.
#[derive(Clone, Copy)]
pub struct Moves {
    pub into: [Sources; 16],
}

/// For each situation its moves, under one command.
#[derive(Clone, Copy)]
pub struct Replies {
    pub moves: [Moves; 8],
}

/// Rules side by side, as a table of which state follows which. The states count on from the first rule.
#[derive(Clone, Copy)]
pub struct Arrows {
    pub numbers: Numbers,
    pub states: u8,
    pub flags: [Flags; 16],
    /// By command.
    pub replies: [Replies; 8],
    ghost few_states: { states ≤ 16 },
}
