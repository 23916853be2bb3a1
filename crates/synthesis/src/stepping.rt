//! The position at the start, and one step on.

ghost use Rattle.std.specs.Prelude.{◌≡◌, ℕ, ◌<◌, ◌≤◌, nat_le, nat_lt, slice_index, if◌then◌else◌};
ghost use Rattle.std.specs.List.{list_all};
ghost use Rattle.model.specs.Automaton.{weight as weight_of};
ghost use Rattle.model.specs.Positions.{largest, first_mark, start_position, handed as mark_handed, fits as position_fits};
ghost use Rattle.synthesis.specs.Tables.{automaton, view, stored, stepped, mark_before};

use crate::arrows::Arrows;
use crate::position::Position;
use std::array;

/// The mark, if it is passed on.
fn passed_on(follows: bool, mark: u8) -> u8
    ensures { result ≡ (if follows then mark else 0) }
{
    if follows { mark } else { 0 }
}

impl Arrows {
    /// What a state adds to a tally: 1 if it is rejecting, else 0.
    fn weight(&self, state: usize) -> u8
        requires { state < self.now.states }
        ensures value { result ≡ weight_of (automaton self.now) state }
        ensures bound { result ≤ 1 }
    {
        if self.flags[state].rejects { 1 } else { 0 }
    }

    /// The mark of a state at the start, 0 behind the last state.
    fn first_mark(&self, state: usize) -> u8
        ensures { result ≡ (if nat_lt state self.now.states then first_mark (automaton self.now) state else 0) }
    {
        if state < self.states as usize && self.flags[state].starts {
            1 + self.weight(state)
        } else {
            0
        }
    }

    /// The marks at the start.
    fn first_marks(&self) -> [u8; 16]
        ensures { (q : ℕ) → q < 16 → slice_index result q ≡ (if nat_lt q self.now.states then first_mark (automaton self.now) q else 0) }
    {
        array::from_fn(|state| self.first_mark(state))
    }

    /// The position at the start.
    pub fn start(&self) -> Position
        ensures { result ≡ stored (start_position (automaton self.now)) }
    {
        Position {
            marks: self.first_marks(),
        }
    }

    /// The largest mark of the states that a state follows.
    fn largest_before(&self, command: u8, situation: u8, position: &Position, follower: usize) -> u8
        requires known_command { command < self.now.numbers.commands }
        requires known_situation { situation < self.now.numbers.situations }
        requires known_follower { follower < self.now.states }
        ensures { result ≡ largest (mark_before (automaton self.now) command situation (view self.now.states position.now) follower) self.now.states }
    {
        let sources = &self.replies[command as usize].moves[situation as usize].into[follower];
        let states = self.states as usize;
        let mut most = 0;
        // Over all sixteen and with no branch, so that they are compared at once; by zip and fold (tried) the proof did not close.
        for state in 0..16usize {
            let follows = (state < states) & sources.states[state];
            most = passed_on(follows, position.marks[state]).max(most);
        }
        most
    }

    /// The largest mark that a state is handed by those that it follows.
    fn handed(&self, command: u8, situation: u8, position: &Position, follower: usize) -> u16
        requires known_command { command < self.now.numbers.commands }
        requires known_situation { situation < self.now.numbers.situations }
        requires known_follower { follower < self.now.states }
        ensures { result ≡ largest (mark_handed (automaton self.now) command situation (view self.now.states position.now) follower) self.now.states }
    {
        let most = self.largest_before(command, situation, position, follower);
        if most > 0 {
            most as u16 + self.weight(follower) as u16
        } else {
            0
        }
    }

    // A command and a situation have a bound each, asked where they come in.
    /// One step under a command in a situation. None, if a tally passes c.
    pub fn step(&self, c: u8, command: u8, situation: u8, position: &Position) -> Option<Position>
        requires known_command { command < self.now.numbers.commands }
        requires known_situation { situation < self.now.numbers.situations }
        requires low { c < 255 }
        ensures { result ≡ stepped (automaton self.now) c command situation (view self.now.states position.now) }
    {
        let mut marks = [0; 16];
        // By index: the step ends at the first mark over c, before the others are made.
        for follower in 0..self.states as usize {
            let mark = self.handed(command, situation, position, follower);
            if mark > c as u16 + 1 {
                return None;
            }
            marks[follower] = mark as u8;
        }
        Some(Position { marks })
    }
}

/// Whether no mark is over the highest.
fn all_within(marks: &[u8], highest: u8) -> bool
    ensures { result ≡ list_all (λ mark. nat_le mark highest) marks.now }
{
    marks.iter().all(|mark| *mark <= highest)
}

/// Whether no tally of the first `states` marks passes c.
pub fn fits(states: u8, c: u8, position: &Position) -> bool
    requires few { states ≤ 16 }
    requires low { c < 255 }
    ensures { result ≡ position_fits c (view states position.now) }
{
    all_within(&position.marks[..states as usize], c + 1)
}
