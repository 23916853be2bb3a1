//! The controller, state by state.

ghost use Rattle.std.specs.Prelude.{◌≡◌, ℕ, ◌+◌, ◌*◌, ◌<◌, ◌≤◌, true, [], length, Some, None, slice_index_or, unwrap_or};
ghost use Rattle.model.specs.Positions.{command_at, safe_part};
ghost use Rattle.synthesis.specs.Tables.{automaton};
ghost use Rattle.synthesis.specs.Safety.{flag};
ghost use Rattle.synthesis.specs.Surveys.{shown};
ghost use Rattle.synthesis.specs.Control.{Controlled};
ghost use Rattle.synthesis.specs.Answers.{StandsAt, row_of, position_of};

use crate::state::State;
use crate::survey::Survey;
use std::array;

/// The next states of a row of links, 0 where there is none.
fn next_states(row: &[Option<u16>; 8]) -> [u16; 8]
    ensures { (x : ℕ) → x < 8 → slice_index_or result x 0 ≡ unwrap_or (slice_index_or row.now x None) 0 }
{
    array::from_fn(|situation| row[situation].unwrap_or(0))
}

impl Survey<'_> {
    /// The lowest command that stays in the safe set, at a safe place.
    fn command_at(&self, place: usize) -> u8
        requires { flag self.now.safe.now place ≡ true }
        ensures { result ≡ command_at (automaton self.now.arrows.now) (safe_part (automaton self.now.arrows.now) (shown (automaton self.now.arrows.now) (length self.now.met.now) self.now.met.now)) (slice_index_or (shown (automaton self.now.arrows.now) (length self.now.met.now) self.now.met.now) place []) }
    {
        match self.chosen().lowest_command(place) {
            Some(command) => command,
            None => unreachable(),
        }
    }

    /// Writes the states of the controller that the survey and the table of next states make.
    pub fn store(
        &self,
        places: &[u16],
        nexts: &[[Option<u16>; 8]],
        count: usize,
        states: &mut [State],
    )
        requires controlled { Controlled (automaton self.now.arrows.now) self.now.met.now (length self.now.met.now) self.now.safe.now count places.now nexts.now }
        requires room { (length self.now.met.now ≤ length places.now) × ((length self.now.met.now ≤ length nexts.now) × (length self.now.met.now ≤ length states.old)) }
        ensures { (s : ℕ) (d : State) → s < count → StandsAt (automaton self.now.arrows.now) (length self.now.met.now) self.now.met.now places.now nexts.now s (slice_index_or states.new s d) }
    {
        // By index: an iterator that writes the states beside two others leaves nothing known of them.
        for state in 0..count {
            let place = places[state] as usize;
            states[state] = State {
                command: self.command_at(place),
                nexts: next_states(&nexts[state]),
                position: self.met[place],
            };
        }
    }
}
