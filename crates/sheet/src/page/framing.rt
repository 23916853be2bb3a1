//! Frame: the stored controller one state on.

ghost use Rattle.std.specs.Prelude.{◌≡◌, ℕ, ◌<◌, ◌≤◌, map, slice_index, slice_index_or};
ghost use Rattle.model.specs.Automaton.{no_row};
ghost use Rattle.model.specs.Sheet.{frame as frame_call};
ghost use Rattle.synthesis.specs.Answers.{row_of};
ghost use Rattle.sheet.specs.Shows.{Does, commanded};

use crate::page::Page;
use crate::stored::Stored;
use model::refusal::Refusal;
use rules::Rule;
use synthesis::state::State;

/// The command of a state; 0 if there is no such state.
// No `Option`: the definition says 0 of a state that is not there.
pub fn command_at(states: &[State], state: usize) -> u8
    ensures { (S : ℕ) → result ≡ (slice_index_or (map (row_of S) states.now) state no_row).command }
{
    states.get(state).map_or(0, |state| state.command)
}

/// The next state of a state in a situation; 0 if there is no such state.
// No `Option`, as above.
fn next_at(states: &[State], state: usize, situation: u8) -> usize
    requires { situation < 8 }
    ensures { (S : ℕ) → situation < S → result ≡ slice_index (slice_index_or (map (row_of S) states.now) state no_row).nexts situation }
{
    states
        .get(state)
        .map_or(0, |state| state.nexts[situation as usize] as usize)
}

impl Page {
    /// Moves the controller to the next state in the situation, and gives that state's command.
    pub fn frame(&mut self, situation: u8) -> Result<u8, Refusal>
        ensures { Does self.old (frame_call situation) (commanded result) self.new }
    {
        let Some(stored) = self.stored else {
            return Err(Refusal::NoController);
        };
        if situation >= self.table.situations() {
            return Err(Refusal::NoSituation);
        }
        let len = stored.found.states;
        let states = &self.workspace.states.as_slice()[0..len];
        let current = next_at(states, stored.current, situation);
        let command = command_at(states, current);
        self.stored = Some(Stored {
            found: stored.found,
            current,
        });
        Ok(command)
    }
}
