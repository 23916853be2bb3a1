//! The records of a file: every command and every next state is one.

ghost use Rattle.std.specs.Prelude.{◌≡◌, ◌<◌, nat_lt, length, slice_index, slice_index_or};
ghost use Rattle.model.specs.Automaton.{no_row};
ghost use Rattle.model.specs.Lists.{every};
ghost use Rattle.model.specs.File.{good_row};
ghost use Rattle.ctlfile.specs.Windows.{shown};

use crate::window::Window;
use rules::Rule;

impl Window<'_> {
    /// Whether the next state of a state in a situation is one.
    fn is_good_next(&self, state: u16, situation: u8) -> bool
        requires known_state { state < self.now.states }
        requires known_situation { situation < self.now.situations }
        ensures { result ≡ nat_lt (slice_index (slice_index_or (shown self.now).rows state no_row).nexts situation) self.now.states }
    {
        self.next_at(state, situation) < self.states
    }

    /// Whether the command of a state is one, and each of its next states.
    fn is_good_record<R: Rule>(&self, rule: &R, state: u16) -> bool
        requires { state < self.now.states }
        ensures { result ≡ good_row (R.Rule.meaning rule.now) self.now.states (slice_index_or (shown self.now).rows state no_row) }
    {
        self.command_at(state) < rule.commands()
            && (0..self.situations).all(|situation| self.is_good_next(state, situation))
    }

    /// Whether every record is good.
    pub fn has_good_records<R: Rule>(&self, rule: &R) -> bool
        ensures { result ≡ every (good_row (R.Rule.meaning rule.now) (length (shown self.now).rows)) (shown self.now).rows }
    {
        (0..self.states).all(|state| self.is_good_record(rule, state))
    }
}
