//! What a window shows: commands, next states and marks.

ghost use Rattle.std.specs.Prelude.{◌≡◌, ◌+◌, ◌*◌, ◌<◌, slice_index, slice_index_or};
ghost use Rattle.model.specs.Automaton.{no_row};
ghost use Rattle.model.specs.File.{byte_mark, mark_in};
ghost use Rattle.ctlfile.specs.Windows.{shown};

use crate::trailer::record_size;
use crate::window::Window;

/// The mark that a byte of a certificate stands for: 0 for FF, absent, else the tally and 1.
// The file has FF for absent, and the definitions have 0: an option between the two would be read from one and turned into the other.
fn mark_of(byte: u8) -> u8
    ensures { result ≡ byte_mark byte }
{
    if byte == 255 { 0 } else { byte + 1 }
}

// A state, a situation and a rule state have a bound each, asked where they come in.

impl Window<'_> {
    /// Where the record of a state begins.
    fn record_at(&self, state: u16) -> usize
        ensures { result ≡ state * (1 + 2 * self.now.situations) }
    {
        state as usize * record_size(self.situations)
    }

    /// The mark of a rule state in a state.
    pub fn mark_at(&self, state: u16, rule_state: u8) -> u8
        requires known_state { state < self.now.states }
        requires known_rule_state { rule_state < self.now.rule_states }
        ensures { result ≡ mark_in (shown self.now) state rule_state }
    {
        mark_of(self.certificate[state as usize * self.rule_states as usize + rule_state as usize])
    }

    /// The command of a state.
    pub fn command_at(&self, state: u16) -> u8
        requires { state < self.now.states }
        ensures { result ≡ (slice_index_or (shown self.now).rows state no_row).command }
    {
        self.records[self.record_at(state)]
    }

    /// The next state of a state in a situation.
    pub fn next_at(&self, state: u16, situation: u8) -> u16
        requires known_state { state < self.now.states }
        requires known_situation { situation < self.now.situations }
        ensures { result ≡ slice_index (slice_index_or (shown self.now).rows state no_row).nexts situation }
    {
        let at = self.record_at(state) + 1 + 2 * situation as usize;
        u16::from_le_bytes([self.records[at], self.records[at + 1]])
    }
}
