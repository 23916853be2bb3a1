//! Write: the file of a controller, part by part.

ghost use Rattle.std.specs.Prelude.{◌≡◌, ◌+◌, ◌*◌, ◌<◌, ◌≤◌, map, length};
ghost use Rattle.model.specs.Lists.{joined};
ghost use Rattle.model.specs.File.{record_bytes, tally_byte, tallies};
ghost use Rattle.ctlfile.specs.Trailers.{trailer_for as trailer_told};
ghost use Rattle.ctlfile.specs.Files.{file_of, written, left};
ghost use Rattle.synthesis.specs.Answers.{row_of, position_of};
ghost use Rattle.synthesis.specs.Tables.{view};

use crate::trailer::{Trailer, record_size};
use model::refusal::Refusal;
use rules::Rule;
use synthesis::position::Position;
use synthesis::state::State;

// Parts are written by index, and not through `chunks_exact_mut`: of a slice lent so, a proof knows the length and no byte (tried).

// The one place that turns a mark into its byte: a `From` of the two numbers would not say which way.
/// The byte of a mark in a certificate: FF for absent, else the tally.
fn tally_of(mark: u8) -> u8
    ensures { result ≡ tally_byte mark }
{
    if mark == 0 { 255 } else { mark - 1 }
}

/// How much of a stored state goes into a file: its next states in so many situations, and its marks of so many rule states.
#[derive(Clone, Copy)]
struct Widths {
    situations: u8,
    rule_states: u8,
    ghost few_situations: { situations ≤ 8 },
    ghost few_rule_states: { rule_states ≤ 16 },
}

impl Widths {
    /// Writes the record of a state: its command, and its next states of two bytes each.
    fn write_record(self, state: &State, part: &mut [u8])
        requires { length part.old ≡ 1 + 2 * self.situations }
        ensures { part.new ≡ record_bytes (row_of self.situations state.now) }
    {
        part[0] = state.command;
        for (situation, next) in state.nexts[..self.situations as usize].iter().enumerate() {
            let at = 1 + 2 * situation;
            part[at..at + 2].copy_from_slice(&next.to_le_bytes());
        }
    }

    /// Writes the bytes of a position.
    fn write_position(self, position: &Position, part: &mut [u8])
        requires { length part.old ≡ self.rule_states }
        ensures { part.new ≡ map tally_byte (view self.rule_states position.now) }
    {
        for (rule_state, mark) in position.marks[..self.rule_states as usize]
            .iter()
            .enumerate()
        {
            part[rule_state] = tally_of(*mark);
        }
    }

    // Records and positions are written by a function each: one with a closure would be told both contracts again.

    /// Writes the record of each state.
    fn write_records(self, states: &[State], part: &mut [u8])
        requires { length part.old ≡ length states.now * (1 + 2 * self.situations) }
        ensures { part.new ≡ joined record_bytes (map (row_of self.situations) states.now) }
    {
        let width = record_size(self.situations);
        for (number, state) in states.iter().enumerate() {
            let at = number * width;
            self.write_record(state, &mut part[at..at + width]);
        }
    }

    /// Writes the position of each state.
    fn write_certificate(self, states: &[State], part: &mut [u8])
        requires { length part.old ≡ length states.now * self.rule_states }
        ensures { part.new ≡ tallies (map (position_of self.rule_states) states.now) }
    {
        let width = self.rule_states as usize;
        for (number, state) in states.iter().enumerate() {
            let at = number * width;
            self.write_position(&state.position, &mut part[at..at + width]);
        }
    }

    /// What a state takes: its record, and the bytes of its position.
    fn state_size(self, state: &State) -> usize
        ensures takes { result ≡ length (record_bytes (row_of self.situations state.now)) + length (map tally_byte (position_of self.rule_states state.now)) }
        ensures counted { result ≡ 1 + 2 * self.situations + self.rule_states }
    {
        let nexts = &state.nexts[0..self.situations as usize];
        let marks = &state.position.marks[0..self.rule_states as usize];
        1 + 2 * nexts.len() + marks.len()
    }

    /// What the states take.
    fn body_size(self, states: &[State]) -> usize
        requires { length states.now ≤ 1024 }
        ensures takes { result ≡ length (joined record_bytes (map (row_of self.situations) states.now)) + length (joined (map tally_byte) (map (position_of self.rule_states) states.now)) }
        ensures counted { result ≡ length states.now * (1 + 2 * self.situations + self.rule_states) }
    {
        // A loop: of a `sum` behind `map` a proof lacks the bound.
        let mut size = 0;
        for state in states {
            size += self.state_size(state);
        }
        size
    }
}

/// The trailer of a file for the rule, with so many states and the number c.
fn trailer_for<R: Rule>(rule: &R, states: u16, count: u8) -> Trailer
    ensures few { result.situations ≤ 8 }
    ensures told { result ≡ trailer_told (R.Rule.meaning rule.now) states count }
{
    let situations = rule.situations();
    let rule_states = rule.states();
    let certificate = states as u32 * rule_states as u32;
    Trailer {
        to_records: states as u32 * (1 + 2 * situations as u32) + certificate,
        to_certificate: certificate,
        states,
        situations,
        commands: rule.commands(),
        rule_states,
        count,
    }
}

/// Writes the file of a controller at the start of the buffer, leaves later bytes, and answers the length; or refuses a buffer that is
/// too small, and writes nothing.
pub fn write<R: Rule>(
    rule: &R,
    states: &[State],
    count: u8,
    buffer: &mut [u8],
) -> Result<usize, Refusal>
    requires few { length states.now ≤ 1024 }
    requires marks { (R.Rule.meaning rule.now).states ≤ 16 }
    ensures said { result ≡ written (file_of (R.Rule.meaning rule.now) states.now count) buffer.old }
    ensures left { buffer.new ≡ left (file_of (R.Rule.meaning rule.now) states.now count) buffer.old }
{
    let trailer = trailer_for(rule, states.len() as u16, count);
    let widths = Widths {
        situations: trailer.situations,
        rule_states: trailer.rule_states,
    };
    let body = widths.body_size(states);
    if buffer.len() < body + 20 {
        return Err(Refusal::ShortBuffer);
    }
    let records = trailer.records_size();
    widths.write_records(states, &mut buffer[0..records]);
    widths.write_certificate(states, &mut buffer[records..body]);
    buffer[body..body + 20].copy_from_slice(&trailer.bytes());
    Ok(body + 20)
}
