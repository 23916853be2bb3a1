//! The numbers of a line, held to their ranges from left to right.

ghost use Rattle.std.specs.Prelude.{◌≡◌, ◌+◌, ◌-◌, ◌*◌, ◌^◌, ◌<◌, ◌≤◌, length, nat_le, IfOk};
ghost use Rattle.std.specs.List.{position};
ghost use Rattle.model.specs.Text.{state_numbers, numbers as line_numbers};
ghost use Rattle.ruletext.specs.Lines.{digit_of, states_in, size_line, arrows_line};
ghost use Rattle.ruletext.specs.Ranges.{first_outside, fault_of};

use crate::line::{Arrows, Size};

/// What a digit's byte says.
pub fn value(digit: u8) -> u8
    ensures { result ≡ digit - 48 }
{
    digit.saturating_sub(b'0')
}

// The place of the first word whose state is not below `states`, if there is one.
fn first_too_large(words: &[[u8; 2]], states: u8) -> Option<usize>
    ensures { result ≡ position (λ word. nat_le states (digit_of word)) words.now }
{
    words.iter().position(|word| value(word[1]) >= states)
}

/// The byte of the first state that is not below `states`, if there is one. The first word's digit stands at byte `at`.
pub fn outside(words: &[[u8; 2]], states: u8, at: usize) -> Option<usize>
    requires { at + 2 * length words.now < 2 ^ 64 }
    ensures { result ≡ first_outside (state_numbers states at (states_in words.entry)) }
{
    let word = first_too_large(words, states)?;
    Some(at + 2 * word)
}

/// A number of states, 1 to 8, and the start state, which is one of them.
#[derive(Clone, Copy)]
pub struct States {
    pub count: u8,
    pub start: u8,
    ghost counted: { (1 ≤ count) × (count ≤ 8) },
    ghost begins: { start < count },
}

impl States {
    /// Those of an s line, or the byte of its first number that is out of range.
    pub fn of(size: Size) -> Result<States, usize>
        ensures outside { fault_of result ≡ first_outside (line_numbers 0 0 size.states (size_line size)) }
        ensures same { IfOk result (λ s. (s.count ≡ size.states) × (s.start ≡ size.start)) }
    {
        if size.states < 1 || size.states > 8 {
            return Err(2);
        }
        if size.start >= size.states {
            return Err(4);
        }
        Ok(States {
            count: size.states,
            start: size.start,
        })
    }
}

/// The byte of the first number of a t line that is out of range, if there is one.
pub fn outside_arrows(arrows: Arrows, states: u8, situations: u8, commands: u8) -> Option<usize>
    ensures { result ≡ first_outside (line_numbers situations commands states (arrows_line arrows.entry)) }
{
    if arrows.from >= states {
        return Some(2);
    }
    if !arrows.command.is_below(commands) {
        return Some(4);
    }
    if !arrows.situation.is_below(situations) {
        return Some(6);
    }
    outside(arrows.to, states, 8)
}
