//! The number of each fault and refusal, and the place of a fault in its text.

ghost use Rattle.std.specs.Prelude.{◌≡◌, MatchOption};
ghost use Rattle.std.proofs.Math.Option.{none, some};
ghost use Rattle.model.specs.Refusals.{line_fault_number, fault_number, refusal_number, line_fault_spot, fault_spot, spot};

use crate::fault::*;
use crate::refusal::*;

/// A line of a text, from 1, and a byte of it, from 0. A `WordFault` has the same two numbers, and is a fault: as one type they would
/// say less.
#[derive(Clone, Copy, Debug, PartialEq, Eq)]
pub struct TextPlace {
    pub line: usize,
    pub byte: usize,
}

impl LineFault {
    /// The number of the refusal.
    pub fn number(&self) -> u8
        ensures { result ≡ line_fault_number self.now }
    {
        match self {
            LineFault::Word(_) => 4,
            LineFault::Order { .. } => 5,
            LineFault::Range { .. } => 6,
        }
    }

    /// Where the text has it.
    pub fn place(&self) -> TextPlace
        ensures { spot result.line result.byte ≡ line_fault_spot self.now }
    {
        match *self {
            LineFault::Word(word) => TextPlace {
                line: word.line,
                byte: word.byte,
            },
            LineFault::Order { line } => TextPlace { line, byte: 0 },
            LineFault::Range { line, byte } => TextPlace { line, byte },
        }
    }
}

impl ReadFault {
    /// The number of the refusal.
    pub fn number(&self) -> u8
        ensures { result ≡ fault_number self.now }
    {
        match self {
            ReadFault::Numbers => 1,
            ReadFault::Length => 3,
            ReadFault::Line(fault) => fault.number(),
            ReadFault::Unreached { .. } => 7,
        }
    }

    /// Where the text has it; numbers and lengths have no place.
    pub fn place(&self) -> Option<TextPlace>
        ensures { MatchOption result (fault_spot self.now ≡ none) (λ at. fault_spot self.now ≡ some (spot at.line at.byte)) }
    {
        match *self {
            ReadFault::Numbers => None,
            ReadFault::Length => None,
            ReadFault::Line(fault) => Some(fault.place()),
            ReadFault::Unreached { line } => Some(TextPlace { line, byte: 0 }),
        }
    }
}

impl Refusal {
    /// The number of the refusal. A method says so; `u8::from(refusal)` would not.
    pub fn number(&self) -> u8
        ensures { result ≡ refusal_number self.now }
    {
        match self {
            Refusal::OutOfRange => 1,
            Refusal::HouseRule => 2,
            Refusal::UnlikeRule => 8,
            Refusal::NameTaken => 9,
            Refusal::NoRoom => 10,
            Refusal::NoSuchName => 11,
            Refusal::OverLimit => 12,
            Refusal::NoneFound => 13,
            Refusal::Crowded => 14,
            Refusal::NoController => 15,
            Refusal::NoSituation => 16,
            Refusal::ShortBuffer => 17,
            Refusal::Trailer => 18,
            Refusal::OtherSheet => 19,
            Refusal::Layout => 20,
            Refusal::Record => 21,
            Refusal::Certificate(_) => 22,
        }
    }
}
