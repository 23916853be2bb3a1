//! The words of a line, and the numbers that words denote.
ghost use Rattle.std.specs.Prelude.{◌≡◌, ◌-◌, ◌≤◌, length, not, IfOk, MatchOption, MatchResult};
ghost use Rattle.std.specs.Iterator.{at_most};
ghost use Rattle.script.specs.Words.{blank, Blank, WordAt, Stands, Upcoming, Denotes};
ghost use Rattle.script.specs.Faults.{Refuses};

use crate::bad_line::BadLine;
use crate::places::first_from;

// Words are parted by spaces, tabs and carriage returns.
fn is_blank(byte: u8) -> bool
    ensures { result ≡ blank byte }
{
    matches!(byte, b' ' | b'\t' | b'\r')
}

// A word has all other bytes.
fn is_solid(byte: u8) -> bool
    ensures { result ≡ not (blank byte) }
{
    !is_blank(byte)
}

/// The place of a word in a line: its first byte, and the byte behind its last.
#[derive(Clone, Copy)]
pub struct Place {
    pub start: usize,
    pub end: usize,
}

/// The place of the first word from `from` on, or none where only blanks are left.
pub fn word_at(line: &[u8], from: usize) -> Option<Place>
    requires { from ≤ length line.now }
    ensures { MatchOption result (Blank line.now from (length line.now)) (λ w. WordAt line.now from w.start w.end) }
{
    let start = first_from(line, from, is_solid);
    if start == line.len() {
        return None;
    }
    let end = first_from(line, start, is_blank);
    Some(Place { start, end })
}

/// The words of a line, taken one by one.
// An own iterator: a slice's `split` does not say where in the line a piece stands.
#[derive(Clone, Copy)]
pub struct Words<'a> {
    line: &'a [u8],
    at: usize,
    ghost within: { at ≤ length line.now },
}

impl<'a> Words<'a> {
    pub fn new(line: &'a [u8]) -> Words<'a>
        ensures { (result.line.now ≡ line.now) × (result.at ≡ 0) }
    {
        Words { line, at: 0 }
    }

    /// The next word, which is still to be taken.
    pub fn peek(&self) -> Option<&'a [u8]>
        ensures { MatchOption result (Blank self.now.line.now self.now.at (length self.now.line.now)) (λ w. Upcoming self.now.line.now self.now.at w.now) }
    {
        let mut ahead = *self;
        ahead.next()
    }
}

impl<'a> Iterator for Words<'a> {
    type Item = &'a [u8];

    ghost next_gives = { λ before given after. (after.line.now ≡ before.line.now)
        × MatchOption given (Blank before.line.now before.at (length before.line.now)) (λ word. Stands before.line.now before.at after.at word.now) };

    ghost remaining = { λ words. at_most (length words.line.now - words.at) };

    fn next(&mut self) -> Option<&'a [u8]> {
        let place = word_at(self.line, self.at)?;
        self.at = place.end;
        Some(&self.line[place.start..place.end])
    }
}

// The number that stands for every number too large for 16 bits.
const TOO_LARGE: u32 = 65_536;

/// The number that a word denotes in decimal digits, if it is not above `most`.
// No `parse`: it reads a `str`, takes a plus sign, and of an overflow it does not say that all bytes are digits.
#[tactic(auto, using(crate::proofs::Denoted::one_more))]
pub fn number(word: &[u8], most: u16) -> Result<u16, BadLine>
    ensures value { MatchResult result (λ n. Denotes word.now n) (λ fault. Refuses word.now most fault) }
    ensures least { IfOk result (λ n. n ≤ most) }
{
    let mut n: u32 = 0;
    for digit in word {
        if !digit.is_ascii_digit() {
            return Err(BadLine::NotNumber);
        }
        n = (n * 10 + u32::from(*digit - b'0')).min(TOO_LARGE);
    }
    match u16::try_from(n) {
        Ok(n) if n <= most => Ok(n),
        _ => Err(BadLine::TooLarge),
    }
}
