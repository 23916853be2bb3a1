//! The lines of a script.
ghost use Rattle.std.specs.Prelude.{◌≡◌, ◌-◌, ◌≤◌, ◌==◌, length, MatchOption};
ghost use Rattle.std.specs.Iterator.{at_most};
ghost use Rattle.script.specs.Lines.{LineAt};

use crate::places::first_from;

fn ends_line(byte: u8) -> bool
    ensures { result ≡ byte == 10 }
{
    byte == b'\n'
}

/// The lines of a script, taken one by one, without the bytes that end them.
// An own iterator: a slice's `split` does not say where in the script a piece stands.
#[derive(Drop)]
pub struct Lines<'a> {
    script: &'a [u8],
    at: usize,
    ghost within: { at ≤ length script.now },
}

impl<'a> Lines<'a> {
    pub fn new(script: &'a [u8]) -> Lines<'a>
        ensures { (result.script.now ≡ script.now) × (result.at ≡ 0) }
    {
        Lines { script, at: 0 }
    }
}

impl<'a> Iterator for Lines<'a> {
    type Item = &'a [u8];

    ghost next_gives = { λ before given after. (after.script.now ≡ before.script.now)
        × MatchOption given (before.at ≡ length before.script.now) (λ line. LineAt before.script.now before.at after.at line.now) };

    ghost remaining = { λ lines. at_most (length lines.script.now - lines.at) };

    fn next(&mut self) -> Option<&'a [u8]> {
        let start = self.at;
        if start == self.script.len() {
            return None;
        }
        let end = first_from(self.script, start, ends_line);
        self.at = self.script.len().min(end + 1);
        Some(&self.script[start..end])
    }
}
