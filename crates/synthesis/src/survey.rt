//! What is known of the positions within a bound.

ghost use Rattle.std.specs.Prelude.{◌≡◌, ◌≤◌, length, Some};
ghost use Rattle.std.proofs.Props.{props};
ghost use Rattle.synthesis.specs.Tables.{automaton};
ghost use Rattle.synthesis.specs.Surveys.{Surveyed};

use crate::arrows::Arrows;
use crate::graphs::Chosen;
use crate::position::Position;

/// The positions met at the bound c, the links of each to its steps, and whether it is safe.
#[derive(Clone, Copy)]
pub struct Survey<'a> {
    pub arrows: &'a Arrows,
    pub c: u8,
    pub met: &'a [Position],
    pub links: &'a [[Option<u16>; 64]],
    pub safe: &'a [bool],
    /// How many positions there was room for.
    pub room: usize,
    ghost flags: { length safe.now ≡ length met.now },
    ghost rows: { length met.now ≤ length links.now },
    ghost surveyed: { Surveyed (automaton arrows.now) c room (Some (length met.now)) met.now links.now safe.now } by { Prim.hlevel props },
}

impl Survey<'_> {
    /// Its places, under the lowest commands that stay among the safe ones.
    pub fn chosen(&self) -> Chosen
        ensures numbers { result.numbers ≡ self.now.arrows.now.numbers }
        ensures links { result.links.now ≡ self.now.links.now }
        ensures safe { result.safe.now ≡ self.now.safe.now }
    {
        Chosen {
            numbers: self.arrows.numbers,
            links: self.links,
            safe: self.safe,
        }
    }
}
