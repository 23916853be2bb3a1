//! The two graphs that are searched.

ghost use Rattle.std.specs.Prelude.{◌<◌, ◌≤◌, length};

use crate::arrows::Arrows;
use crate::pruning::Numbers;

/// The positions of rules side by side, with their steps not over c.
#[derive(Clone, Copy)]
pub struct Positions<'a> {
    pub arrows: &'a Arrows,
    pub c: u8,
    ghost low: { c < 255 },
}

/// The places of a table of links, under the lowest commands that stay among the safe ones.
///
/// The links of a place lie in a row of 64: under the command u, the situation x leads to the link u * 8 + x. Where there is none, or
/// it is no safe place, it leads out of the set.
// One row and no table of eight by eight: the search writes a row, a link for each number of a successor.
#[derive(Clone, Copy)]
pub struct Chosen<'a> {
    pub numbers: Numbers,
    pub links: &'a [[Option<u16>; 64]],
    pub safe: &'a [bool],
    ghost rows: { length safe.now ≤ length links.now },
}
