//! The positions within a bound, the steps of each, and which of them are safe.

ghost use Rattle.std.specs.Prelude.{◌≡◌, ◌*◌, ◌/◌, ◌%◌, ◌<◌, ◌≤◌, length};
ghost use Rattle.model.specs.Positions.{same as same_marks};
ghost use Rattle.synthesis.specs.Tables.{automaton, view};
ghost use Rattle.synthesis.specs.Surveys.{candidate, Reached, Surveyed};

use crate::arrows::Arrows;
use crate::graphs::Positions;
use crate::position::Position;
use crate::pruning::safe_part;
use crate::stepping::fits;
use search::graph::Graph;
use search::rows::explore_rows;

/// The successor with the number i is the step under the command i / 8 in the situation i % 8.
impl Graph for Positions<'_> {
    type Node = Position;

    ghost same = { λ g a b. same_marks a.marks b.marks };

    ghost degree = { λ g. 64 };

    ghost successor = { λ g P i. candidate (automaton g.arrows.now) g.c (view g.arrows.now.states P) (i / 8) (i % 8) };

    fn same(&self, a: &Position, b: &Position) -> bool {
        *a == *b
    }

    fn degree(&self) -> usize {
        64
    }

    fn successor(&self, node: &Position, i: usize) -> Option<Position> {
        let command = (i / 8) as u8;
        let situation = (i % 8) as u8;
        if command < self.arrows.numbers.commands && situation < self.arrows.numbers.situations {
            self.arrows.step(self.c, command, situation, node)
        } else {
            None
        }
    }
}

// The bound on c is asked of each function: a type of its own would be made anew of each number that is tried.

/// Meets the positions that steps not over c lead to, in the order of meeting, and links them. None, if there are more than slots.
fn reach(
    arrows: &Arrows,
    c: u8,
    met: &mut [Position],
    waiting: &mut [Position],
    links: &mut [[Option<u16>; 64]],
) -> Option<usize>
    requires low { c < 255 }
    requires room { (0 < length met.old) × ((length met.old ≤ 65535) × (length met.old ≤ length waiting.old)) }
    requires rows { length met.old ≤ length links.old }
    ensures { Reached (automaton arrows.now) c (length met.old) result met.new links.new }
{
    let first = arrows.start();
    if !fits(arrows.states, c, &first) {
        return Some(0);
    }
    explore_rows(&Positions { arrows, c }, &first, met, waiting, links)
}

/// Meets the positions within the bound c, links each to its steps, and flags those that are safe. None, if there are more than slots.
pub fn look(
    arrows: &Arrows,
    c: u8,
    met: &mut [Position],
    waiting: &mut [Position],
    links: &mut [[Option<u16>; 64]],
    safe: &mut [bool],
) -> Option<usize>
    requires low { c < 255 }
    requires room { (0 < length met.old) × ((length met.old ≤ 65535) × ((length met.old ≤ length waiting.old) × (length met.old ≤ length safe.old))) }
    requires rows { length met.old ≤ length links.old }
    ensures { Surveyed (automaton arrows.now) c (length met.old) result met.new links.new safe.new }
{
    let len = reach(arrows, c, met, waiting, links)?;
    safe_part(arrows.numbers, links, &mut safe[0..len]);
    Some(len)
}
