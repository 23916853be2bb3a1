//! The states of a controller, in the order of meeting.

ghost use Rattle.std.specs.Prelude.{◌≡◌, ◌*◌, ◌<◌, ◌≤◌, true, length, take, IfSome, Some, ◌==◌, nat_eq, count_by};
ghost use Rattle.model.specs.Search.{reached_from};
ghost use Rattle.search.specs.Meeting.{successors, Linked, Found};
ghost use Rattle.synthesis.specs.Tables.{automaton};
ghost use Rattle.synthesis.specs.Safety.{flag};
ghost use Rattle.synthesis.specs.Control.{onward, Controlled};

use crate::graphs::Chosen;
use crate::survey::Survey;
use search::graph::Graph;
use search::rows::explore_rows;

/// The successor with the number i is the place that the lowest command leads to in the situation i.
impl Graph for Chosen<'_> {
    type Node = u16;

    ghost same = { λ g a b. (a == b) };

    ghost degree = { λ g. 8 };

    ghost successor = { λ g h x. onward g.numbers.commands g.numbers.situations g.links.now g.safe.now h x };

    fn same(&self, a: &u16, b: &u16) -> bool {
        *a == *b
    }

    fn degree(&self) -> usize {
        8
    }

    fn successor(&self, node: &u16, i: usize) -> Option<u16> {
        let place = *node as usize;
        if place >= self.safe.len() || i >= self.numbers.situations as usize {
            return None;
        }
        match self.lowest_command(place) {
            Some(command) => {
                let link = command as usize * 8 + i;
                self.links[place][link]
            }
            None => None,
        }
    }
}

/// How many places are safe.
fn count(safe: &[bool]) -> usize
    ensures { result ≡ count_by (λ flag. flag) safe.now }
{
    safe.iter().filter(|flag| **flag).count()
}

/// Meets the places that the lowest commands lead to from the first one, and links them. None, if there are more than slots.
fn number(
    chosen: &Chosen,
    places: &mut [u16],
    waiting: &mut [u16],
    nexts: &mut [[Option<u16>; 8]],
) -> Option<usize>
    requires room { (0 < length places.old) × ((length places.old ≤ 65535) × (length places.old ≤ length waiting.old)) }
    requires rows { length places.old ≤ length nexts.old }
    ensures places { Found result places.new (reached_from nat_eq (successors 8 (onward chosen.now.numbers.commands chosen.now.numbers.situations chosen.now.links.now chosen.now.safe.now)) (length places.old) 0) }
    ensures nexts { IfSome result (λ n. Linked nat_eq 8 (onward chosen.now.numbers.commands chosen.now.numbers.situations chosen.now.links.now chosen.now.safe.now) (take n places.new) nexts.new n) }
{
    explore_rows(chosen, &0, places, waiting, nexts)
}

impl Survey<'_> {
    /// Writes the places of the controller's states, and the next states of each, and answers the number of states.
    ///
    /// The start is among the safe positions.
    pub fn control(
        &self,
        places: &mut [u16],
        waiting: &mut [u16],
        nexts: &mut [[Option<u16>; 8]],
    ) -> usize
        requires start { flag self.now.safe.now 0 ≡ true }
        requires few { length self.now.met.now ≤ 65535 }
        requires room { (length self.now.met.now ≤ length places.old) × ((length self.now.met.now ≤ length waiting.old) × (length self.now.met.now ≤ length nexts.old)) }
        ensures { Controlled (automaton self.now.arrows.now) self.now.met.now (length self.now.met.now) self.now.safe.now result places.new nexts.new }
    {
        let room = count(self.safe);
        let chosen = self.chosen();
        match number(&chosen, &mut places[0..room], waiting, nexts) {
            Some(n) => n,
            None => unreachable(),
        }
    }
}
