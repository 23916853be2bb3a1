//! Solve: bound after bound, up to the limit.

ghost use Rattle.std.specs.Prelude.{◌*◌, ◌<◌, ◌≤◌, map, length};
ghost use Rattle.std.specs.List.{AllByRecursion};
ghost use Rattle.model.specs.Rules.{together};
ghost use Rattle.synthesis.specs.Tables.{automaton, Alike};
ghost use Rattle.synthesis.specs.Answers.{Answered};

use crate::arrows::Arrows;
use crate::gathering::gather;
use crate::position::Position;
use crate::pruning::is_safe;
use crate::solved::{Found, Unsolved};
use crate::state::State;
use crate::survey::Survey;
use crate::surveying::look;
use crate::workspace::Workspace;
use rules::Rule;

/// Looks for a controller of the least count, in lent tables with as many slots for positions as the capacity.
// The tables one by one: of a slice that a struct's field lends to be read, a proof knows the length and no element.
fn solve_table(
    arrows: &Arrows,
    limit: u8,
    met: &mut [Position],
    waiting: &mut [Position],
    links: &mut [[Option<u16>; 64]],
    safe: &mut [bool],
    places: &mut [u16],
    waiting_places: &mut [u16],
    nexts: &mut [[Option<u16>; 8]],
    states: &mut [State],
) -> Result<Found, Unsolved>
    requires low { limit < 254 }
    requires room { (0 < length met.old) × ((length met.old ≤ 65535) × ((length met.old ≤ length waiting.old) × (length met.old ≤ length safe.old))) }
    requires state_room { (length met.old ≤ length places.old) × ((length met.old ≤ length waiting_places.old) × (length met.old ≤ length states.old)) }
    requires rows { (length met.old ≤ length links.old) × (length met.old ≤ length nexts.old) }
    ensures { Answered (automaton arrows.now) (length met.old) limit result states.new }
{
    // A loop and no `find`: where a bound works, its tables are used.
    for c in 0..=limit {
        let Some(len) = look(arrows, c, met, waiting, links, safe) else {
            return Err(Unsolved::Crowded);
        };
        let survey = Survey {
            arrows,
            c,
            met: &met[0..len],
            links: &*links,
            safe: &safe[0..len],
            room: met.len(),
        };
        if is_safe(survey.safe, 0) {
            let count = survey.control(places, waiting_places, nexts);
            survey.store(places, nexts, count, states);
            return Ok(Found {
                count: c,
                states: count,
            });
        }
    }
    Err(Unsolved::NoneFound)
}

/// Looks for a controller of the least count for the house rule and the added rules side by side, and stores its states in the
/// workspace. No controller within the limit, or at some bound more positions than the capacity, are answers too.
pub fn solve<R: Rule, T: Rule>(
    house: &R,
    added: &[T],
    capacity: usize,
    limit: u8,
    workspace: &mut Workspace,
) -> Result<Found, Unsolved>
    requires alike { AllByRecursion (Alike (R.Rule.meaning house.now)) (map T.Rule.meaning added.now) }
    requires room { (together (R.Rule.meaning house.now) (map T.Rule.meaning added.now)).states ≤ 16 }
    requires capacity { (1 ≤ capacity) × (capacity ≤ 1024) }
    requires limit { limit ≤ 14 }
    ensures { Answered (together (R.Rule.meaning house.now) (map T.Rule.meaning added.now)) capacity limit result workspace.new.states.items }
{
    let arrows = gather(house, added);
    solve_table(
        &arrows,
        limit,
        &mut workspace.met.as_mut_slice()[0..capacity],
        workspace.waiting.as_mut_slice(),
        workspace.links.as_mut_slice(),
        workspace.safe.as_mut_slice(),
        workspace.places.as_mut_slice(),
        workspace.waiting_places.as_mut_slice(),
        workspace.nexts.as_mut_slice(),
        workspace.states.as_mut_slice(),
    )
}
