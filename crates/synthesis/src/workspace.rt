//! The memory that solve works in.

ghost use Rattle.std.specs.Prelude.{◌≡◌, ◌≤◌, IfOk, vec_len};

use crate::position::Position;
use crate::state::State;
use std::alloc::{AllocError, Global};

const NO_POSITION: Position = Position { marks: [0; 16] };

const NO_STATE: State = State {
    command: 0,
    nexts: [0; 8],
    position: NO_POSITION,
};

/// Tables for up to 1,024 positions. What they hold before a solve does not matter to it.
// One table for each, and indices for links: the search is lent nodes and links as slices of their own, and a solve allocates nothing.
#[derive(Drop)]
pub struct Workspace {
    /// The positions met.
    pub met: Vec<Position>,
    /// Those of them whose steps are not yet met.
    pub waiting: Vec<Position>,
    /// For each position met, the places of its steps.
    pub links: Vec<[Option<u16>; 64]>,
    /// Whether a position met is safe.
    pub safe: Vec<bool>,
    /// The place of each state of the controller among the positions met.
    pub places: Vec<u16>,
    /// Those of them whose next states are not yet numbered.
    pub waiting_places: Vec<u16>,
    /// For each state of the controller, its next states.
    pub nexts: Vec<[Option<u16>; 8]>,
    /// The states of the controller found.
    pub states: Vec<State>,
    ghost met_full: { vec_len met ≡ 1024 },
    ghost waiting_full: { vec_len waiting ≡ 1024 },
    ghost links_full: { vec_len links ≡ 1024 },
    ghost safe_full: { vec_len safe ≡ 1024 },
    ghost places_full: { vec_len places ≡ 1024 },
    ghost waiting_places_full: { vec_len waiting_places ≡ 1024 },
    ghost nexts_full: { vec_len nexts ≡ 1024 },
    ghost states_full: { vec_len states ≡ 1024 },
}

/// A row for each position, with no link in it. Made row by row: the copies that `vec!` makes of an array look at each of its elements.
fn no_links<const N: usize>(heap: Global) -> Result<Vec<[Option<u16>; N]>, AllocError>
    ensures { IfOk result (λ rows. vec_len rows ≡ 1024) }
{
    (0..1024u16).map(|_| [None; N]).collect(heap)
}

impl Workspace {
    /// All tables at once, or none if there is no memory for one of them.
    pub fn new(heap: Global) -> Result<Workspace, AllocError>
        ensures { IfOk result (λ w. vec_len w.states ≡ 1024) }
    {
        let met = vec![in heap; NO_POSITION; 1024]?;
        let waiting = vec![in heap; NO_POSITION; 1024]?;
        let links = no_links(heap)?;
        let safe = vec![in heap; false; 1024]?;
        let places = vec![in heap; 0u16; 1024]?;
        let waiting_places = vec![in heap; 0u16; 1024]?;
        let nexts = no_links(heap)?;
        let states = vec![in heap; NO_STATE; 1024]?;
        Ok(Workspace {
            met,
            waiting,
            links,
            safe,
            places,
            waiting_places,
            nexts,
            states,
        })
    }
}
