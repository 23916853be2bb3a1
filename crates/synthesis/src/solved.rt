//! What solve answers.

ghost use Rattle.std.specs.Prelude.{◌≡◌};
ghost use Rattle.synthesis.specs.Refused.{refused_by};

use model::refusal::Refusal;

/// A controller: its count, and the number of its states.
#[derive(Clone, Copy, Debug, PartialEq, Eq)]
pub struct Found {
    pub count: u8,
    pub states: usize,
}

/// Why there is no controller.
#[derive(Clone, Copy, Debug, PartialEq, Eq)]
pub enum Unsolved {
    /// None has a count within the limit.
    NoneFound,
    /// At some bound there are more positions than the capacity.
    Crowded,
}

impl From<Unsolved> for Refusal {
    ghost from_gives = { λ unsolved refusal. refusal ≡ refused_by unsolved };

    fn from(unsolved: Unsolved) -> Refusal {
        match unsolved {
            Unsolved::NoneFound => Refusal::NoneFound,
            Unsolved::Crowded => Refusal::Crowded,
        }
    }
}
