//! A rule read from a text.

ghost use Rattle.std.specs.Prelude.{◌≡◌, ℕ, ◌<◌, true};
ghost use Rattle.model.specs.ReadingLaws.{AllReached};
ghost use Rattle.ruletext.specs.Tables.{automaton, has_state, Within};

use crate::name::Name;
use crate::range::States;
use crate::table::Table;
use rules::Numbers;

pub mod answers;
pub mod fill;

// A rule with its name and the two numbers that it was read for: every number is in range, and every state is reached from
// the start state.
#[derive(Drop)]
struct Whole {
    name: Name,
    numbers: Numbers,
    states: States,
    table: Table,
    ghost rejects: { (q : ℕ) → has_state table.rejecting q ≡ true → q < states.count },
    ghost leads: { ∥ Within numbers.situations numbers.commands states.count table.arrows ∥₁ },
    ghost reached: { ∥ AllReached (automaton numbers.situations numbers.commands states.count states.start table.rejecting table.arrows) ∥₁ },
}

/// A rule with the name that it goes by and the two numbers that it was read for, filled whole; or blank.
#[derive(Drop)]
pub struct ReadRule {
    whole: Option<Whole>,
}
