//! Rules side by side as one rule, which answers from a table.

ghost use Rattle.std.specs.Prelude.{◌≤◌, map};
ghost use Rattle.std.specs.List.{AllByRecursion};
ghost use Rattle.model.specs.Rules.{together};
ghost use Rattle.synthesis.specs.Tables.{automaton, Agrees, Alike};

use crate::arrows::Arrows;
use crate::gathering::gather;
use rules::Rule;

/// A rule that answers from a table. It has at least one situation, one command and one state.
#[derive(Clone, Copy)]
pub struct RuleTable {
    pub arrows: Arrows,
    ghost some_situations: { 1 ≤ arrows.numbers.situations },
    ghost some_commands: { 1 ≤ arrows.numbers.commands },
    ghost some_states: { 1 ≤ arrows.states },
}

impl RuleTable {
    /// The house rule and the added rules side by side, each asked once.
    pub fn of<R: Rule, T: Rule>(house: &R, added: &[T]) -> RuleTable
        requires alike { AllByRecursion (Alike (R.Rule.meaning house.now)) (map T.Rule.meaning added.now) }
        requires room { (together (R.Rule.meaning house.now) (map T.Rule.meaning added.now)).states ≤ 16 }
        ensures { Agrees (automaton result.arrows) (together (R.Rule.meaning house.now) (map T.Rule.meaning added.now)) }
    {
        let arrows = gather(house, added);
        RuleTable { arrows }
    }
}

impl Rule for RuleTable {
    ghost meaning = { λ t. automaton t.arrows };

    fn situations(&self) -> u8 {
        self.arrows.numbers.situations
    }

    fn commands(&self) -> u8 {
        self.arrows.numbers.commands
    }

    fn states(&self) -> u8 {
        self.arrows.states
    }

    fn starts(&self, state: u8) -> bool {
        self.arrows.flags[state as usize].starts
    }

    fn rejects(&self, state: u8) -> bool {
        self.arrows.flags[state as usize].rejects
    }

    fn follows(&self, state: u8, command: u8, situation: u8, follower: u8) -> bool {
        self.arrows.follows(state, command, situation, follower)
    }
}
