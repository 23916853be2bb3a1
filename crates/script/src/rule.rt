//! The rules that a script can write, as one type.
ghost use Rattle.std.specs.Prelude.{◌≡◌, ◌+◌, max, IfOk};
ghost use Rattle.model.specs.Rules.{pair};
ghost use Rattle.script.specs.Meaning.{meaning_of, depth};

use rules::{Free, Reply, Rule};
use std::alloc::{AllocError, Global};

#[derive(Drop)]
pub enum AnyRule {
    Free(Free),
    Reply(Reply),
    Pair(Box<rules::Pair<AnyRule, AnyRule>>),
}

impl AnyRule {
    /// The pair of two rules.
    pub fn pair(heap: Global, first: AnyRule, second: AnyRule) -> Result<AnyRule, AllocError>
        ensures meaning { IfOk result (λ a. meaning_of a ≡ pair (meaning_of first) (meaning_of second)) }
        ensures depth { IfOk result (λ a. depth a ≡ max (depth first) (depth second) + 1) }
    {
        Ok(AnyRule::Pair(Box::new(heap, rules::Pair::new(first, second))?))
    }
}

// One match for each question: what would hand out the rule within would hand out a dyn.

impl Rule for AnyRule {
    ghost meaning = { meaning_of };

    #[cycle(any_rule)]
    fn situations(&self) -> u8 {
        match self {
            AnyRule::Free(free) => free.situations(),
            AnyRule::Reply(reply) => reply.situations(),
            AnyRule::Pair(pair) => pair.situations(),
        }
    }

    #[cycle(any_rule)]
    fn commands(&self) -> u8 {
        match self {
            AnyRule::Free(free) => free.commands(),
            AnyRule::Reply(reply) => reply.commands(),
            AnyRule::Pair(pair) => pair.commands(),
        }
    }

    #[cycle(any_rule)]
    fn states(&self) -> u8 {
        match self {
            AnyRule::Free(free) => free.states(),
            AnyRule::Reply(reply) => reply.states(),
            AnyRule::Pair(pair) => pair.states(),
        }
    }

    #[cycle(any_rule)]
    fn starts(&self, state: u8) -> bool {
        match self {
            AnyRule::Free(free) => free.starts(state),
            AnyRule::Reply(reply) => reply.starts(state),
            AnyRule::Pair(pair) => pair.starts(state),
        }
    }

    #[cycle(any_rule)]
    fn rejects(&self, state: u8) -> bool {
        match self {
            AnyRule::Free(free) => free.rejects(state),
            AnyRule::Reply(reply) => reply.rejects(state),
            AnyRule::Pair(pair) => pair.rejects(state),
        }
    }

    #[cycle(any_rule)]
    fn follows(&self, state: u8, command: u8, situation: u8, follower: u8) -> bool {
        match self {
            AnyRule::Free(free) => free.follows(state, command, situation, follower),
            AnyRule::Reply(reply) => reply.follows(state, command, situation, follower),
            AnyRule::Pair(pair) => pair.follows(state, command, situation, follower),
        }
    }
}
