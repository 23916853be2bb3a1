//! Lists of a rule's states.
ghost use Rattle.std.specs.Prelude.{◌≡◌, ◌<◌, filter, IfOk};
ghost use Rattle.std.specs.List.{range_with_len};

use crate::rule::Rule;
use std::alloc::{AllocError, Global};

// Three functions: each contract names another question of the rule.

/// The states that start, ascending.
pub fn start_states<R: Rule>(heap: Global, rule: &R) -> Result<Vec<u8>, AllocError>
    ensures { IfOk result (λ v. v.items ≡ filter (R.Rule.meaning rule.now).start (range_with_len 0 (R.Rule.meaning rule.now).states)) }
{
    (0..rule.states())
        .filter(|state| rule.starts(*state))
        .collect(heap)
}

/// The rejecting states, ascending.
pub fn rejecting_states<R: Rule>(heap: Global, rule: &R) -> Result<Vec<u8>, AllocError>
    ensures { IfOk result (λ v. v.items ≡ filter (R.Rule.meaning rule.now).reject (range_with_len 0 (R.Rule.meaning rule.now).states)) }
{
    (0..rule.states())
        .filter(|state| rule.rejects(*state))
        .collect(heap)
}

/// The states that follow a state under a command in a situation, ascending.
pub fn followers<R: Rule>(
    heap: Global,
    rule: &R,
    state: u8,
    command: u8,
    situation: u8,
) -> Result<Vec<u8>, AllocError>
    requires known_state { state < (R.Rule.meaning rule.now).states }
    requires known_command { command < (R.Rule.meaning rule.now).commands }
    requires known_situation { situation < (R.Rule.meaning rule.now).situations }
    ensures { IfOk result (λ v. v.items ≡ filter ((R.Rule.meaning rule.now).follows state command situation) (range_with_len 0 (R.Rule.meaning rule.now).states)) }
{
    (0..rule.states())
        .filter(|follower| rule.follows(state, command, situation, *follower))
        .collect(heap)
}
