//! Whether every state of a rule is reached from its start state, by the search.

ghost use Rattle.std.specs.Prelude.{◌≡◌, ℕ, ◌<◌, ◌≤◌, Decides, ◌==◌};
ghost use Rattle.std.specs.List.{list_any, range_with_len};
ghost use Rattle.model.specs.ReadingLaws.{AllReached};
ghost use Rattle.ruletext.specs.Tables.{arrow, led, follower, Within, automaton};

use crate::range::States;
use crate::table::Table;
use search::breadth_first::explore;
use search::graph::Graph;

// Whether an arrow leads from one state to the other, under the command in some situation.
fn leads_under(table: &Table, command: u8, from: u8, to: u8) -> bool
    requires { (command < 8) × ((from < 8) × (to < 8)) }
    ensures { result ≡ list_any (λ x. arrow table.now.arrows from command x to) (range_with_len 0 8) }
{
    (0..8).any(|situation| table.follows(from, command, situation, to))
}

// Whether an arrow leads from one state to the other, under some command in some situation.
fn leads(table: &Table, from: u8, to: u8) -> bool
    requires { (from < 8) × (to < 8) }
    ensures { result ≡ led table.now.arrows from to }
{
    (0..8).any(|command| leads_under(table, command, from, to))
}

// The states of a rule as a graph, by its arrows: a state leads to each that follows it, under some command in some situation.
#[derive(Clone, Copy)]
struct StateGraph<'a> {
    table: &'a Table,
}

impl Graph for StateGraph<'_> {
    type Node = u8;

    ghost same = { λ g a b. (a == b) };

    ghost degree = { λ g. 8 };

    ghost successor = { λ g q p. follower g.table.now.arrows q p };

    fn same(&self, a: &u8, b: &u8) -> bool {
        *a == *b
    }

    fn degree(&self) -> usize {
        8
    }

    fn successor(&self, node: &u8, i: usize) -> Option<u8> {
        let to = i as u8;
        if *node < 8 && leads(self.table, *node, to) {
            Some(to)
        } else {
            None
        }
    }
}

/// Whether every state is reached from the start state.
pub fn all_reached(table: &Table, states: States) -> bool
    ensures { (S C : ℕ) → Within S C states.count table.now.arrows → Decides result (AllReached (automaton S C states.count states.start table.now.rejecting table.now.arrows)) }
{
    let graph = StateGraph { table };
    let mut met = [0; 8];
    let mut waiting = [0; 8];
    let mut links = [None; 64];
    match explore(&graph, &states.start, &mut met, &mut waiting, &mut links) {
        Some(n) => n == states.count as usize,
        None => false,
    }
}
