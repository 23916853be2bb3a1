//! What lies on a sheet: the rules, the limit and the controller.

ghost use Rattle.std.specs.Prelude.{◌≡◌, ◌≤◌, true, Some, vec_capacity};
ghost use Rattle.model.specs.Lists.{every};
ghost use Rattle.synthesis.specs.Tables.{automaton};
ghost use Rattle.sheet.specs.Added.{is_for, states_of};
ghost use Rattle.sheet.specs.declared.stored.Stored.{Stored};

use crate::stored::Stored;
use ruletext::ReadRule;
use synthesis::table::RuleTable;
use synthesis::workspace::Workspace;

pub mod adding;
pub mod filing;
pub mod framing;
pub mod opening;
pub mod solving;

/// What lies on a sheet that the look did not refuse: the house rule as a table, the added rules in order, the capacity, the limit, and the
/// controller if one is stored. All rules are for the situations and commands of the house rule, and have at most 16 states together.
#[derive(Drop)]
pub struct Page {
    table: RuleTable,
    added: Vec<ReadRule>,
    capacity: u16,
    limit: u8,
    stored: Option<Stored>,
    workspace: Workspace,
    ghost room: { 4 ≤ vec_capacity added },
    ghost alike: { every (is_for (automaton table.arrows)) added.items ≡ true },
    ghost few_states: { states_of (automaton table.arrows) added.items ≤ 16 },
    ghost some_capacity: { 1 ≤ capacity },
    ghost low_capacity: { capacity ≤ 1024 },
    ghost low_limit: { limit ≤ 14 },
    ghost few_kept: { ((k : Stored) → stored ≡ Some k → k.found.states ≤ 1024) },
}
