//! A page with the house rule alone.

ghost use Rattle.std.specs.Prelude.{◌≤◌};
ghost use Rattle.model.specs.Sheet.{opened};
ghost use Rattle.sheet.specs.Shows.{Shows};

use crate::memory::Memory;
use crate::page::Page;
use rules::Rule;
use ruletext::ReadRule;
use synthesis::table::RuleTable;

impl Page {
    /// The house rule, asked once, with no rule added, limit 14 and no controller.
    pub fn new<R: Rule>(house: &R, capacity: u16, memory: Memory) -> Page
        requires states { (R.Rule.meaning house.now).states ≤ 12 }
        requires capacity { (1 ≤ capacity) × (capacity ≤ 1024) }
        ensures { Shows result (opened (R.Rule.meaning house.now) (R.Rule.meaning house.now).situations (R.Rule.meaning house.now).commands capacity) }
    {
        let Memory { workspace, added } = memory;
        let none: [ReadRule; 0] = [];
        Page {
            table: RuleTable::of(house, &none),
            added,
            capacity,
            limit: 14,
            stored: None,
            workspace,
        }
    }
}
