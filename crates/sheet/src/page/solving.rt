//! Solve: the controller of the least count for the rules on the page.

ghost use Rattle.model.specs.Sheet.{solve as solve_call};
ghost use Rattle.sheet.specs.Shows.{Does, solution};

use crate::page::Page;
use crate::page::framing::command_at;
use crate::stored::{Solution, Stored};
use model::refusal::Refusal;
use synthesis::solving::solve;

impl Page {
    /// Discards the stored controller, and stores one of the least count, in its state 0.
    #[tactic(auto, using(crate::proofs::Paging::all_alike))]
    pub fn solve(&mut self) -> Result<Solution, Refusal>
        ensures { Does self.old solve_call (solution result) self.new }
    {
        self.stored = None;
        let found = solve(
            &self.table,
            self.added.as_slice(),
            self.capacity as usize,
            self.limit,
            &mut self.workspace,
        )?;
        self.stored = Some(Stored { found, current: 0 });
        let states = found.states;
        Ok(Solution {
            count: found.count,
            states,
            command: command_at(&self.workspace.states.as_slice()[0..states], 0),
        })
    }
}
