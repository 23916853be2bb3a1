//! Write and check: the controller file.

ghost use Rattle.std.specs.Prelude.{◌≡◌, map, Err};
ghost use Rattle.model.specs.declared.refusal.Refusal.{Refusal};
ghost use Rattle.model.specs.Rules.{together};
ghost use Rattle.model.specs.Sheet.{write as write_call, check as check_call, verdict};
ghost use Rattle.synthesis.specs.Tables.{automaton, Agrees};
ghost use Rattle.sheet.specs.Added.{meaning};
ghost use Rattle.sheet.specs.Shows.{Does, written};

use crate::page::Page;
use ctlfile::checking::check;
use ctlfile::writing::write;
use model::refusal::Refusal;
use synthesis::table::RuleTable;

impl Page {
    /// The rules on the page as one.
    #[tactic(auto, using(crate::proofs::Paging::all_alike))]
    fn rules(&self) -> RuleTable
        ensures { Agrees (automaton result.arrows) (together (automaton self.now.table.arrows) (map meaning self.now.added.items)) }
    {
        RuleTable::of(&self.table, self.added.as_slice())
    }

    /// Writes the file of the stored controller at the start of the buffer, leaves later bytes, and gives the length. A refusal leaves the
    /// buffer as it is.
    pub fn write(&self, buffer: &mut [u8]) -> Result<usize, Refusal>
        ensures said { Does self.now (write_call buffer.old) (written result buffer.new) self.now }
        ensures left { (e : Refusal) → result ≡ Err e → buffer.new ≡ buffer.old }
    {
        let Some(stored) = self.stored else {
            return Err(Refusal::NoController);
        };
        let len = stored.found.states;
        let states = &self.workspace.states.as_slice()[0..len];
        write(&self.rules(), states, stored.found.count, buffer)
    }

    /// Looks through a file, and answers its number c if it is accepted.
    pub fn check(&self, file: &[u8]) -> Result<u8, Refusal>
        ensures { Does self.now (check_call file.now) (verdict result) self.now }
    {
        check(&self.rules(), file)
    }
}
