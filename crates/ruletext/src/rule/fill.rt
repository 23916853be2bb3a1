//! A rule filled whole from the lines of a text.

ghost use Rattle.std.specs.Prelude.{◌≡◌};
ghost use Rattle.model.specs.Reading.{SoFar as Model, at_end};
ghost use Rattle.ruletext.specs.Standing.{Stands};
ghost use Rattle.ruletext.specs.View.{Gives};

use crate::reach::all_reached;
use crate::rule::{ReadRule, Whole};
use crate::so_far::{Reading, SoFar};
use model::fault::{LineFault, ReadFault};

impl Reading {
    /// The rule that the lines state, if none is missing and every state is reached; the next line is the one behind the last.
    pub fn whole(self) -> Result<ReadRule, ReadFault>
        requires { (m : Model) × Stands self m }
        ensures { (m : Model) → Stands self m → Gives self.numbers.situations self.numbers.commands (at_end self.numbers.situations self.numbers.commands self.line m) result }
    {
        let line = self.line;
        let SoFar::Full(name, states) = self.so_far else {
            return Err(LineFault::Order { line }.into());
        };
        if !all_reached(&self.table, states) {
            return Err(ReadFault::Unreached { line });
        }
        let whole = Whole {
            name,
            numbers: self.numbers,
            states,
            table: self.table,
        };
        Ok(ReadRule { whole: Some(whole) })
    }
}
