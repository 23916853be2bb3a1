//! What a read rule answers. A blank one means free, with one situation and one command.

ghost use Rattle.std.specs.Prelude.{◌≡◌, ◌<◌};
ghost use Rattle.model.specs.Text.{rule_meaning, blank};
ghost use Rattle.ruletext.specs.View.{view, name_of, is_blank};

use crate::rule::ReadRule;
use rules::Rule;

impl ReadRule {
    /// A blank one.
    pub fn blank() -> ReadRule
        ensures { view result ≡ blank }
    {
        ReadRule { whole: None }
    }

    /// Whether it is blank.
    pub fn is_blank(&self) -> bool
        ensures { result ≡ is_blank (view self.now) }
    {
        self.whole.is_none()
    }

    /// The name, as written; a blank one has none.
    pub fn name(&self) -> &[u8]
        ensures { result.now ≡ name_of (view self.now) }
    {
        match &self.whole {
            Some(rule) => rule.name.as_slice(),
            None => &[],
        }
    }
}

// One match for each question: a blank rule answers each by itself, and has no part to hand out.

impl Rule for ReadRule {
    ghost meaning = { λ r. rule_meaning (view r) };

    fn situations(&self) -> u8 {
        match &self.whole {
            Some(rule) => rule.numbers.situations,
            None => 1,
        }
    }

    fn commands(&self) -> u8 {
        match &self.whole {
            Some(rule) => rule.numbers.commands,
            None => 1,
        }
    }

    fn states(&self) -> u8 {
        match &self.whole {
            Some(rule) => rule.states.count,
            None => 1,
        }
    }

    fn starts(&self, state: u8) -> bool {
        match &self.whole {
            Some(rule) => state == rule.states.start,
            None => true,
        }
    }

    fn rejects(&self, state: u8) -> bool {
        match &self.whole {
            Some(rule) => rule.table.rejecting.contains(state),
            None => false,
        }
    }

    fn follows(&self, state: u8, command: u8, situation: u8, follower: u8) -> bool {
        match &self.whole {
            Some(rule) => rule.table.follows(state, command, situation, follower),
            None => true,
        }
    }
}
