//! Add, withdraw and limit. Each, when accepted, discards the stored controller.

ghost use Rattle.std.specs.Prelude.{◌≡◌, ◌<◌, not, sum_by, vec_capacity};
ghost use Rattle.std.specs.List.{filter};
ghost use Rattle.model.specs.Sheet.{add as add_call, withdraw as withdraw_call, limit as limit_call};
ghost use Rattle.ruletext.specs.View.{view};
ghost use Rattle.synthesis.specs.Tables.{automaton};
ghost use Rattle.sheet.specs.Added.{meaning, has_that_name, states_of, admission};
ghost use Rattle.sheet.specs.Shows.{Does, settled};

use crate::names::{has_name, same_name};
use crate::page::Page;
use model::refusal::Refusal;
use rules::{Numbers, Rule};
use ruletext::ReadRule;

/// Takes out the rules of the name, and closes the gap.
fn remove_named(rules: &mut Vec<ReadRule>, name: &[u8])
    ensures items { rules.new.items ≡ filter (λ r. not (has_that_name name.now r)) rules.old.items }
    ensures capacity { vec_capacity rules.new ≡ vec_capacity rules.old }
{
    rules.retain(|rule| !same_name(name, rule.name()));
}

/// How many states the rules have together.
fn states_together(rules: &[ReadRule]) -> u8
    requires { sum_by (λ r. (meaning r).states) rules.now < 256 }
    ensures { result ≡ sum_by (λ r. (meaning r).states) rules.now }
{
    rules.iter().map(|rule| rule.states()).sum()
}

impl Page {
    /// How many states the rules have together.
    #[tactic(auto, using(crate::proofs::Listed::states_sum))]
    fn states(&self) -> u8
        ensures { result ≡ states_of (automaton self.now.table.arrows) self.now.added.items }
    {
        self.table.states() + states_together(&self.added)
    }

    /// Whether the rule may be added, and why not.
    #[tactic(auto, unfolding(crate::specs::Added::admission))]
    fn admits(&self, rule: &ReadRule) -> Result<(), Refusal>
        ensures { result ≡ admission (automaton self.now.table.arrows) self.now.added.items (view rule.now) }
    {
        if rule.is_blank() || Numbers::of(rule) != Numbers::of(&self.table) {
            return Err(Refusal::UnlikeRule);
        }
        if has_name(&self.added, rule.name()) {
            return Err(Refusal::NameTaken);
        }
        if self.added.len() >= 4 || rule.states() > 16 - self.states() {
            return Err(Refusal::NoRoom);
        }
        Ok(())
    }

    /// Adds the rule behind the others. The rule is used up, also if it is refused.
    #[tactic(auto, using(crate::proofs::Listed::every_push, crate::proofs::Listed::states_push), unfolding(crate::specs::Added::admission))]
    pub fn add(&mut self, rule: ReadRule) -> Result<(), Refusal>
        ensures { Does self.old (add_call (view rule)) (settled result) self.new }
    {
        self.admits(&rule)?;
        self.stored = None;
        self.added.push_reserved(rule);
        Ok(())
    }

    /// Takes the rule of the name out, and closes the gap.
    #[tactic(auto, using(crate::proofs::Listed::every_kept, crate::proofs::Listed::states_kept))]
    pub fn withdraw(&mut self, name: &[u8]) -> Result<(), Refusal>
        ensures { Does self.old (withdraw_call name.now) (settled result) self.new }
    {
        if !has_name(&self.added, name) {
            return Err(Refusal::NoSuchName);
        }
        self.stored = None;
        remove_named(&mut self.added, name);
        Ok(())
    }

    /// Sets the limit, 0 to 14.
    pub fn limit(&mut self, limit: u8) -> Result<(), Refusal>
        ensures { Does self.old (limit_call limit) (settled result) self.new }
    {
        if limit > 14 {
            return Err(Refusal::OverLimit);
        }
        self.stored = None;
        self.limit = limit;
        Ok(())
    }
}
