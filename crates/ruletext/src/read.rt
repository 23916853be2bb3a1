//! A text read line by line.

ghost use Rattle.std.specs.Prelude.{◌≡◌};
ghost use Rattle.model.specs.Reading.{read as model_read, rule_left};
ghost use Rattle.ruletext.specs.View.{Gives, told, view};

use crate::rule::ReadRule;
use crate::so_far::Reading;
use model::fault::ReadFault;
use rules::Numbers;

// The rule that the text states.
// Two bytes and no `Numbers`: any may be given, and are refused here.
fn rule_of(text: &[u8], situations: u8, commands: u8) -> Result<ReadRule, ReadFault>
    ensures { Gives situations commands (model_read situations commands text.now) result }
{
    let Some(numbers) = Numbers::within(situations, commands) else {
        return Err(ReadFault::Numbers);
    };
    if text.is_empty() || text.len() > 4096 {
        return Err(ReadFault::Length);
    }
    Reading::of(text, numbers)?.whole()
}

/// Fills the rule with the one that the text states for so many situations and commands; or says what is wrong with the text,
/// and leaves the rule blank.
pub fn read(text: &[u8], situations: u8, commands: u8, rule: &mut ReadRule) -> Result<(), ReadFault>
    ensures said { result ≡ told (model_read situations commands text.now) }
    ensures left { view rule.new ≡ rule_left situations commands text.now }
{
    match rule_of(text, situations, commands) {
        Ok(filled) => {
            *rule = filled;
            Ok(())
        }
        Err(fault) => {
            *rule = ReadRule::blank();
            Err(fault)
        }
    }
}
