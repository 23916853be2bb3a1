//! How many situations and commands there are.
ghost use Rattle.std.specs.Prelude.{◌≡◌, ◌≤◌, MatchOption};
ghost use Rattle.model.specs.ReadingLaws.{NumbersGood};
ghost use Rattle.model.specs.Rules.{nearest};

use crate::rule::Rule;

/// Numbers of situations and of commands, each 1 to 8.
#[derive(Clone, Copy, Debug, PartialEq, Eq)]
pub struct Numbers {
    pub situations: u8,
    pub commands: u8,
    ghost good: { NumbersGood situations commands },
}

impl Numbers {
    /// Of a number outside 1 to 8, the nearest inside.
    pub fn nearest(situations: u8, commands: u8) -> Numbers
        ensures situations { result.situations ≡ nearest situations }
        ensures commands { result.commands ≡ nearest commands }
    {
        Numbers {
            situations: situations.clamp(1, 8),
            commands: commands.clamp(1, 8),
        }
    }

    /// The numbers, if both are 1 to 8.
    pub fn within(situations: u8, commands: u8) -> Option<Numbers>
        ensures { MatchOption result (NumbersGood situations commands → ⊥) (λ n. (n.situations ≡ situations) × (n.commands ≡ commands)) }
    {
        if (1..=8).contains(&situations) && (1..=8).contains(&commands) {
            Some(Numbers {
                situations,
                commands,
            })
        } else {
            None
        }
    }

    /// Those of a rule.
    pub fn of<R: Rule>(rule: &R) -> Numbers
        ensures situations { result.situations ≡ (R.Rule.meaning rule.now).situations }
        ensures commands { result.commands ≡ (R.Rule.meaning rule.now).commands }
    {
        Numbers {
            situations: rule.situations(),
            commands: rule.commands(),
        }
    }
}
