//! One rule of any two.
ghost use Rattle.std.specs.Prelude.{◌≡◌};
ghost use Rattle.model.specs.Rules.{pair};

use crate::rule::Rule;

/// The pair of two rules: the states of the first, then those of the second, the first 255 of them. Situations and commands are the
/// smaller of the two numbers. No state of one part follows a state of the other.
#[derive(Clone, Copy, Debug, PartialEq, Eq)]
pub struct Pair<X, Y> {
    pub first: X,
    pub second: Y,
}

impl<X, Y> Pair<X, Y> {
    pub fn new(first: X, second: Y) -> Pair<X, Y>
        ensures { (result.first ≡ first) × (result.second ≡ second) }
    {
        Pair { first, second }
    }
}

impl<X: Rule, Y: Rule> Rule for Pair<X, Y> {
    ghost meaning = { λ r. pair (X.Rule.meaning r.first) (Y.Rule.meaning r.second) };

    fn situations(&self) -> u8 {
        self.first.situations().min(self.second.situations())
    }

    fn commands(&self) -> u8 {
        self.first.commands().min(self.second.commands())
    }

    fn states(&self) -> u8 {
        self.first.states().saturating_add(self.second.states())
    }

    // Starts, rejects and follows ask the part that has the state each another question: one function with a closure is no plainer.
    fn starts(&self, state: u8) -> bool {
        let n = self.first.states();
        if state < n {
            self.first.starts(state)
        } else {
            self.second.starts(state - n)
        }
    }

    fn rejects(&self, state: u8) -> bool {
        let n = self.first.states();
        if state < n {
            self.first.rejects(state)
        } else {
            self.second.rejects(state - n)
        }
    }

    fn follows(&self, state: u8, command: u8, situation: u8, follower: u8) -> bool {
        let n = self.first.states();
        if state < n {
            follower < n && self.first.follows(state, command, situation, follower)
        } else {
            follower >= n
                && self
                    .second
                    .follows(state - n, command, situation, follower - n)
        }
    }
}
