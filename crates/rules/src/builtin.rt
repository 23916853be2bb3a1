//! The built-in rules.
ghost use Rattle.std.specs.Prelude.{◌≡◌};
ghost use Rattle.model.specs.Rules.{free, reply};

use crate::numbers::Numbers;
use crate::rule::Rule;

/// Free: one state, which starts, is not rejecting and always follows itself.
#[derive(Clone, Copy, Debug, PartialEq, Eq)]
pub struct Free {
    numbers: Numbers,
}

// Two numbers and no `Numbers`, here and at reply: any may be given, and the nearest are taken.

impl Free {
    /// Of numbers outside 1 to 8 the nearest inside is taken.
    pub fn new(situations: u8, commands: u8) -> Free
        ensures { free result.numbers.situations result.numbers.commands ≡ free situations commands }
    {
        Free {
            numbers: Numbers::nearest(situations, commands),
        }
    }
}

impl Rule for Free {
    ghost meaning = { λ f. free f.numbers.situations f.numbers.commands };

    fn situations(&self) -> u8 {
        self.numbers.situations
    }

    fn commands(&self) -> u8 {
        self.numbers.commands
    }

    fn states(&self) -> u8 {
        1
    }

    fn starts(&self, _state: u8) -> bool {
        true
    }

    fn rejects(&self, _state: u8) -> bool {
        false
    }

    fn follows(&self, _state: u8, _command: u8, _situation: u8, _follower: u8) -> bool {
        true
    }
}

/// Reply of one situation by one command: state 0 starts and always follows itself; state 1 is rejecting, follows 0 in that
/// situation, and follows itself under every command but that one.
#[derive(Clone, Copy, Debug, PartialEq, Eq)]
pub struct Reply {
    numbers: Numbers,
    situation: u8,
    command: u8,
}

impl Reply {
    /// Of numbers of situations or commands outside 1 to 8 the nearest inside is taken; the situation and the command are taken as
    /// they are.
    pub fn new(situations: u8, commands: u8, situation: u8, command: u8) -> Reply
        ensures { reply result.numbers.situations result.numbers.commands result.situation result.command ≡ reply situations commands situation command }
    {
        Reply {
            numbers: Numbers::nearest(situations, commands),
            situation,
            command,
        }
    }
}

impl Rule for Reply {
    ghost meaning = { λ f. reply f.numbers.situations f.numbers.commands f.situation f.command };

    fn situations(&self) -> u8 {
        self.numbers.situations
    }

    fn commands(&self) -> u8 {
        self.numbers.commands
    }

    fn states(&self) -> u8 {
        2
    }

    fn starts(&self, state: u8) -> bool {
        state == 0
    }

    fn rejects(&self, state: u8) -> bool {
        state == 1
    }

    fn follows(&self, state: u8, command: u8, situation: u8, follower: u8) -> bool {
        if state == 0 {
            follower == 0 || follower == 1 && situation == self.situation
        } else {
            follower == 1 && command != self.command
        }
    }
}
