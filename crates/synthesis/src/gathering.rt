//! The table of rules side by side, made by asking each rule each question once.

ghost use Rattle.std.specs.Prelude.{◌≡◌, ℕ, ◌+◌, ◌<◌, ◌≤◌, map, slice_index_or};
ghost use Rattle.std.specs.List.{AllByRecursion};
ghost use Rattle.model.specs.Rules.{beside as rule_beside, together};
ghost use Rattle.synthesis.specs.Tables.{automaton, Agrees, Alike, Joins, no_flags, no_replies, flags_of, Into, Moving, Replying, SolvesAlike};

use crate::arrows::{Arrows, Flags, Moves, Replies, Sources};
use crate::pruning::Numbers;
use rules::Rule;
use std::array;

const NO_FLAGS: Flags = Flags {
    starts: false,
    rejects: false,
};

const NO_SOURCES: Sources = Sources {
    states: [false; 16],
};

const NO_MOVES: Moves = Moves {
    into: [NO_SOURCES; 16],
};

const NO_REPLIES: Replies = Replies {
    moves: [NO_MOVES; 8],
};

impl Arrows {
    /// The table of no rule.
    fn empty(numbers: Numbers) -> Arrows
        ensures numbers { result.numbers ≡ numbers }
        ensures states { result.states ≡ 0 }
    {
        Arrows {
            numbers,
            states: 0,
            flags: [NO_FLAGS; 16],
            replies: [NO_REPLIES; 8],
        }
    }

    /// Whether the state follows: the table's answer.
    pub fn follows(&self, state: u8, command: u8, situation: u8, follower: u8) -> bool
        requires known_command { command < self.now.numbers.commands }
        requires known_situation { situation < self.now.numbers.situations }
        requires known_states { (state < self.now.states) × (follower < self.now.states) }
        ensures { result ≡ (automaton self.now).follows state command situation follower }
    {
        self.replies[command as usize].moves[situation as usize].into[follower as usize].states[state as usize]
    }
}

/// A table, and a rule that joins it: a rule with its numbers of situations and commands, and there is room for its states.
#[derive(Drop)]
struct Beside<'a, R: Rule> {
    arrows: &'a Arrows,
    rule: &'a R,
    ghost joins: { Joins arrows.now (R.Rule.meaning rule.now) },
}

impl<R: Rule> Beside<'_, R> {
    // Not by `rules::Pair`: a rule has a state, and the table of no rule has none.
    /// Whether the follower follows the state, with the rule beside those of the table. False, where one of the numbers is too large.
    fn follows(&self, state: u8, command: u8, situation: u8, follower: u8) -> bool
        ensures { command < self.now.arrows.now.numbers.commands → situation < self.now.arrows.now.numbers.situations → state < self.now.arrows.now.states + (R.Rule.meaning self.now.rule.now).states → follower < self.now.arrows.now.states + (R.Rule.meaning self.now.rule.now).states → result ≡ (rule_beside (automaton self.now.arrows.now) (R.Rule.meaning self.now.rule.now)).follows state command situation follower }
    {
        let n = self.arrows.states;
        let all = n + self.rule.states();
        if command >= self.arrows.numbers.commands
            || situation >= self.arrows.numbers.situations
            || state >= all
            || follower >= all
        {
            return false;
        }
        if state < n {
            follower < n && self.arrows.follows(state, command, situation, follower)
        } else {
            follower >= n
                && self
                    .rule
                    .follows(state - n, command, situation, follower - n)
        }
    }

    // This one, the next two and the loop of `Arrows::beside` go by number, and as far as the numbers go: `from_fn` asks for every place, and hands
    // arrays of up to 16 KiB on by value.

    /// What the follower follows, with the rule beside those of the table.
    fn sources(&self, command: u8, situation: u8, follower: u8) -> Sources
        ensures { command < self.now.arrows.now.numbers.commands → situation < self.now.arrows.now.numbers.situations → follower < self.now.arrows.now.states + (R.Rule.meaning self.now.rule.now).states → Into (rule_beside (automaton self.now.arrows.now) (R.Rule.meaning self.now.rule.now)) command situation follower result }
    {
        let mut states = [false; 16];
        for state in 0..self.arrows.states + self.rule.states() {
            states[state as usize] = self.follows(state, command, situation, follower);
        }
        Sources { states }
    }

    /// The moves under a command in a situation.
    fn moves(&self, command: u8, situation: u8) -> Moves
        ensures { command < self.now.arrows.now.numbers.commands → situation < self.now.arrows.now.numbers.situations → Moving (rule_beside (automaton self.now.arrows.now) (R.Rule.meaning self.now.rule.now)) command situation result }
    {
        let mut into = [NO_SOURCES; 16];
        for follower in 0..self.arrows.states + self.rule.states() {
            into[follower as usize] = self.sources(command, situation, follower);
        }
        Moves { into }
    }

    /// The moves under a command in every situation.
    fn replies(&self, command: u8) -> Replies
        ensures { command < self.now.arrows.now.numbers.commands → Replying (rule_beside (automaton self.now.arrows.now) (R.Rule.meaning self.now.rule.now)) command result }
    {
        let mut moves = [NO_MOVES; 8];
        for situation in 0..self.arrows.numbers.situations {
            moves[situation as usize] = self.moves(command, situation);
        }
        Replies { moves }
    }

    /// Whether a state starts and is rejecting, with the rule beside those of the table. Neither, behind the last state.
    fn flags(&self, state: u8) -> Flags
        ensures { state < self.now.arrows.now.states + (R.Rule.meaning self.now.rule.now).states → result ≡ flags_of (rule_beside (automaton self.now.arrows.now) (R.Rule.meaning self.now.rule.now)) state }
    {
        let n = self.arrows.states;
        if state < n {
            self.arrows.flags[state as usize]
        } else if state - n < self.rule.states() {
            Flags {
                starts: self.rule.starts(state - n),
                rejects: self.rule.rejects(state - n),
            }
        } else {
            NO_FLAGS
        }
    }

    /// Which states start, and which are rejecting.
    fn all_flags(&self) -> [Flags; 16]
        ensures { (q : ℕ) → q < self.now.arrows.now.states + (R.Rule.meaning self.now.rule.now).states → slice_index_or result q no_flags ≡ flags_of (rule_beside (automaton self.now.arrows.now) (R.Rule.meaning self.now.rule.now)) q }
    {
        array::from_fn(|state| self.flags(state as u8))
    }
}

impl Arrows {
    /// The rules of the table, and one more beside them.
    fn beside<R: Rule>(&self, rule: &R) -> Arrows
        requires joins { Joins self.now (R.Rule.meaning rule.now) }
        ensures agrees { Agrees (automaton result) (rule_beside (automaton self.now) (R.Rule.meaning rule.now)) }
        ensures some { 0 < result.states }
    {
        let beside = Beside { arrows: self, rule };
        let flags = beside.all_flags();
        let mut replies = [NO_REPLIES; 8];
        for command in 0..self.numbers.commands {
            replies[command as usize] = beside.replies(command);
        }
        Arrows {
            numbers: self.numbers,
            states: self.states + rule.states(),
            flags,
            replies,
        }
    }
}

// That the rules fit together is asked here, at `solve` and at `RuleTable::of`: they come as two lists, and a struct would lend both again.

/// The rules side by side: the house rule, then the added ones in order. They have the same numbers of situations and commands, and
/// at most 16 states in all.
pub fn gather<R: Rule, T: Rule>(house: &R, added: &[T]) -> Arrows
    requires alike { AllByRecursion (Alike (R.Rule.meaning house.now)) (map T.Rule.meaning added.now) }
    requires room { (together (R.Rule.meaning house.now) (map T.Rule.meaning added.now)).states ≤ 16 }
    ensures agrees { Agrees (automaton result) (together (R.Rule.meaning house.now) (map T.Rule.meaning added.now)) }
    ensures some { (0 < result.numbers.situations) × (0 < result.numbers.commands) × (0 < result.states) }
{
    let numbers = Numbers {
        commands: house.commands(),
        situations: house.situations(),
    };
    let mut arrows = Arrows::empty(numbers).beside(house);
    for rule in added {
        arrows = arrows.beside(rule);
    }
    arrows
}

/// Where a table agrees with rules, solve comes to the same for both.
pub fn agreement_stands()
    ensures { SolvesAlike }
{}
