//! The rejecting states and the arrows of a rule, as tables.

ghost use Rattle.std.specs.Prelude.{◌≡◌, ℕ, ◌<◌, ◌≤◌, true, false, ◌&&◌, ◌||◌, nat_lt};
ghost use Rattle.model.specs.Text.{among, has_arrow};
ghost use Rattle.ruletext.specs.Lines.{states_in, picked, arrows_of};
ghost use Rattle.ruletext.specs.Ranges.{below};
ghost use Rattle.ruletext.specs.Tables.{names, has_state, in_situation, by_command, arrow, taken, Adds};

use crate::line::{Arrows, Choice};
use crate::range::value;

/// Some of the states.
#[derive(Clone, Copy)]
pub struct StateSet {
    pub has: [bool; 8],
}

impl StateSet {
    /// The states that the words name.
    pub fn of(words: &[[u8; 2]]) -> StateSet
        ensures named { (p : ℕ) → p < 8 → has_state result p ≡ names words.now p }
        ensures none { (p : ℕ) → 8 ≤ p → has_state result p ≡ false }
    {
        let mut has = [false; 8];
        for word in words {
            let state = value(word[1]) as usize;
            if state < 8 {
                has[state] = true;
            }
        }
        StateSet { has }
    }

    /// Whether a state is one of them.
    pub fn contains(&self, state: u8) -> bool
        requires { state < 8 }
        ensures { result ≡ has_state self.now state }
    {
        self.has[state as usize]
    }

    /// Those of either.
    pub fn union(self, other: StateSet) -> StateSet
        ensures { (p : ℕ) → p < 8 → has_state result p ≡ (has_state self p || has_state other p) }
    {
        StateSet {
            has: std::array::from_fn(|p| self.has[p] | other.has[p]),
        }
    }
}

// A struct for each row: a literal of a struct with an array of arrays in it gets no proof.

/// The states that follow in each situation.
#[derive(Clone, Copy)]
pub struct BySituation {
    pub situations: [StateSet; 8],
}

// By number, here and below: of what `iter_mut` lends a proof knows nothing afterwards.

impl BySituation {
    // Adds the states, in each situation that is chosen.
    fn add(&mut self, chosen: Choice, count: u8, states: StateSet)
        requires { count ≤ 8 }
        ensures { (x p : ℕ) → x < 8 → p < 8 → in_situation self.new x p ≡ (in_situation self.old x p || ((nat_lt x count && taken (picked chosen) x) && has_state states p)) }
    {
        for x in 0..count {
            if chosen.takes(x) {
                let followers = &mut self.situations[x as usize];
                *followers = followers.union(states);
            }
        }
    }
}

/// The states that follow under each command, in each situation.
#[derive(Clone, Copy)]
pub struct ByCommand {
    pub commands: [BySituation; 8],
}

impl ByCommand {
    // Adds the states, under each command and in each situation that the line names.
    fn add(&mut self, line: Arrows, situations: u8, commands: u8, states: StateSet)
        requires { (commands ≤ 8) × (situations ≤ 8) }
        ensures { (u x p : ℕ) → u < 8 → x < 8 → p < 8 → by_command self.new u x p ≡ (by_command self.old u x p || ((nat_lt u commands && taken (picked line.entry.command) u) && ((nat_lt x situations && taken (picked line.entry.situation) x) && has_state states p))) }
    {
        for u in 0..commands {
            if line.command.takes(u) {
                self.commands[u as usize].add(line.situation, situations, states);
            }
        }
    }
}

/// Which states reject, and which arrows lead from each state.
#[derive(Drop)]
pub struct Table {
    pub rejecting: StateSet,
    pub arrows: [ByCommand; 8],
}

impl Table {
    /// No rejecting state, and no arrow.
    pub fn new() -> Table
        ensures { ((p : ℕ) → has_state result.rejecting p ≡ false) × ((q u x p : ℕ) → arrow result.arrows q u x p ≡ false) }
    {
        let none = StateSet { has: [false; 8] };
        let in_situations = BySituation {
            situations: [none; 8],
        };
        let under_commands = ByCommand {
            commands: [in_situations; 8],
        };
        Table {
            rejecting: none,
            arrows: [under_commands; 8],
        }
    }

    /// Whether an arrow leads from a state to its follower, under a command in a situation.
    pub fn follows(&self, state: u8, command: u8, situation: u8, follower: u8) -> bool
        requires { (state < 8) × ((command < 8) × ((situation < 8) × (follower < 8))) }
        ensures { result ≡ arrow self.now.arrows state command situation follower }
    {
        let under = &self.arrows[state as usize].commands[command as usize];
        under.situations[situation as usize].has[follower as usize]
    }

    /// Adds the line's arrows: under each command and in each situation that it names, to all its followers.
    pub fn connect(&mut self, line: Arrows, situations: u8, commands: u8)
        requires fits { (line.from < 8) × ((commands ≤ 8) × (situations ≤ 8)) }
        requires named { (below commands (picked line.command) ≡ true) × (below situations (picked line.situation) ≡ true) }
        ensures added { Adds self.old.arrows self.new.arrows (λ q u x p. has_arrow situations commands q u x p (arrows_of line.entry)) }
        ensures same { self.new.rejecting ≡ self.old.rejecting }
    {
        self.arrows[line.from as usize].add(line, situations, commands, StateSet::of(line.to));
    }
}
