//! How far the lines of a text have come: n, s and r once each, in this order, before all t lines.

ghost use Rattle.std.specs.Prelude.{◌≡◌, ◌+◌, ◌<◌, ◌^◌, length};
ghost use Rattle.model.specs.Reading.{SoFar as Model, nothing};

use crate::line::{Line, first_line};
use crate::name::Name;
use crate::range::{States, outside, outside_arrows};
use crate::table::{StateSet, Table};
use model::fault::LineFault;
use rules::Numbers;

/// The parts of the rule so far, but for its tables.
#[derive(Clone, Copy)]
pub enum SoFar {
    Nothing,
    Named(Name),
    Sized(Name, States),
    Full(Name, States),
}

/// A text that is being read: what its lines state so far, for so many situations and commands, and the number of the next line.
// What the lines state stands in each contract: a ghost field was tried; it keeps that the model has such a state, and not which.
#[derive(Drop)]
pub struct Reading {
    pub numbers: Numbers,
    pub so_far: SoFar,
    pub table: Table,
    pub line: usize,
}

impl Reading {
    ghost use Rattle.ruletext.specs.Lines.{line_of};
    ghost use Rattle.ruletext.specs.declared.so_far.SoFar.TheVariants as so_far;
    ghost use Rattle.ruletext.specs.Standing.{Stands, StandsAt, Steps, Takes, TakesAll};

    /// Before the first line.
    pub fn new(numbers: Numbers) -> Reading
        ensures stands { Stands result nothing }
        ensures first { result.line ≡ 1 }
        ensures numbers { result.numbers ≡ numbers }
    {
        Reading {
            numbers,
            so_far: SoFar::Nothing,
            table: Table::new(),
            line: 1,
        }
    }

    // The line that comes first: an n line.
    fn add_name(&mut self, words: Line) -> Result<(), LineFault>
        ensures { (m : Model) → StandsAt so_far.Nothing self.old m → Steps self.old m (line_of words.entry) self.new result }
    {
        let Line::Name(name) = words else {
            return Err(LineFault::Order { line: self.line });
        };
        self.so_far = SoFar::Named(name);
        Ok(())
    }

    // The line behind the n line: an s line.
    fn add_size(&mut self, name: Name, words: Line) -> Result<(), LineFault>
        ensures { (m : Model) → StandsAt (so_far.Named name) self.old m → Steps self.old m (line_of words.entry) self.new result }
    {
        let Line::Size(size) = words else {
            return Err(LineFault::Order { line: self.line });
        };
        let line = self.line;
        let states = States::of(size).map_err(|byte| LineFault::Range { line, byte })?;
        self.so_far = SoFar::Sized(name, states);
        Ok(())
    }

    // The line behind the s line: an r line.
    fn add_rejecting(&mut self, name: Name, states: States, words: Line) -> Result<(), LineFault>
        ensures { (m : Model) → StandsAt (so_far.Sized name states) self.old m → Steps self.old m (line_of words.entry) self.new result }
    {
        let Line::Rejects(rejects) = words else {
            return Err(LineFault::Order { line: self.line });
        };
        if let Some(byte) = outside(rejects.states, states.count, 2) {
            return Err(LineFault::Range {
                line: self.line,
                byte,
            });
        }
        self.table.rejecting = StateSet::of(rejects.states);
        self.so_far = SoFar::Full(name, states);
        Ok(())
    }

    // Every further line: a t line.
    fn add_arrows(&mut self, name: Name, states: States, words: Line) -> Result<(), LineFault>
        ensures { (m : Model) → StandsAt (so_far.Full name states) self.old m → self.old.so_far ≡ so_far.Full name states → Steps self.old m (line_of words.entry) self.new result }
    {
        let Line::Arrows(arrows) = words else {
            return Err(LineFault::Order { line: self.line });
        };
        if let Some(byte) = outside_arrows(
            arrows,
            states.count,
            self.numbers.situations,
            self.numbers.commands,
        ) {
            return Err(LineFault::Range {
                line: self.line,
                byte,
            });
        }
        self.table
            .connect(arrows, self.numbers.situations, self.numbers.commands);
        Ok(())
    }

    /// One more line, if it comes next and its numbers are in range.
    pub fn add(&mut self, words: Line) -> Result<(), LineFault>
        ensures { (m : Model) → Stands self.old m → Steps self.old m (line_of words.entry) self.new result }
    {
        // One match: each step takes what its state holds.
        match self.so_far {
            SoFar::Nothing => self.add_name(words),
            SoFar::Named(name) => self.add_size(name, words),
            SoFar::Sized(name, states) => self.add_rejecting(name, states, words),
            SoFar::Full(name, states) => self.add_arrows(name, states, words),
        }
    }

    // The first line of the text, which is one more: the text behind it.
    fn take<'a>(&mut self, text: &'a [u8]) -> Result<&'a [u8], LineFault>
        requires room { self.old.line + length text.now < 2 ^ 64 }
        requires stands { (m : Model) × Stands self.old m }
        ensures { (m : Model) → Stands self.old m → Takes self.old m text.now self.new result }
    {
        let (words, rest) = first_line(text, self.line)?;
        self.add(words)?;
        self.line += 1;
        Ok(rest)
    }

    /// What all lines of the text state.
    pub fn of(text: &[u8], numbers: Numbers) -> Result<Reading, LineFault>
        ensures { TakesAll numbers text.now result }
    {
        let mut reading = Reading::new(numbers);
        let mut rest = text;
        while !rest.is_empty() {
            rest = reading.take(rest)?;
        }
        Ok(reading)
    }
}
