//! What the program prints, line by line.

ghost use Rattle.std.specs.Prelude.{Some};
ghost use Rattle.ragtimuwen.specs.Printed.{heading, spaced, refused, not_generated};

use model::fault::ReadFault;
use model::number::TextPlace;
use model::refusal::Refusal;
use rules::Rule;
use std::fmt;

/// The numbers of a rule.
#[derive(Drop)]
pub struct Heading<'a, R>(pub &'a R);

impl<R: Rule> fmt::Display for Heading<'_, R> {
    ghost output = { λ h. Some (heading (R.Rule.meaning h.0.now)) };

    fn fmt<W: fmt::Write>(&self, f: &mut fmt::Formatter<W>) -> fmt::Result {
        let situations = self.0.situations();
        let commands = self.0.commands();
        let states = self.0.states();
        write!(
            f,
            "rule situations {situations} commands {commands} states {states}"
        )
    }
}

/// Values with a space before each.
#[derive(Drop)]
pub struct Spaced<'a, T>(pub &'a [T]);

impl<T: fmt::Display> fmt::Display for Spaced<'_, T> {
    ghost output = { λ s. spaced T.output s.0.now };

    fn fmt<W: fmt::Write>(&self, f: &mut fmt::Formatter<W>) -> fmt::Result {
        for value in self.0 {
            write!(f, " {value}")?;
        }
        Ok(())
    }
}

/// Why a text is not read: the number of the refusal, and its place if it has one.
#[derive(Clone, Copy)]
pub struct Unread(pub ReadFault);

impl fmt::Display for Unread {
    ghost output = { λ u. Some (refused u.0) };

    fn fmt<W: fmt::Write>(&self, f: &mut fmt::Formatter<W>) -> fmt::Result {
        let number = self.0.number();
        match self.0.place() {
            Some(TextPlace { line, byte }) => {
                write!(f, "read refused {number} line {line} byte {byte}")
            }
            None => write!(f, "read refused {number}"),
        }
    }
}

/// Why no controller is generated: the number of the refusal.
#[derive(Clone, Copy)]
pub struct Ungenerated(pub Refusal);

impl fmt::Display for Ungenerated {
    ghost output = { λ u. Some (not_generated u.0) };

    fn fmt<W: fmt::Write>(&self, f: &mut fmt::Formatter<W>) -> fmt::Result {
        let number = self.0.number();
        write!(f, "generate refused {number}")
    }
}
