//! What can be wrong with a rule text, and where: a fault of a word is carried whole in the fault of its line, and that in the
//! fault of the reading. Lines count from 1, bytes of a line from 0.

ghost use Rattle.std.specs.Prelude.{◌≡◌};
ghost use Rattle.model.specs.declared.fault.LineFault.TheVariants.{Word};
ghost use Rattle.model.specs.declared.fault.ReadFault.TheVariants.{Line};

/// A wrong or missing letter, space, word or line end: the first byte of the line at which no correct line goes on.
#[derive(Clone, Copy, Debug, PartialEq, Eq)]
pub struct WordFault {
    pub line: usize,
    pub byte: usize,
}

/// What is wrong with a line.
#[derive(Clone, Copy, Debug, PartialEq, Eq)]
pub enum LineFault {
    /// A word of it.
    Word(WordFault),
    /// The n, s or r line is missing, repeated or out of order.
    Order { line: usize },
    /// A number out of range, at its byte.
    Range { line: usize, byte: usize },
}

/// Why a text is not read as a rule.
#[derive(Clone, Copy, Debug, PartialEq, Eq)]
pub enum ReadFault {
    /// The numbers of situations and commands are not both 1 to 8.
    Numbers,
    /// The text has no byte, or more than 4,096.
    Length,
    /// A line of it.
    Line(LineFault),
    /// Some state is never reached from the start; the line is the one behind the last.
    Unreached { line: usize },
}

impl From<WordFault> for LineFault {
    ghost from_gives = { λ word r. r ≡ Word word };

    fn from(word: WordFault) -> LineFault {
        LineFault::Word(word)
    }
}

impl From<LineFault> for ReadFault {
    ghost from_gives = { λ line r. r ≡ Line line };

    fn from(line: LineFault) -> ReadFault {
        ReadFault::Line(line)
    }
}
