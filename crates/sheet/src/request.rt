//! Calls as values, and their answers.

use crate::stored::Solution;
use model::fault::ReadFault;
use model::refusal::Refusal;

/// A call on a sheet.
#[derive(Clone, Copy)]
pub enum Request<'a> {
    /// Read the text for these numbers of situations and commands, and add the rule. From a text that is refused the rule is blank.
    Add {
        text: &'a [u8],
        situations: u8,
        commands: u8,
    },
    /// Withdraw the rule of the name.
    Withdraw(&'a [u8]),
    /// Set the limit.
    Limit(u8),
    Solve,
    /// A frame in the situation.
    Frame(u8),
    /// Write the controller file into a buffer of so many bytes, the next of the output.
    Write(usize),
    /// Check the file.
    Check(&'a [u8]),
}

/// What a call answers.
// No `Result`: an add can be refused twice, by the reading and by the sheet, and one list holds the answers of all calls.
#[derive(Clone, Copy)]
pub enum Answer {
    /// Why the text was not read, and why the rule was not added, if so.
    Added {
        fault: Option<ReadFault>,
        refusal: Option<Refusal>,
    },
    /// The rule is withdrawn, or the limit is set.
    Done,
    /// Solve's count, number of states and start command.
    Counted(Solution),
    /// The command that a frame gives.
    Command(u8),
    /// How many bytes were written.
    Wrote(usize),
    /// The number c of an accepted file.
    Accepted(u8),
    Refused(Refusal),
}
