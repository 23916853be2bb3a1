//! The law that automata which answer alike have the same files.

ghost use Rattle.ctlfile.specs.Agreement.{ChecksAlike, FilesAlike};

/// Automata that answer alike below their numbers: check says the same of any bytes, and a controller has the same file.
pub fn agreement_stands()
    ensures { ChecksAlike × FilesAlike }
{}
