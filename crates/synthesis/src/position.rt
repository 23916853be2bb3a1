//! Positions as they are stored.

/// A mark for each rule state: 0 where it is absent, t + 1 where it has the tally t. Behind the last rule state all marks are 0.
// Numbers and no options: the definitions have marks so, and the largest of several is a `max`.
#[derive(Clone, Copy, Debug, PartialEq, Eq)]
pub struct Position {
    pub marks: [u8; 16],
}
