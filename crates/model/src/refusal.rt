//! What the calls of a sheet refuse.

/// Where a certificate fails: a state of the controller, a situation, a rule state and a follower of it, 0 where there is none.
#[derive(Clone, Copy, Debug, PartialEq, Eq)]
pub struct Place {
    pub state: u16,
    pub situation: u8,
    pub rule_state: u8,
    pub follower: u8,
}

/// Why a call on a sheet is refused.
#[derive(Clone, Copy, Debug, PartialEq, Eq)]
pub enum Refusal {
    /// Numbers of situations or commands, or a capacity, out of range.
    OutOfRange,
    /// The house rule has over 12 states, or its numbers are unlike the sheet's.
    HouseRule,
    /// The rule is blank, or its numbers are unlike the sheet's.
    UnlikeRule,
    /// A rule of that name is on the sheet.
    NameTaken,
    /// Four rules are added already, or there would be over 16 rule states.
    NoRoom,
    /// No added rule has that name.
    NoSuchName,
    /// The limit would be over 14.
    OverLimit,
    /// No controller has a count within the limit.
    NoneFound,
    /// Reach(c) has more positions than the capacity.
    Crowded,
    /// No controller is stored.
    NoController,
    /// The situation is too large.
    NoSituation,
    /// The buffer is too small for the file.
    ShortBuffer,
    /// Under 20 bytes, a wrong mark or zero byte, or a number of states or c out of range.
    Trailer,
    /// Situations, commands or rule states are not the sheet's.
    OtherSheet,
    /// The distances are not the layout's, or reach before the file.
    Layout,
    /// A command or a next state is too large.
    Record,
    /// A certificate byte, a start or an arrow is broken at this place.
    Certificate(Place),
}
