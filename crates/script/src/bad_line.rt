//! Why a line of a script is not answered.
use std::fmt;

#[derive(Clone, Copy, Debug)]
pub enum BadLine {
    UnknownWord,
    RuleExpected,
    NumberMissing,
    NotNumber,
    TooLarge,
    TooDeep,
    BytesMissing,
    NotHex,
    OddHex,
    TextAfter,
}

impl fmt::Display for BadLine {
    fn fmt<W: fmt::Write>(&self, f: &mut fmt::Formatter<W>) -> fmt::Result {
        f.write_str(match self {
            BadLine::UnknownWord => "unknown word",
            BadLine::RuleExpected => "a rule is expected",
            BadLine::NumberMissing => "a number is missing",
            BadLine::NotNumber => "not a number",
            BadLine::TooLarge => "a number too large",
            BadLine::TooDeep => "pairs more than 1000 deep",
            BadLine::BytesMissing => "a text is missing",
            BadLine::NotHex => "not a hexadecimal digit",
            BadLine::OddHex => "an odd number of hexadecimal digits",
            BadLine::TextAfter => "text after the last word",
        })
    }
}
