//! What a line of a script says.
ghost use Rattle.std.specs.Prelude.{◌≡◌, ◌≤◌, IfOk, codes};
ghost use Rattle.script.specs.Words.{Stands, BeginsWithDigit};
ghost use Rattle.script.specs.Grammar.{NumberAt, FreeNumbers, ReplyNumbers, Writes, TextAt, NumbersAndText, SetupAt};
ghost use Rattle.script.specs.Keywords.{spelling, Spells};
ghost use Rattle.script.specs.Commands.{Says, Asks, word_of};
ghost use Rattle.model.specs.Rules.{free, reply};
ghost use Rattle.script.specs.Meaning.{meaning_of, depth};
ghost use Rattle.script.specs.Faults.{fault_of};
ghost use Rattle.script.specs.declared.parse.Fault.TheVariants.{Line, Memory};

use crate::bad_line::BadLine;
use crate::bytes::{Source, bytes_of};
use crate::rule::AnyRule;
use crate::words::{Words, number};
use hex::FromHexError;
use rules::{Free, Reply};
use std::alloc::{AllocError, AllocFailed, Global};

/// How deep pairs may stand inside one another. What goes down the pairs uses the stack at each level, so there is a limit. The text of
/// `BadLine::TooDeep` has the same number.
pub const MOST_LEVELS: u16 = 1000;

/// What a line asks for.
#[derive(Drop)]
pub enum Command {
    /// Show the rule.
    Show(AnyRule),
    /// Read a rule text with these numbers, and show the rule.
    ShowText(Text),
    /// Generate a controller.
    Generate(Setup),
}

/// A rule text to read, with its numbers of situations and commands.
#[derive(Drop)]
pub struct Text {
    pub situations: u8,
    pub commands: u8,
    pub source: Source,
}

/// What a controller is generated for: numbers of situations and commands, a capacity, a limit, and the house rule.
#[derive(Drop)]
pub struct Setup {
    pub situations: u8,
    pub commands: u8,
    pub capacity: u16,
    pub limit: u8,
    pub house: AnyRule,
}

/// Why a line gave no command.
#[derive(Clone, Copy, Debug)]
pub enum Fault {
    Line(BadLine),
    Memory,
}

impl From<BadLine> for Fault {
    ghost from_gives = { λ reason r. r ≡ Line reason };

    fn from(reason: BadLine) -> Fault {
        Fault::Line(reason)
    }
}

impl<T: Drop> From<AllocFailed<T>> for Fault {
    ghost from_gives = { λ _ r. r ≡ Memory };

    fn from(_refused: AllocFailed<T>) -> Fault {
        Fault::Memory
    }
}

impl From<AllocError> for Fault {
    ghost from_gives = { λ _ r. r ≡ Memory };

    fn from(_error: AllocError) -> Fault {
        Fault::Memory
    }
}

impl From<FromHexError> for Fault {
    ghost from_gives = { λ error r. r ≡ fault_of error };

    fn from(error: FromHexError) -> Fault {
        match error {
            FromHexError::InvalidHexCharacter { .. } => Fault::Line(BadLine::NotHex),
            FromHexError::OddLength | FromHexError::InvalidStringLength => {
                Fault::Line(BadLine::OddHex)
            }
            FromHexError::OutOfMemory => Fault::Memory,
        }
    }
}

// The words that the script language knows.
#[derive(Clone, Copy)]
enum Keyword {
    Show,
    Free,
    Reply,
    Pair,
    Text,
    Generate,
}

impl Keyword {
    // The keyword that a word is, if it is any.
    fn of(word: &[u8]) -> Option<Keyword>
        ensures { Spells word.now result }
    {
        match word {
            b"show" => Some(Keyword::Show),
            b"free" => Some(Keyword::Free),
            b"reply" => Some(Keyword::Reply),
            b"pair" => Some(Keyword::Pair),
            b"text" => Some(Keyword::Text),
            b"generate" => Some(Keyword::Generate),
            _ => None,
        }
    }
}

// The words of a line that are still to be read, and the heap for what they say.
#[derive(Clone, Copy)]
struct Parser<'a> {
    heap: Global,
    words: Words<'a>,
}

// `same` in each method: `&mut self` lets a call change the line too, and an invariant can't say what it was before the call.

impl<'a> Parser<'a> {
    // The number that the next word denotes, if it is not above `most`.
    fn number_to(&mut self, most: u16) -> Result<u16, BadLine>
        ensures same { self.new.words.line.now ≡ self.old.words.line.now }
        ensures value { IfOk result (λ n. NumberAt self.old.words.line.now self.old.words.at self.new.words.at n) }
        ensures least { IfOk result (λ n. n ≤ most) }
    {
        let word = self.words.next().ok_or(BadLine::NumberMissing)?;
        number(word, most)
    }

    // The number of one byte that the next word denotes.
    fn number(&mut self) -> Result<u8, BadLine>
        ensures same { self.new.words.line.now ≡ self.old.words.line.now }
        ensures value { IfOk result (λ n. NumberAt self.old.words.line.now self.old.words.at self.new.words.at n) }
    {
        let n = self.number_to(u16::from(u8::MAX))?;
        Ok(n as u8)
    }

    // The keyword that the next word is: one that a rule or a text begins with is expected.
    fn keyword(&mut self) -> Result<Keyword, BadLine>
        ensures same { self.new.words.line.now ≡ self.old.words.line.now }
        ensures word { IfOk result (λ k. Stands self.old.words.line.now self.old.words.at self.new.words.at (spelling k)) }
    {
        let word = self.words.next().ok_or(BadLine::RuleExpected)?;
        Keyword::of(word).ok_or(BadLine::RuleExpected)
    }

    // What stands after the word `free`.
    fn free_numbers(&mut self) -> Result<Free, BadLine>
        ensures same { self.new.words.line.now ≡ self.old.words.line.now }
        ensures numbers { IfOk result (λ f. FreeNumbers self.old.words.line.now self.old.words.at self.new.words.at (free f.numbers.situations f.numbers.commands)) }
    {
        let situations = self.number()?;
        let commands = self.number()?;
        Ok(Free::new(situations, commands))
    }

    // What stands after the word `reply`.
    fn reply_numbers(&mut self) -> Result<Reply, BadLine>
        ensures same { self.new.words.line.now ≡ self.old.words.line.now }
        ensures numbers { IfOk result (λ f. ReplyNumbers self.old.words.line.now self.old.words.at self.new.words.at (reply f.numbers.situations f.numbers.commands f.situation f.command)) }
    {
        let situations = self.number()?;
        let commands = self.number()?;
        let situation = self.number()?;
        let command = self.number()?;
        Ok(Reply::new(situations, commands, situation, command))
    }

    // The rule that the next words write, with pairs at most `levels` deep.
    fn rule(&mut self, levels: u16) -> Result<AnyRule, Fault>
        ensures same { self.new.words.line.now ≡ self.old.words.line.now }
        ensures writes { IfOk result (λ a. Writes self.old.words.line.now self.old.words.at self.new.words.at (meaning_of a)) }
        ensures shallow { IfOk result (λ a. depth a ≤ levels) }
    {
        match self.keyword()? {
            Keyword::Free => Ok(AnyRule::Free(self.free_numbers()?)),
            Keyword::Reply => Ok(AnyRule::Reply(self.reply_numbers()?)),
            Keyword::Pair => {
                let inner = levels.checked_sub(1).ok_or(BadLine::TooDeep)?;
                let first = self.rule(inner)?;
                let second = self.rule(inner)?;
                Ok(AnyRule::pair(self.heap, first, second)?)
            }
            _ => Err(Fault::Line(BadLine::RuleExpected)),
        }
    }

    // The words behind `show S C`: `text`, and where the text is.
    fn text_source(&mut self) -> Result<Source, Fault>
        ensures same { self.new.words.line.now ≡ self.old.words.line.now }
        ensures writes { IfOk result (λ s. TextAt self.old.words.line.now self.old.words.at self.new.words.at s) }
    {
        let Keyword::Text = self.keyword()? else {
            return Err(Fault::Line(BadLine::RuleExpected));
        };
        let word = self.words.next().ok_or(BadLine::BytesMissing)?;
        bytes_of(self.heap, word)
    }

    // Two numbers, and a text to read with them.
    fn text_request(&mut self) -> Result<Text, Fault>
        ensures same { self.new.words.line.now ≡ self.old.words.line.now }
        ensures writes { IfOk result (λ t. NumbersAndText self.old.words.line.now self.old.words.at self.new.words.at t.situations t.commands t.source) }
    {
        Ok(Text {
            situations: self.number()?,
            commands: self.number()?,
            source: self.text_source()?,
        })
    }

    // Whether the next word begins with a digit.
    fn number_comes(&self) -> bool
        ensures { BeginsWithDigit self.now.words.line.now self.now.words.at result }
    {
        match self.words.peek() {
            Some([first, ..]) => first.is_ascii_digit(),
            _ => false,
        }
    }

    // What stands behind `show`: a rule, or numbers and a text.
    fn shown(&mut self) -> Result<Command, Fault>
        ensures same { self.new.words.line.now ≡ self.old.words.line.now }
        ensures show { IfOk result (λ c. word_of c ≡ codes "show") }
        ensures writes { IfOk result (λ c. Asks self.old.words.line.now self.old.words.at self.new.words.at c) }
    {
        if self.number_comes() {
            Ok(Command::ShowText(self.text_request()?))
        } else {
            Ok(Command::Show(self.rule(MOST_LEVELS)?))
        }
    }

    // What stands behind `generate`.
    fn setup(&mut self) -> Result<Setup, Fault>
        ensures same { self.new.words.line.now ≡ self.old.words.line.now }
        ensures writes { IfOk result (λ s. SetupAt self.old.words.line.now self.old.words.at self.new.words.at s.situations s.commands s.capacity s.limit (meaning_of s.house)) }
    {
        Ok(Setup {
            situations: self.number()?,
            commands: self.number()?,
            capacity: self.number_to(u16::MAX)?,
            limit: self.number()?,
            house: self.rule(MOST_LEVELS)?,
        })
    }

    // What a line asks for that begins with this word.
    fn command(&mut self, word: &[u8]) -> Result<Command, Fault>
        ensures same { self.new.words.line.now ≡ self.old.words.line.now }
        ensures word { IfOk result (λ c. word_of c ≡ word.now) }
        ensures asks { IfOk result (λ c. Asks self.old.words.line.now self.old.words.at self.new.words.at c) }
    {
        match Keyword::of(word) {
            Some(Keyword::Show) => self.shown(),
            Some(Keyword::Generate) => Ok(Command::Generate(self.setup()?)),
            _ => Err(Fault::Line(BadLine::UnknownWord)),
        }
    }
}

/// What a line asks for: nothing if it is blank or a comment.
pub fn read_line(heap: Global, line: &[u8]) -> Result<Option<Command>, Fault>
    ensures { IfOk result (λ c. Says line.now c) }
{
    if let [b'#', ..] = line {
        return Ok(None);
    }
    let mut parser = Parser {
        heap,
        words: Words::new(line),
    };
    let Some(word) = parser.words.next() else {
        return Ok(None);
    };
    let command = parser.command(word)?;
    match parser.words.next() {
        None => Ok(Some(command)),
        Some(_) => Err(Fault::Line(BadLine::TextAfter)),
    }
}
