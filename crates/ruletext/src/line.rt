//! The lines of a text, word by word.

ghost use Rattle.std.specs.Prelude.{◌≡◌};
ghost use Rattle.model.specs.Reading.{n_words, digit as model_digit, choice as model_choice, digits as model_digits, s_words, r_words, t_words};
ghost use Rattle.ruletext.specs.Lines.{picked, ReadsLine};
ghost use Rattle.ruletext.specs.Ranges.{below};
ghost use Rattle.ruletext.specs.Tables.{taken};

use crate::name::Name;
use crate::token::{Class, Cursor, Token};
use model::fault::WordFault;

/// A digit, or `*` for every one.
// No `Option<u8>`: its `None` would read as no number, and `*` is every one.
#[derive(Clone, Copy)]
pub enum Choice {
    One(u8),
    Each,
}

impl Choice {
    /// Whether a digit is below `n`; `*` always is.
    pub fn is_below(self, n: u8) -> bool
        ensures { result ≡ below n (picked self) }
    {
        match self {
            Choice::One(d) => d < n,
            Choice::Each => true,
        }
    }

    /// Whether a number is the digit; each is one that `*` takes.
    pub fn takes(self, n: u8) -> bool
        ensures { result ≡ taken (picked self) n }
    {
        match self {
            Choice::One(d) => d == n,
            Choice::Each => true,
        }
    }
}

/// The words of an s line.
#[derive(Clone, Copy)]
pub struct Size {
    pub states: u8,
    pub start: u8,
}

/// The states of an r line: the part of the text with their words.
#[derive(Clone, Copy)]
pub struct Rejects<'a> {
    pub states: &'a [[u8; 2]],
}

/// The words of a t line; the states that follow are the part of the text with their words.
#[derive(Clone, Copy)]
pub struct Arrows<'a> {
    pub from: u8,
    pub command: Choice,
    pub situation: Choice,
    pub to: &'a [[u8; 2]],
}

/// A line.
#[derive(Clone, Copy)]
pub enum Line<'a> {
    Name(Name),
    Size(Size),
    Rejects(Rejects<'a>),
    Arrows(Arrows<'a>),
}

impl<'a> Cursor<'a> {
    ghost use Rattle.ruletext.specs.Tokens.{Reads, same};
    ghost use Rattle.ruletext.specs.Lines.{name_line, size_line, states_in, rejects_line, arrows_line, line_of, line_reader};

    // The lexer gives tokens, so a reader of one kind of word takes the token of that kind.

    // A space, and a digit behind it.
    fn number(&mut self) -> Result<u8, WordFault>
        ensures { Reads model_digit same self.old self.new result }
    {
        let Token::Digit(d) = self.digit()? else {
            unreachable()
        };
        Ok(d)
    }

    // A space, and a digit or `*` behind it.
    fn pick(&mut self) -> Result<Choice, WordFault>
        ensures { Reads model_choice picked self.old self.new result }
    {
        match self.choice()? {
            Token::Digit(d) => Ok(Choice::One(d)),
            _ => Ok(Choice::Each),
        }
    }

    // Any number of digits up to the line end: the part of the text with their words.
    fn digits(&mut self) -> Result<&'a [[u8; 2]], WordFault>
        ensures { Reads model_digits states_in self.old self.new result }
    {
        let text = self.rest;
        while self.sees(Class::Space) {
            self.number()?;
        }
        let (words, _) = text[..text.len() - self.rest.len()].as_chunks::<2>();
        self.byte(Class::End)?;
        Ok(words)
    }

    // The name of an n line, and the line's end.
    fn name_words(&mut self) -> Result<Name, WordFault>
        ensures { Reads n_words name_line self.old self.new result }
    {
        let Token::Name(name) = self.name()? else {
            unreachable()
        };
        Ok(Name::of(name))
    }

    // The words of an s line, and its end.
    fn size_words(&mut self) -> Result<Size, WordFault>
        ensures { Reads s_words size_line self.old self.new result }
    {
        let states = self.number()?;
        let start = self.number()?;
        self.byte(Class::End)?;
        Ok(Size { states, start })
    }

    // The words of an r line, and its end.
    fn reject_words(&mut self) -> Result<Rejects<'a>, WordFault>
        ensures { Reads r_words rejects_line self.old self.new result }
    {
        let states = self.digits()?;
        Ok(Rejects { states })
    }

    // The words of a t line, and its end.
    fn arrow_words(&mut self) -> Result<Arrows<'a>, WordFault>
        ensures { Reads t_words arrows_line self.old self.new result }
    {
        let from = self.number()?;
        let command = self.pick()?;
        let situation = self.pick()?;
        let to = self.digits()?;
        Ok(Arrows {
            from,
            command,
            situation,
            to,
        })
    }

    // A line, from its letter to its end.
    fn line_words(&mut self) -> Result<Line<'a>, WordFault>
        ensures { Reads line_reader line_of self.old self.new result }
    {
        match self.letter()? {
            Token::Letter('n') => Ok(Line::Name(self.name_words()?)),
            Token::Letter('s') => Ok(Line::Size(self.size_words()?)),
            Token::Letter('r') => Ok(Line::Rejects(self.reject_words()?)),
            _ => Ok(Line::Arrows(self.arrow_words()?)),
        }
    }
}

/// The first line of the text, whose number is `line`, and the text behind it.
pub fn first_line<'a>(text: &'a [u8], line: usize) -> Result<(Line<'a>, &'a [u8]), WordFault>
    ensures { ReadsLine text.now line result }
{
    let mut cursor = Cursor::new(text, line);
    let words = cursor.line_words()?;
    Ok((words, cursor.rest))
}
