//! The words of a line as tokens, which are parts of the text.

ghost use Rattle.std.specs.Prelude.{◌≡◌, ◌+◌, ◌^◌, ◌<◌, ◌≤◌, length, take, drop};
ghost use Rattle.std.specs.List.{take_while};
ghost use Rattle.model.specs.Text.{name_byte};
ghost use Rattle.model.specs.Reading.{byte as model_byte, letter as model_letter, n_words, digit as model_digit, choice as model_choice};
ghost use Rattle.ruletext.specs.Classes.{passing, seen};

use model::fault::WordFault;

/// A word of a line; a name is its part of the text.
#[derive(Clone, Copy)]
pub enum Token<'a> {
    Letter(char),
    Name(&'a [u8]),
    Digit(u8),
    Star,
}

/// What may stand at a byte of a line.
// No closure in its place: a contract can name a class, where a closure's test would be a ghost value that each call picks.
#[derive(Clone, Copy)]
pub enum Class {
    Space,
    End,
    Digit,
    Choice,
    Name,
    Letter,
}

impl Class {
    /// Whether the byte is of the class.
    pub fn contains(self, b: u8) -> bool
        ensures { result ≡ passing self b }
    {
        match self {
            Class::Space => b == b' ',
            Class::End => b == b'\n',
            Class::Digit => b.is_ascii_digit(),
            Class::Choice => b.is_ascii_digit() || b == b'*',
            Class::Name => b.is_ascii_alphanumeric(),
            Class::Letter => matches!(b as char, 'n' | 's' | 'r' | 't'),
        }
    }
}

// How many bytes of a name the text begins with: eight at most.
fn name_length(text: &[u8]) -> usize
    ensures { result ≡ length (take_while name_byte (take 8 text.now)) }
{
    text.iter()
        .take(8)
        .take_while(|b| Class::Name.contains(**b))
        .count()
}

/// A place in a line of the text: the line's number, the byte in it, and the text from there on.
#[derive(Drop)]
pub struct Cursor<'a> {
    pub rest: &'a [u8],
    pub line: usize,
    pub at: usize,
    ghost fits: { at + length rest.now < 2 ^ 64 },
}

impl<'a> Cursor<'a> {
    ghost use Rattle.ruletext.specs.Tokens.{Reads, Tokens, same, IsLetter, IsName, IsDigit, IsChoice};

    /// The front of the line that the text begins with.
    pub fn new(text: &'a [u8], line: usize) -> Cursor<'a>
        ensures { (result.rest.now ≡ text.now) × ((result.line ≡ line) × (result.at ≡ 0)) }
    {
        Cursor {
            rest: text,
            line,
            at: 0,
        }
    }

    // A fault at this byte.
    fn fault(&self) -> WordFault
        ensures { (result.line ≡ self.now.line) × (result.byte ≡ self.now.at) }
    {
        WordFault {
            line: self.line,
            byte: self.at,
        }
    }

    // Goes on behind so many bytes.
    fn skip(&mut self, count: usize)
        requires { count ≤ length self.old.rest.now }
        ensures line { self.new.line ≡ self.old.line }
        ensures at { self.new.at ≡ self.old.at + count }
        ensures rest { self.new.rest.now ≡ drop count self.old.rest.now }
    {
        self.rest = &self.rest[count..];
        self.at += count;
    }

    /// Whether a byte of the class stands here.
    pub fn sees(&self, class: Class) -> bool
        ensures { result ≡ seen (passing class) self.now.rest.now }
    {
        self.rest.first().is_some_and(|b| class.contains(*b))
    }

    /// One byte of the class.
    pub fn byte(&mut self, class: Class) -> Result<u8, WordFault>
        ensures { Reads (model_byte (passing class)) same self.old self.new result }
    {
        if !self.sees(class) {
            return Err(self.fault());
        }
        let b = self.rest[0];
        self.skip(1);
        Ok(b)
    }

    /// The letter of a line.
    pub fn letter(&mut self) -> Result<Token<'a>, WordFault>
        ensures { Tokens (model_byte model_letter) IsLetter self.old self.new result }
    {
        let b = self.byte(Class::Letter)?;
        Ok(Token::Letter(b as char))
    }

    /// A space, a name, and the line end behind it.
    pub fn name(&mut self) -> Result<Token<'a>, WordFault>
        ensures { Tokens n_words IsName self.old self.new result }
    {
        self.byte(Class::Space)?;
        let text = self.rest;
        let length = name_length(text);
        if length == 0 {
            return Err(self.fault());
        }
        self.skip(length);
        self.byte(Class::End)?;
        Ok(Token::Name(&text[..length]))
    }

    /// A space and a digit.
    pub fn digit(&mut self) -> Result<Token<'a>, WordFault>
        ensures { Tokens model_digit IsDigit self.old self.new result }
    {
        self.byte(Class::Space)?;
        let b = self.byte(Class::Digit)?;
        Ok(Token::Digit(b - b'0'))
    }

    /// A space, and a digit or a star.
    pub fn choice(&mut self) -> Result<Token<'a>, WordFault>
        ensures { Tokens model_choice IsChoice self.old self.new result }
    {
        self.byte(Class::Space)?;
        let b = self.byte(Class::Choice)?;
        match b as char {
            '*' => Ok(Token::Star),
            _ => Ok(Token::Digit(b - b'0')),
        }
    }
}
