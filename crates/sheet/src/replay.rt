//! Calls one after another on a newly opened sheet.

ghost use Rattle.std.specs.Prelude.{◌≡◌, min, length, take, drop};
ghost use Rattle.sheet.specs.Requests.{room as room_of, TextAdded, Called, Ran};
ghost use Rattle.sheet.specs.Replayed.{Replayed};

use crate::memory::Memory;
use crate::request::{Answer, Request};
use crate::sheet::Sheet;
use rules::Rule;
use ruletext::ReadRule;
use ruletext::read::read;

impl Request<'_> {
    /// How many bytes of the output are its buffer.
    fn room(&self) -> usize
        ensures { result ≡ room_of self.now }
    {
        match self {
            Request::Write(len) => *len,
            _ => 0,
        }
    }
}

impl<R: Rule> Sheet<R> {
    /// Reads a text, and adds the rule that reading leaves.
    fn add_text(&mut self, text: &[u8], situations: u8, commands: u8) -> Answer
        ensures { TextAdded self.old text.now situations commands result self.new }
    {
        let mut rule = ReadRule::blank();
        let fault = read(text, situations, commands, &mut rule).err();
        let refusal = self.add(rule).err();
        Answer::Added { fault, refusal }
    }

    /// Makes one call.
    fn call(&mut self, request: &Request<'_>, buffer: &mut [u8]) -> Answer
        ensures { Called self.old request.now buffer.old result buffer.new self.new }
    {
        match *request {
            Request::Add {
                text,
                situations,
                commands,
            } => self.add_text(text, situations, commands),
            Request::Withdraw(name) => self
                .withdraw(name)
                .map_or_else(Answer::Refused, |()| Answer::Done),
            Request::Limit(limit) => self
                .limit(limit)
                .map_or_else(Answer::Refused, |()| Answer::Done),
            Request::Solve => self.solve().map_or_else(Answer::Refused, Answer::Counted),
            Request::Frame(situation) => self
                .frame(situation)
                .map_or_else(Answer::Refused, Answer::Command),
            Request::Write(_) => self
                .write(buffer)
                .map_or_else(Answer::Refused, Answer::Wrote),
            Request::Check(file) => self
                .check(file)
                .map_or_else(Answer::Refused, Answer::Accepted),
        }
    }

    /// Makes the calls one after another, as many as there are places for answers.
    fn calls(&mut self, requests: &[Request<'_>], output: &mut [u8], answers: &mut [Answer])
        ensures ran { Ran self.old (take (min (length requests.now) (length answers.old)) requests.now) output.old (take (min (length requests.now) (length answers.old)) answers.new) output.new self.new }
        ensures rest { drop (min (length requests.now) (length answers.old)) answers.new ≡ drop (min (length requests.now) (length answers.old)) answers.old }
    {
        let mut at = 0;
        // By index: of what an iterator lends to be written, a proof knows nothing afterwards.
        for i in 0..requests.len().min(answers.len()) {
            let end = at + requests[i].room().min(output.len() - at);
            answers[i] = self.call(&requests[i], &mut output[at..end]);
            at = end;
        }
    }
}

/// Opens a sheet, makes the calls one after another, as many as there are places for answers, and closes it. The buffer of each write is
/// the next part of the output.
pub fn replay<R: Rule>(
    house: R,
    situations: u8,
    commands: u8,
    capacity: u16,
    memory: Memory,
    requests: &[Request<'_>],
    output: &mut [u8],
    answers: &mut [Answer],
) -> R
    ensures house { result ≡ house }
    ensures replayed { Replayed (R.Rule.meaning house) situations commands capacity (take (min (length requests.now) (length answers.old)) requests.now) output.old (take (min (length requests.now) (length answers.old)) answers.new) output.new }
    ensures rest { drop (min (length requests.now) (length answers.old)) answers.new ≡ drop (min (length requests.now) (length answers.old)) answers.old }
{
    let mut sheet = Sheet::open(house, situations, commands, capacity, memory);
    sheet.calls(requests, output, answers);
    sheet.close()
}
