//! The calls on a sheet.

ghost use Rattle.std.specs.Prelude.{◌≡◌, Err};
ghost use Rattle.model.specs.declared.refusal.Refusal.{Refusal};
ghost use Rattle.model.specs.Sheet.{look as look_at, opened, add as add_call, withdraw as withdraw_call, limit as limit_call, solve as solve_call, frame as frame_call, write as write_call, check as check_call, verdict};
ghost use Rattle.ruletext.specs.View.{view};
ghost use Rattle.sheet.specs.Shows.{Opens, Stands, Responds, passing, settled, solution, commanded, written};

use crate::memory::Memory;
use crate::page::Page;
use crate::sheet::Sheet;
use crate::stored::Solution;
use model::refusal::Refusal;
use rules::{Numbers, Rule};
use ruletext::ReadRule;

// Two numbers and no `Numbers`, here and at `open`: any may be given, and are refused here.

/// What open would be refused: numbers of situations or commands outside 1 to 8, or a capacity outside 1 to 1,024; or a house rule with
/// over 12 states, or for other numbers.
#[tactic(auto, unfolding(model::specs::Sheet::look))]
pub fn look<R: Rule>(house: &R, situations: u8, commands: u8, capacity: u16) -> Result<(), Refusal>
    ensures { result ≡ passing (look_at (R.Rule.meaning house.now) situations commands capacity) }
{
    let numbers = Numbers::within(situations, commands).ok_or(Refusal::OutOfRange)?;
    if !(1..=1024).contains(&capacity) {
        return Err(Refusal::OutOfRange);
    }
    if house.states() > 12 || Numbers::of(house) != numbers {
        return Err(Refusal::HouseRule);
    }
    Ok(())
}

/// The page of a newly opened sheet, or what the look refuses.
#[tactic(auto, unfolding(model::specs::Sheet::look))]
fn new_page<R: Rule>(
    house: &R,
    situations: u8,
    commands: u8,
    capacity: u16,
    memory: Memory,
) -> Result<Page, Refusal>
    ensures { Opens (opened (R.Rule.meaning house.now) situations commands capacity) result }
{
    look(house, situations, commands, capacity)?;
    Ok(Page::new(house, capacity, memory))
}

// Each call has a match of its own: `as_mut` on the page gets no proof, and with the call as a closure the proof did not close.

impl<R: Rule> Sheet<R> {
    /// Opens a sheet, with no rule added, limit 14 and no controller. Opened on what the look refuses, it gives that refusal from every
    /// call but close.
    pub fn open(house: R, situations: u8, commands: u8, capacity: u16, memory: Memory) -> Sheet<R>
        ensures house { result.house ≡ house }
        ensures opened { Stands result (opened (R.Rule.meaning house) situations commands capacity) }
    {
        let page = new_page(&house, situations, commands, capacity, memory);
        Sheet { house, page }
    }

    /// Adds a rule that was read behind the others. The rule is used up, also if it is refused.
    pub fn add(&mut self, rule: ReadRule) -> Result<(), Refusal>
        ensures { Responds self.old (add_call (view rule)) (settled result) self.new }
    {
        match &mut self.page {
            Ok(page) => page.add(rule),
            Err(refusal) => Err(*refusal),
        }
    }

    /// Takes the added rule of the name out, and closes the gap.
    pub fn withdraw(&mut self, name: &[u8]) -> Result<(), Refusal>
        ensures { Responds self.old (withdraw_call name.now) (settled result) self.new }
    {
        match &mut self.page {
            Ok(page) => page.withdraw(name),
            Err(refusal) => Err(*refusal),
        }
    }

    /// Sets the limit, 0 to 14.
    pub fn limit(&mut self, limit: u8) -> Result<(), Refusal>
        ensures { Responds self.old (limit_call limit) (settled result) self.new }
    {
        match &mut self.page {
            Ok(page) => page.limit(limit),
            Err(refusal) => Err(*refusal),
        }
    }

    /// Discards the stored controller, and stores one of the least count for the rules on the sheet, in its state 0.
    pub fn solve(&mut self) -> Result<Solution, Refusal>
        ensures { Responds self.old solve_call (solution result) self.new }
    {
        match &mut self.page {
            Ok(page) => page.solve(),
            Err(refusal) => Err(*refusal),
        }
    }

    /// Moves the stored controller to the next state in the situation, and gives that state's command.
    pub fn frame(&mut self, situation: u8) -> Result<u8, Refusal>
        ensures { Responds self.old (frame_call situation) (commanded result) self.new }
    {
        match &mut self.page {
            Ok(page) => page.frame(situation),
            Err(refusal) => Err(*refusal),
        }
    }

    /// Writes the file of the stored controller at the start of the buffer, leaves later bytes, and gives the length. A refusal leaves the
    /// buffer as it is.
    pub fn write(&self, buffer: &mut [u8]) -> Result<usize, Refusal>
        ensures said { Responds self.now (write_call buffer.old) (written result buffer.new) self.now }
        ensures left { (e : Refusal) → result ≡ Err e → buffer.new ≡ buffer.old }
    {
        match &self.page {
            Ok(page) => page.write(buffer),
            Err(refusal) => Err(*refusal),
        }
    }

    /// Looks through a file, and answers its number c if it is accepted.
    pub fn check(&self, file: &[u8]) -> Result<u8, Refusal>
        ensures { Responds self.now (check_call file.now) (verdict result) self.now }
    {
        match &self.page {
            Ok(page) => page.check(file),
            Err(refusal) => Err(*refusal),
        }
    }

    /// Ends the sheet, and gives the house rule back.
    pub fn close(self) -> R
        ensures { result ≡ self.house }
    {
        let Sheet { house, page: _ } = self;
        house
    }
}
