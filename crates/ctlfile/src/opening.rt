//! Opening a file from its end: the tests of its trailer, and the window on its parts.

ghost use Rattle.std.specs.Prelude.{◌≡◌, ◌+◌, ◌≤◌, length};
ghost use Rattle.model.specs.File.{number_of, piece};
ghost use Rattle.ctlfile.specs.Trailers.{trailer_in, marked, in_range, for_rule, records_of, certificate_of, laid_out, window_in, Opened};
ghost use Rattle.ctlfile.specs.Windows.{shown};

use crate::trailer::{MARK, Trailer};
use crate::window::Window;
use model::refusal::Refusal;
use rules::Rule;

/// A distance in the trailer: four bytes, the lowest first.
fn distance(end: &[u8], at: usize) -> u32
    requires { at + 4 ≤ length end.now }
    ensures { result ≡ number_of (piece at 4 end.now) }
{
    u32::from_le_bytes([end[at], end[at + 1], end[at + 2], end[at + 3]])
}

/// Whether the mark and the zero bytes are there.
fn is_marked(end: &[u8]) -> bool
    requires { length end.now ≡ 20 }
    ensures { result ≡ marked end.now }
{
    end[0..4] == MARK[..] && end[18..20] == [0, 0]
}

impl Trailer {
    /// What a trailer tells.
    fn read(end: &[u8]) -> Trailer
        requires { length end.now ≡ 20 }
        ensures { result ≡ trailer_in end.now }
    {
        Trailer {
            to_records: distance(end, 4),
            to_certificate: distance(end, 8),
            states: u16::from_le_bytes([end[12], end[13]]),
            situations: end[14],
            commands: end[15],
            rule_states: end[16],
            count: end[17],
        }
    }

    /// Whether the numbers of states and c are in range.
    fn is_in_range(&self) -> bool
        ensures { result ≡ in_range self.now }
    {
        (1..=1024).contains(&self.states) && self.count <= 14
    }

    /// Whether the trailer has the rule's numbers.
    fn is_for<R: Rule>(&self, rule: &R) -> bool
        ensures { result ≡ for_rule (R.Rule.meaning rule.now) self.now }
    {
        self.situations == rule.situations()
            && self.commands == rule.commands()
            && self.rule_states == rule.states()
    }

    /// Whether the distances are those of the layout, and lead no further back than so many bytes.
    fn is_laid_out(&self, room: usize) -> bool
        ensures { result ≡ laid_out self.now room }
    {
        let certificate = self.certificate_size();
        let both = self.records_size() + certificate;
        self.to_records as usize == both
            && self.to_certificate as usize == certificate
            && both <= room
    }

    /// The window on the parts that a trailer tells of.
    pub fn window_on<'a>(&self, file: &'a [u8]) -> Window<'a>
        requires states { (1 ≤ self.now.states) × (self.now.states ≤ 1024) }
        requires count { self.now.count ≤ 14 }
        requires room { records_of self.now + certificate_of self.now + 20 ≤ length file.now }
        ensures situations { result.situations ≡ self.now.situations }
        ensures rule_states { result.rule_states ≡ self.now.rule_states }
        ensures shows { shown result ≡ window_in self.now file.now }
    {
        let end = file.len() - 20;
        let certificate_from = end - self.certificate_size();
        let records_from = certificate_from - self.records_size();
        Window {
            states: self.states,
            situations: self.situations,
            rule_states: self.rule_states,
            count: self.count,
            records: &file[records_from..certificate_from],
            certificate: &file[certificate_from..end],
        }
    }
}

/// The trailer of a file, if it is one for the rule, and the file has room for the parts that it tells of; else what is wrong with
/// it first.
pub fn trailer_of<R: Rule>(rule: &R, file: &[u8]) -> Result<Trailer, Refusal>
    ensures { Opened (R.Rule.meaning rule.now) file.now result }
{
    if file.len() < 20 {
        return Err(Refusal::Trailer);
    }
    let (body, end) = file.split_at(file.len() - 20);
    if !is_marked(end) {
        return Err(Refusal::Trailer);
    }
    let trailer = Trailer::read(end);
    if !trailer.is_in_range() {
        return Err(Refusal::Trailer);
    }
    if !trailer.is_for(rule) {
        return Err(Refusal::OtherSheet);
    }
    if !trailer.is_laid_out(body.len()) {
        return Err(Refusal::Layout);
    }
    Ok(trailer)
}
