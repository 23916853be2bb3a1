//! Check: whether any bytes are the file of a controller for a rule, with a valid certificate.

ghost use Rattle.std.specs.Prelude.{◌≡◌};
ghost use Rattle.model.specs.File as File;

use crate::certificate::Candidate;
use crate::opening::trailer_of;
use model::refusal::Refusal;
use rules::Rule;

/// Looks through a file: answers its number c if it is the file of a controller for the rule, with a valid certificate; else what is
/// wrong first.
pub fn check<R: Rule>(rule: &R, file: &[u8]) -> Result<u8, Refusal>
    ensures { result ≡ File.check (R.Rule.meaning rule.now) file.now }
{
    let trailer = trailer_of(rule, file)?;
    let window = trailer.window_on(file);
    if !window.has_good_records(rule) {
        return Err(Refusal::Record);
    }
    match (Candidate { rule, window }).first_bad_place() {
        Some(place) => Err(Refusal::Certificate(place)),
        None => Ok(window.count),
    }
}
