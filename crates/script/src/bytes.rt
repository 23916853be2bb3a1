//! Bytes that a script writes in one word: in hexadecimal digits behind `hex:`, by the name of a file behind `file:`, or as the word itself.
ghost use Rattle.std.specs.Prelude.{IfOk};
ghost use Rattle.script.specs.Bytes.{Tells};

use crate::bad_line::BadLine;
use crate::parse::Fault;
use std::alloc::Global;

/// Where bytes come from.
#[derive(Drop)]
pub enum Source {
    /// The script itself.
    Script(Vec<u8>),
    /// The file of this name.
    File(Vec<u8>),
}

/// The bytes that a word writes, or the file that holds them.
#[tactic(auto, using(crate::proofs::Hex::decoded))]
pub fn bytes_of(heap: Global, word: &[u8]) -> Result<Source, Fault>
    ensures { IfOk result (λ s. Tells word.now s) }
{
    if let Some(digits) = word.strip_prefix(b"hex:") {
        // Before room is made: a bad digit is told even where memory is short. A fold, since `all` takes far longer for each digit.
        if digits.len() % 2 == 0
            && !digits
                .iter()
                .fold(true, |good, digit| good & digit.is_ascii_hexdigit())
        {
            return Err(Fault::Line(BadLine::NotHex));
        }
        return Ok(Source::Script(hex::decode(heap, digits)?));
    }
    if let Some(path) = word.strip_prefix(b"file:") {
        return Ok(Source::File(path.to_vec(heap)?));
    }
    Ok(Source::Script(word.to_vec(heap)?))
}
