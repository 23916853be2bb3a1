//! A window on the parts of a file.

ghost use Rattle.std.specs.Prelude.{◌≡◌, ◌+◌, ◌*◌, ◌≤◌, length};

/// The parts of a file that its trailer tells of, lent: the records and the certificate of so many controller states, for so many
/// situations and rule states, and the number c.
#[derive(Clone, Copy)]
pub struct Window<'a> {
    pub states: u16,
    pub situations: u8,
    pub rule_states: u8,
    pub count: u8,
    pub records: &'a [u8],
    pub certificate: &'a [u8],
    ghost some_state: { 1 ≤ states },
    ghost few_states: { states ≤ 1024 },
    ghost low_count: { count ≤ 14 },
    ghost whole_records: { length records.now ≡ states * (1 + 2 * situations) },
    ghost whole_certificate: { length certificate.now ≡ states * rule_states },
}
