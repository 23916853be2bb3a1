//! The trailer of a file.

ghost use Rattle.std.specs.Prelude.{◌≡◌, ◌+◌, ◌*◌};
ghost use Rattle.ctlfile.specs.Trailers.{records_of, certificate_of, trailer_bytes};

/// The mark at the beginning of every trailer.
pub const MARK: [u8; 4] = [0x54, 0x54, 0x43, 0x31];

/// What a trailer tells: its distances back to the records and to the certificate, and its numbers.
#[derive(Clone, Copy)]
pub struct Trailer {
    pub to_records: u32,
    pub to_certificate: u32,
    pub states: u16,
    pub situations: u8,
    pub commands: u8,
    pub rule_states: u8,
    pub count: u8,
}

/// The size of a record: a command, and a next state of two bytes in each situation.
pub(crate) fn record_size(situations: u8) -> usize
    ensures { result ≡ 1 + 2 * situations }
{
    1 + 2 * situations as usize
}

impl Trailer {
    /// The size of the records.
    pub fn records_size(&self) -> usize
        ensures { result ≡ records_of self.now }
    {
        self.states as usize * record_size(self.situations)
    }

    /// The size of the certificate.
    pub fn certificate_size(&self) -> usize
        ensures { result ≡ certificate_of self.now }
    {
        self.states as usize * self.rule_states as usize
    }

    // Byte by byte, as `read` takes it apart: the layout is the file's.
    /// The bytes of the trailer.
    pub fn bytes(&self) -> [u8; 20]
        ensures { result ≡ trailer_bytes self.now }
    {
        let mut bytes = [0; 20];
        bytes[0..4].copy_from_slice(&MARK);
        bytes[4..8].copy_from_slice(&self.to_records.to_le_bytes());
        bytes[8..12].copy_from_slice(&self.to_certificate.to_le_bytes());
        bytes[12..14].copy_from_slice(&self.states.to_le_bytes());
        bytes[14] = self.situations;
        bytes[15] = self.commands;
        bytes[16] = self.rule_states;
        bytes[17] = self.count;
        bytes
    }
}
