//! The name of a rule.

ghost use Rattle.std.specs.Prelude.{◌≡◌, ◌≤◌, true, length, take};
ghost use Rattle.model.specs.Text.{good_name};

/// A name: one to eight letters and digits.
// Fixed bytes with a number: reading a text allocates nothing.
#[derive(Clone, Copy)]
pub struct Name {
    bytes: [u8; 8],
    letters: usize,
    ghost few: { letters ≤ 8 },
    ghost good: { good_name (take letters bytes) ≡ true },
}

impl Name {
    ghost use Rattle.ruletext.specs.Names.{spelled};

    /// An own copy of the bytes of a name.
    pub fn of(name: &[u8]) -> Name
        requires { good_name name.now ≡ true }
        ensures { spelled result ≡ name.now }
    {
        let letters = name.len();
        let mut bytes = [0; 8];
        bytes[..letters].copy_from_slice(name);
        Name { bytes, letters }
    }

    /// The bytes, as written.
    pub fn as_slice(&self) -> &[u8]
        ensures { result.now ≡ spelled self.now }
    {
        &self.bytes[..self.letters]
    }
}
