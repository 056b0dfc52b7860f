//! Runs of bytes of one class.

ghost use Rattle.std.specs.Prelude.{◌≡◌, length, take_while};
ghost use Rattle.cql_lexer.specs.inner.Scan.{after_run, is_in, run_of};

/// The classes of bytes of which runs are read.
#[derive(Clone, Copy, PartialEq, Eq, Debug)]
pub(crate) enum ByteClass {
    Blank,
    NamePart,
    Digit,
    Unquoted,
}

impl ByteClass {
    fn has(self, byte: u8) -> bool
        ensures { result ≡ is_in self byte }
    {
        match self {
            ByteClass::Blank => matches!(byte, b' ' | b'\t' | b'\r' | b'\n'),
            ByteClass::NamePart => {
                byte.is_ascii_alphanumeric() || byte == b'_' || byte == b'.' || byte == b':'
            }
            ByteClass::Digit => byte.is_ascii_digit(),
            ByteClass::Unquoted => byte != b'"',
        }
    }

    // How many bytes at the front are of the class.
    fn run_length(self, bytes: &[u8]) -> usize
        ensures { result ≡ length (take_while (is_in self) bytes.now) }
    {
        bytes.iter().take_while(|byte| self.has(**byte)).count()
    }

    /// The bytes of the class at the front, and those behind them.
    pub(crate) fn split_run(self, bytes: &[u8]) -> (&[u8], &[u8])
        ensures run { result.0.now ≡ run_of (is_in self) bytes.now }
        ensures rest { result.1.now ≡ after_run (is_in self) bytes.now }
    {
        bytes.split_at(self.run_length(bytes))
    }
}
