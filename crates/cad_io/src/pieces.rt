//! The pieces in which bytes are read and written.

ghost use Rattle.std.specs.Prelude.{◌≡◌, ◌≤◌, drop, length};

/// The most bytes that one read takes.
pub const PIECE_LEN: usize = 4096;

/// The bytes after the first `count`.
pub fn rest_from(bytes: &[u8], count: usize) -> &[u8]
    requires { count ≤ length bytes.now }
    ensures { result.now ≡ drop count bytes.now }
{
    &bytes[count..]
}
