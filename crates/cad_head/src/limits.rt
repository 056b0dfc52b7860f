//! How long a head may be.

ghost use Rattle.std.specs.Prelude.{◌≡◌};
ghost use Rattle.cad_head.specs.Front.{front_bytes as front_bytes_of};

/// The most bytes that a head may have.
pub const FRONT_LEN: usize = 32_768;

/// The most fields that a head may have.
pub const FIELD_ROOM: usize = 64;

/// The bytes that a head may take: the first `FRONT_LEN`, or all if there are fewer.
pub fn front_bytes(bytes: &[u8]) -> &[u8]
    ensures { result.now ≡ front_bytes_of bytes.now }
{
    if bytes.len() < FRONT_LEN {
        bytes
    } else {
        &bytes[..FRONT_LEN]
    }
}
