//! Why a read or a write was not done.

ghost use Rattle.std.specs.Prelude.{◌≡◌};
ghost use Rattle.cad_network.specs.Deeds.{is_blocked as is_blocked_of};

use std::io::{Error, ErrorKind};

/// Whether the socket gives or takes nothing at the moment.
pub fn is_blocked(error: &Error) -> bool
    ensures { result ≡ is_blocked_of error.now }
{
    matches!(error.kind(), ErrorKind::WouldBlock)
}
