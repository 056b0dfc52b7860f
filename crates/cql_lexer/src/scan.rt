//! The longest token at the front of some bytes.

ghost use Rattle.std.specs.Prelude.{IfOk};
ghost use Rattle.std.specs.Str.{IsUtf8};
ghost use Rattle.cql_lexer.specs.inner.Scan.{Finds};

use crate::name::{is_name_first, name_at, quoted_name_at};
use crate::number::{is_number_first, number_at};
use crate::symbol::symbol_at;
use crate::text::text_at;
use crate::token::Kind;
use std::alloc::{AllocError, Global};

/// The longest token at the front and the bytes behind it, or `None` if no token begins there.
pub(crate) fn token_at<'a>(
    alloc: Global,
    bytes: &'a [u8],
) -> Result<Option<(Kind, &'a [u8])>, AllocError>
    requires { IsUtf8 bytes.now }
    ensures { IfOk result (Finds bytes.now) }
{
    match bytes.split_first() {
        None => Ok(None),
        Some((b'"', behind)) => quoted_name_at(alloc, behind),
        Some((b'\'', behind)) => text_at(alloc, behind),
        Some(_) if is_name_first(bytes) => {
            let name = name_at(alloc, bytes)?;
            Ok(Some(name))
        }
        Some(_) if is_number_first(bytes) => {
            let number = number_at(alloc, bytes)?;
            Ok(Some(number))
        }
        Some(_) => Ok(symbol_at(bytes)),
    }
}
