//! The text at the front of some bytes.

ghost use Rattle.std.specs.Prelude.{◌≡◌, ◌∷◌, IfOk};
ghost use Rattle.std.specs.Str.{IsUtf8, byte};
ghost use Rattle.cql_lexer.specs.inner.Scan.{Finds, character_front, seen_byte};

use crate::token::Kind;
use std::alloc::{AllocError, Global};

/// The text behind an opening quote and the bytes behind its closing quote, or `None` if no closing quote follows.
pub(crate) fn text_at<'a>(
    alloc: Global,
    bytes: &'a [u8],
) -> Result<Option<(Kind, &'a [u8])>, AllocError>
    requires { IsUtf8 bytes.now }
    ensures { IfOk result (Finds (byte "'" ∷ bytes.now)) }
{
    let mut content = Vec::new(alloc);
    let mut rest = bytes;
    while let Some((character, behind)) = character_at(rest) {
        content.push(character)?;
        rest = behind;
    }
    let Some((_, behind)) = rest.split_first() else {
        return Ok(None);
    };
    match String::from_utf8(content) {
        Ok(text) => Ok(Some((Kind::Text(text), behind))),
        // Never happens: UTF-8 without some of its quotes is still UTF-8.
        Err(_) => Ok(None),
    }
}

// The byte that the first bytes of a content spell and the bytes behind them, or `None` at the closing quote and the end.
fn character_at(bytes: &[u8]) -> Option<(u8, &[u8])>
    ensures { seen_byte result ≡ character_front bytes.now }
{
    match bytes {
        [b'\'' | b'\\', b'\'', behind @ ..] => Some((b'\'', behind)),
        [b'\'', ..] | [] => None,
        [character, behind @ ..] => Some((*character, behind)),
    }
}
