//! The name at the front of some bytes.

ghost use Rattle.std.specs.Prelude.{◌≡◌, ◌∷◌, true, IfOk, string_bytes};
ghost use Rattle.std.specs.Str.{IsUtf8, byte};
ghost use Rattle.cql_lexer.specs.Mark.{sort_of};
ghost use Rattle.cql_lexer.specs.Names.{bare};
ghost use Rattle.cql_lexer.specs.inner.Scan.{Finds, begins_name};
ghost use Rattle.cql_lexer.specs.Spelling.{IsLongest};

use crate::class::ByteClass;
use crate::keyword::keyword_in_any_case;
use crate::token::Kind;
use std::alloc::{AllocError, Global};

/// Whether a bare name comes first.
pub(crate) fn is_name_first(bytes: &[u8]) -> bool
    ensures { result ≡ begins_name bytes.now }
{
    match bytes {
        [first, ..] => first.is_ascii_alphabetic() || *first == b'_' || *first == b':',
        [] => false,
    }
}

/// The bare name or keyword at the front, and the bytes behind it.
pub(crate) fn name_at<'a>(alloc: Global, bytes: &'a [u8]) -> Result<(Kind, &'a [u8]), AllocError>
    requires { begins_name bytes.now ≡ true }
    ensures { IfOk result (λ name. IsLongest bytes.now (sort_of name.0) name.1.now) }
{
    let (spelling, rest) = ByteClass::NamePart.split_run(bytes);
    let kind = bare_kind(alloc, spelling)?;
    Ok((kind, rest))
}

/// The name behind an opening quote and the bytes behind its closing quote, or `None` if no closing quote follows.
pub(crate) fn quoted_name_at<'a>(
    alloc: Global,
    bytes: &'a [u8],
) -> Result<Option<(Kind, &'a [u8])>, AllocError>
    requires { IsUtf8 bytes.now }
    ensures { IfOk result (Finds (byte "\"" ∷ bytes.now)) }
{
    let (spelling, rest) = ByteClass::Unquoted.split_run(bytes);
    match rest.split_first() {
        Some((_, behind)) => {
            let name = text_of(alloc, spelling)?;
            Ok(Some((Kind::Name(name), behind)))
        }
        None => Ok(None),
    }
}

// What a bare name is: a keyword, or else a name with its spelling.
fn bare_kind(alloc: Global, spelling: &[u8]) -> Result<Kind, AllocError>
    requires { IsUtf8 spelling.now }
    ensures { IfOk result (λ kind. sort_of kind ≡ bare spelling.now) }
{
    match keyword_in_any_case(spelling) {
        Some(keyword) => Ok(Kind::Word(keyword)),
        None => {
            let name = text_of(alloc, spelling)?;
            Ok(Kind::Name(name))
        }
    }
}

/// The text whose UTF-8 these bytes are.
pub(crate) fn text_of(alloc: Global, bytes: &[u8]) -> Result<String, AllocError>
    requires { IsUtf8 bytes.now }
    ensures { IfOk result (λ text. string_bytes text ≡ bytes.now) }
{
    // Valid UTF-8 stays as it is.
    String::from_utf8_lossy(alloc, bytes)
}
