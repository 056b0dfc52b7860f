//! From a text to its tokens, or its fault.

ghost use Rattle.std.specs.Prelude.{◌≡◌, ℕ, ◌≤◌, [], List, Err, IfOk, IsOk, length};
ghost use Rattle.std.specs.Str.{IsUtf8};
ghost use Rattle.cql_lexer.specs.Lexed.{Answers, HasFault, IsSpelt, OrMemory};
ghost use Rattle.cql_lexer.specs.Mark.{Mark, marks};
ghost use Rattle.cql_lexer.specs.inner.Scan.{IsPast, no_token_fault};
ghost use Rattle.cql_lexer.specs.Spelling.{Leads, is_blank};
ghost use Rattle.cql_lexer.specs.declared.fault.LexFault.TheVariants.{At};
ghost use Rattle.cql_lexer.specs.declared.fault.SpellingFault.{SpellingFault};

use crate::class::ByteClass;
use crate::fault::{LexFault, SpellingFault};
use crate::scan::token_at;
use crate::token::{Token, Tokens};
use std::alloc::Global;

// The most bytes that a text may have.
const MOST_BYTES: usize = 8192;

// The most tokens that a text may have.
const MOST_TOKENS: usize = 2000;

/// The tokens of a filter's text in their order, each at the byte where it begins, or the text's one fault.
///
/// A text has at most 8,192 bytes and 2,000 tokens. `TooLong` is looked for first; else the fault
/// is the one at the least place.
pub fn tokens(alloc: Global, text: &str) -> Result<Tokens, LexFault>
    ensures answer { Answers text.now result }
    ensures accepted { (list : List Mark) → IsSpelt text.now list → OrMemory result (IsOk result) }
    ensures only { (list : List Mark) → IsSpelt text.now list
        → IfOk result (λ read. list ≡ marks read.list.items) }
    ensures refused { (fault : SpellingFault) → HasFault text.now fault
        → OrMemory result (result ≡ Err (At fault)) }
{
    read_tokens(alloc, text)
}

fn read_tokens(alloc: Global, text: &str) -> Result<Tokens, LexFault>
    ensures { Answers text.now result }
{
    let bytes = text.as_bytes();
    let end = bytes.len();
    if end > MOST_BYTES {
        return Err(LexFault::At(SpellingFault::TooLong { place: MOST_BYTES }));
    }
    let mut list = Vec::new(alloc);
    let mut rest = skip_blanks(bytes);
    while !rest.is_empty() {
        let place = end - rest.len();
        let Some((kind, behind)) = token_at(alloc, rest)? else {
            return Err(LexFault::At(no_token(place, rest)));
        };
        if list.len() == MOST_TOKENS {
            return Err(LexFault::At(SpellingFault::TooMany { place }));
        }
        list.push(Token { place, kind })?;
        rest = skip_blanks(behind);
    }
    Ok(Tokens { list, end })
}

// The bytes behind the blanks at the front.
fn skip_blanks(bytes: &[u8]) -> &[u8]
    ensures skips { (size : ℕ) → Leads size bytes.now [] result.now }
    ensures all { IsPast is_blank result.now }
    ensures shorter { length result.now ≤ length bytes.now }
    ensures utf8 { IsUtf8 bytes.now → IsUtf8 result.now }
{
    let (_, rest) = ByteClass::Blank.split_run(bytes);
    rest
}

// Why no token begins with these bytes.
fn no_token(place: usize, bytes: &[u8]) -> SpellingFault
    ensures { result ≡ no_token_fault place bytes.now }
{
    match bytes {
        [b'\'' | b'"', ..] => SpellingFault::Unterminated { place },
        _ => SpellingFault::StrangeCharacter { place },
    }
}
