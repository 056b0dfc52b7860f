//! The symbol at the front of some bytes.

ghost use Rattle.std.specs.Prelude.{◌≡◌};
ghost use Rattle.cql_lexer.specs.inner.Scan.{seen, symbol_front};

use crate::token::{Comparison, Kind};

/// The longest symbol at the front and the bytes behind it, or `None` if no symbol comes first.
#[tactic(auto, unfolding(crate::specs::Symbols::symbol_of))]
pub(crate) fn symbol_at(bytes: &[u8]) -> Option<(Kind, &[u8])>
    ensures { seen result ≡ symbol_front bytes.now }
{
    match bytes {
        [b'(', rest @ ..] => Some((Kind::Open, rest)),
        [b')', rest @ ..] => Some((Kind::Close, rest)),
        [b',', rest @ ..] => Some((Kind::Comma, rest)),
        [b'+', rest @ ..] => Some((Kind::Plus, rest)),
        [b'-', rest @ ..] => Some((Kind::Minus, rest)),
        [b'*', rest @ ..] => Some((Kind::Times, rest)),
        [b'%', rest @ ..] => Some((Kind::Modulo, rest)),
        [b'=', rest @ ..] => Some((Kind::Compare(Comparison::Equal), rest)),
        [b'<', b'>', rest @ ..] => Some((Kind::Compare(Comparison::Unequal), rest)),
        [b'<', b'=', rest @ ..] => Some((Kind::Compare(Comparison::AtMost), rest)),
        [b'<', rest @ ..] => Some((Kind::Compare(Comparison::Less), rest)),
        [b'>', b'=', rest @ ..] => Some((Kind::Compare(Comparison::AtLeast), rest)),
        [b'>', rest @ ..] => Some((Kind::Compare(Comparison::Greater), rest)),
        _ => None,
    }
}
