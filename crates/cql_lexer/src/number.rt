//! The number at the front of some bytes.

ghost use Rattle.std.specs.Prelude.{◌≡◌, true, IfOk};
ghost use Rattle.cql_lexer.specs.Mark.{sort_of};
ghost use Rattle.cql_lexer.specs.inner.Scan.{begins_digit, begins_number, after_digits, after_exponent, after_fraction, after_number, after_run, after_signed};
ghost use Rattle.cql_lexer.specs.Spelling.{IsLongest};
ghost use Rattle.std.specs.Char.{is_ascii_digit};

use crate::class::ByteClass;
use crate::name::text_of;
use crate::token::Kind;
use std::alloc::{AllocError, Global};

/// Whether a number comes first: a digit, or a point and a digit.
pub(crate) fn is_number_first(bytes: &[u8]) -> bool
    ensures { result ≡ begins_number bytes.now }
{
    match bytes {
        [b'.', rest @ ..] => is_digit_first(rest),
        _ => is_digit_first(bytes),
    }
}

fn is_digit_first(bytes: &[u8]) -> bool
    ensures { result ≡ begins_digit bytes.now }
{
    match bytes {
        [first, ..] => first.is_ascii_digit(),
        [] => false,
    }
}

/// The number at the front, and the bytes behind it.
pub(crate) fn number_at<'a>(alloc: Global, bytes: &'a [u8]) -> Result<(Kind, &'a [u8]), AllocError>
    requires { begins_number bytes.now ≡ true }
    ensures { IfOk result (λ number. IsLongest bytes.now (sort_of number.0) number.1.now) }
{
    let rest = behind_number(bytes);
    let spelling = &bytes[..bytes.len() - rest.len()];
    let number = text_of(alloc, spelling)?;
    Ok((Kind::Number(number), rest))
}

fn behind_number(bytes: &[u8]) -> &[u8]
    ensures { result.now ≡ after_number bytes.now }
{
    behind_exponent(behind_fraction(behind_digits(bytes)))
}

fn behind_digits(bytes: &[u8]) -> &[u8]
    ensures { result.now ≡ after_run is_ascii_digit bytes.now }
{
    let (_, rest) = ByteClass::Digit.split_run(bytes);
    rest
}

// Behind a point and any number of digits, if they follow.
fn behind_fraction(bytes: &[u8]) -> &[u8]
    ensures { result.now ≡ after_fraction bytes.now }
{
    match bytes {
        [b'.', rest @ ..] => behind_digits(rest),
        _ => bytes,
    }
}

// Behind `e`, an optional sign, and digits, if they follow.
fn behind_exponent(bytes: &[u8]) -> &[u8]
    ensures { result.now ≡ after_exponent bytes.now }
{
    match bytes {
        [b'e' | b'E', rest @ ..] => behind_power(bytes, rest),
        _ => bytes,
    }
}

// Behind an optional sign and digits, or all of `number_rest` if they do not follow.
fn behind_power<'a>(number_rest: &'a [u8], power: &'a [u8]) -> &'a [u8]
    ensures { result.now ≡ after_signed number_rest.now power.now }
{
    match power {
        [b'+' | b'-', rest @ ..] => behind_some_digits(number_rest, rest),
        _ => behind_some_digits(number_rest, power),
    }
}

fn behind_some_digits<'a>(number_rest: &'a [u8], power: &'a [u8]) -> &'a [u8]
    ensures { result.now ≡ after_digits number_rest.now power.now }
{
    if is_digit_first(power) {
        behind_digits(power)
    } else {
        number_rest
    }
}
