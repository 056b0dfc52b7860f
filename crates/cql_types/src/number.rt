//! Whole numbers as they are written.

ghost use Rattle.std.specs.Prelude.{◌≡◌, nat_lt, true, if◌then◌else◌, Some, None, string_bytes};
ghost use Rattle.std.specs.Char.{is_ascii_digit};
ghost use Rattle.std.specs.List.{list_all, before_first, after_first};
ghost use Rattle.std.specs.Str.Parse.{digits_value};
ghost use Rattle.cql_types.specs.Numbers as spec;
ghost use Rattle.cql_types.specs.Numbers.{written, held, is_point, is_zero};

use crate::fault::Misuse;
use cql_tree::Number;

/// The value of a number with its sign.
pub(crate) fn whole_number(number: &Number) -> Result<i64, Misuse>
    ensures { result ≡ written number.now.is_negative (string_bytes number.now.digits) }
{
    read_whole(number.is_negative, &number.digits)
}

fn read_whole(is_negative: bool, spelling: &str) -> Result<i64, Misuse>
    ensures { result ≡ written is_negative spelling.now }
{
    let (digits, fraction) = parted(spelling);
    if !are_digits(digits) || !are_zeros(fraction) {
        return Err(Misuse::NotWhole);
    }
    match magnitude(digits) {
        Some(magnitude) => signed(is_negative, magnitude),
        None => Err(Misuse::NumberTooLarge),
    }
}

// The text before the point, and the text behind it.
fn parted(spelling: &str) -> (&str, &str)
    ensures { (result.0.now ≡ before_first is_point spelling.now) × (result.1.now ≡ after_first is_point spelling.now) }
{
    match spelling.split_once('.') {
        Some(parts) => parts,
        None => (spelling, ""),
    }
}

fn are_digits(text: &str) -> bool
    ensures { result ≡ list_all is_ascii_digit text.now }
{
    text.as_bytes().iter().all(|byte| byte.is_ascii_digit())
}

fn are_zeros(text: &str) -> bool
    ensures { result ≡ list_all is_zero text.now }
{
    text.as_bytes().iter().all(|byte| *byte == b'0')
}

// The number that decimal digits spell, if 64 bits hold it. No digits spell 0.
fn magnitude(digits: &str) -> Option<u64>
    requires { list_all is_ascii_digit digits.now ≡ true }
    ensures { result ≡ (if nat_lt (digits_value 10 digits.now) 18446744073709551616 then Some (digits_value 10 digits.now) else None) }
{
    if digits.is_empty() {
        return Some(0);
    }
    digits.parse::<u64>().ok()
}

fn signed(is_negative: bool, magnitude: u64) -> Result<i64, Misuse>
    ensures { result ≡ held (spec.signed is_negative magnitude) }
{
    let magnitude = i128::from(magnitude);
    let value = if is_negative { -magnitude } else { magnitude };
    i64::try_from(value).ok().ok_or(Misuse::NumberTooLarge)
}
