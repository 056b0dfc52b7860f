//! Numbers that decimal digits spell.

ghost use Rattle.std.specs.Prelude.{◌≡◌, ◌≤◌, ◌+◌, ◌*◌, min, length, option_map, IfSome};
ghost use Rattle.cad_io.specs.Decimals.{number_in};

/// More than any number of 18 digits: 10^18.
const MANY: u64 = 1_000_000_000_000_000_000;

/// The number that decimal digits spell, or 10^18 if it is more.
pub fn number(digits: &[u8]) -> Option<u64>
    ensures value { result ≡ option_map (min 1000000000000000000) (number_in digits.now) }
    ensures bound { IfSome result (λ n. n ≤ 1000000000000000000) }
{
    if digits.is_empty() {
        return None;
    }
    let mut number = 0;
    for digit in digits {
        if !digit.is_ascii_digit() {
            return None;
        }
        number = one_more(number, *digit - b'0');
    }
    Some(number)
}

/// The number with one more digit, or 10^18 if it is more.
fn one_more(number: u64, digit: u8) -> u64
    requires number { number ≤ 1000000000000000000 }
    requires digit { digit ≤ 9 }
    ensures { result ≡ min 1000000000000000000 (number * 10 + digit) }
{
    let more = number * 10 + u64::from(digit);
    if more < MANY { more } else { MANY }
}

/// The number that at most 18 decimal digits spell.
pub fn short_number(digits: &[u8]) -> Option<u64>
    requires { length digits.now ≤ 18 }
    ensures { result ≡ number_in digits.now }
{
    number(digits)
}
