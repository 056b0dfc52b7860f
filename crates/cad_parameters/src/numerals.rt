//! Numbers in requests.

ghost use Rattle.std.specs.Prelude.{◌≡◌, IfSome};
ghost use Rattle.cad_versions.specs.Objects.{IsObjectNumber};
ghost use Rattle.cad_parameters.specs.Numerals as spec;
ghost use Rattle.cad_parameters.specs.Numerals.{limit_of, revision_of};

use cad_io::{number, short_number};
use cad_versions::MOST_NUMBER;

/// The most digits of a revision.
const MOST_REVISION_DIGITS: usize = 18;

/// A number from 1 to 2,147,483,647 without leading zeros.
pub(crate) fn counting_number(digits: &[u8]) -> Option<u32>
    ensures value { result ≡ spec.counting_number digits.now }
    ensures in_range { IfSome result IsObjectNumber }
{
    if !digits.is_empty() && digits[0] == b'0' {
        return None;
    }
    let number = number(digits)?;
    if 1 <= number && number <= u64::from(MOST_NUMBER) {
        Some(number as u32)
    } else {
        None
    }
}

/// The most features of a page: a number from 1; more than 1,000 means 1,000.
pub(crate) fn limit_in(text: &str) -> Option<u32>
    ensures { result ≡ limit_of text.now }
{
    let limit = number(text.as_bytes())?;
    if limit == 0 {
        return None;
    }
    Some(if limit < 1000 { limit as u32 } else { 1000 })
}

/// A revision: 1 to 18 digits.
pub(crate) fn revision_in(text: &str) -> Option<u64>
    ensures { result ≡ revision_of text.now }
{
    if text.len() > MOST_REVISION_DIGITS {
        return None;
    }
    short_number(text.as_bytes())
}
