//! The places that values have among marks.

ghost use Rattle.std.specs.Prelude.{◌≡◌, ◌<◌, IfSome, chars};
ghost use Rattle.cad_feature.specs.Values.{datum_of};
ghost use Rattle.cad_extents.specs.Places.{AreWithin, hash_of_whole as whole_hash, places_by as places_by_of, places_of as places_of_datum, places_of_text as text_places, places_of_whole as whole_places, residue as residue_of};

use cad_feature::Value;
use cql_text::hash_of;

/// The words of marks for all places: 65,536 places, 8 KiB.
pub(crate) const WORDS: usize = 1024;

/// How many places there are.
const PLACES: u32 = 65_536;

/// Hashes are below this, the greatest prime below 2^32.
const MODULUS: u32 = 4_294_967_291;

/// What a number is multiplied by for its hash.
const FACTOR: u64 = 16_777_619;

/// The four places of a value. They are below 65,536, and some may be the same.
#[derive(Debug, Clone, Copy)]
pub(crate) struct Places {
    /// The first.
    pub first: u32,
    /// The one a step behind it.
    pub second: u32,
    /// The one two steps behind it.
    pub third: u32,
    /// The one three steps behind it.
    pub fourth: u32,
}

/// The places by a hash. Its low 16 bits are the first place, and its high 16 bits the step from each place to the next.
fn places_by(hash: u32) -> Places
    ensures places { result ≡ places_by_of hash }
    ensures within { AreWithin result }
{
    let first = hash % PLACES;
    let step = hash / PLACES;
    Places {
        first,
        second: (first + step) % PLACES,
        third: (first + 2 * step) % PLACES,
        fourth: (first + 3 * step) % PLACES,
    }
}

/// What is left of the number by the modulus.
fn residue(number: i64) -> u32
    ensures residue { result ≡ residue_of number }
    ensures within { result < 4294967291 }
{
    number.rem_euclid(i64::from(MODULUS)) as u32
}

/// The hash of a whole number. Numbers that are a multiple of 4,294,967,291 apart have one hash.
fn hash_of_whole(number: i64) -> u32
    ensures hash { result ≡ whole_hash number }
    ensures within { result < 4294967291 }
{
    (u64::from(residue(number)) * FACTOR % u64::from(MODULUS)) as u32
}

/// The places of a whole number.
pub(crate) fn places_of_whole(number: i64) -> Places
    ensures places { result ≡ whole_places number }
    ensures within { AreWithin result }
{
    places_by(hash_of_whole(number))
}

/// The places of a text.
pub(crate) fn places_of_text(text: &str) -> Places
    ensures places { result ≡ text_places (chars text.now) }
    ensures within { AreWithin result }
{
    places_by(hash_of(text))
}

/// The places of a value. Whole numbers and texts have places.
pub(crate) fn places_of(value: &Value) -> Option<Places>
    ensures places { result ≡ places_of_datum (datum_of value.now) }
    ensures within { IfSome result AreWithin }
{
    match value {
        Value::Whole(number) => Some(places_of_whole(*number)),
        Value::Text(text) => Some(places_of_text(text.as_str())),
        _ => None,
    }
}
