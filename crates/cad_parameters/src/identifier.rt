//! Identifiers in requests.

ghost use Rattle.std.specs.Prelude.{◌≡◌, option_map};
ghost use Rattle.cad_parameters.specs.Identifiers.{identifier_named, numbers_of};

use crate::numerals::counting_number;
use crate::parts::part;
use cad_versions::{Identifier, ObjectId};

/// The identifier that a text names: two numbers without leading zeros, separated by a point.
pub fn read_identifier(text: &str) -> Option<Identifier>
    ensures { option_map numbers_of result ≡ identifier_named text.now }
{
    let (object, number) = part(text.as_bytes(), b'.')?;
    let object = ObjectId::new(counting_number(object)?)?;
    Identifier::new(object, counting_number(number)?)
}
