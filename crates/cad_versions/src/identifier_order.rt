//! The order of identifiers.

ghost use Rattle.std.specs.Prelude.{◌≡◌};
ghost use Rattle.cad_versions.specs.Identifiers.{identifier, identifier_cmp};

use crate::object_id::ObjectId;
use std::cmp::Ordering;

/// How two versions compare, each given by its object and its number: by object, then by number. The numbers need not be those of versions
/// that exist.
pub fn compare_identifiers(one: (ObjectId, u32), other: (ObjectId, u32)) -> Ordering
    ensures { result ≡ identifier_cmp (identifier one.0 one.1) (identifier other.0 other.1) }
{
    let by_object = one.0.number().cmp(&other.0.number());
    by_object.then(one.1.cmp(&other.1))
}
