//! Identifiers of versions and of their features.

ghost use Rattle.std.specs.Prelude.{◌≤◌};
ghost use Rattle.cad_versions.specs.Limits.{most_number};

use crate::limits::MOST_NUMBER;
use crate::object_id::ObjectId;
use std::alloc::{AllocError, Global};

/// The identifier of a version, and of its feature: an object, and the number of the version, from 1 to 2,147,483,647 each.
#[derive(Clone, Copy, Debug, PartialEq, Eq)]
pub struct Identifier {
    /// The object of the version.
    pub object: ObjectId,
    /// The number of the version within its object.
    pub number: u32,
    /// Numbers begin with 1.
    pub ghost positive: { 1 ≤ number },
    /// Numbers have 31 bits.
    pub ghost small: { number ≤ most_number },
}

impl Identifier {
    ghost use Rattle.std.specs.Prelude.{◌≡◌, MatchOption, IfOk, string_bytes};
    ghost use Rattle.cad_versions.specs.Objects.{object_number};
    ghost use Rattle.cad_versions.specs.Identifiers.{IsVersionNumber, identifier_text, numbers_of};

    /// The identifier of the version with this number, if there can be one.
    pub fn new(object: ObjectId, number: u32) -> Option<Identifier>
        ensures { MatchOption result (¬ IsVersionNumber number)
            (λ identifier. numbers_of identifier ≡ (object_number object, number)) }
    {
        if 1 <= number && number <= MOST_NUMBER {
            Some(Identifier { object, number })
        } else {
            None
        }
    }

    /// The text that names it: `3.1` is version 1 of object 3.
    pub fn text(self, alloc: Global) -> Result<String, AllocError>
        ensures { IfOk result (λ text. string_bytes text ≡ identifier_text (numbers_of self)) }
    {
        Identifier::joined(alloc, self.object.number(), self.number)
    }

    fn joined(alloc: Global, object: u32, number: u32) -> Result<String, AllocError>
        ensures { IfOk result (λ text. string_bytes text ≡ identifier_text (object, number)) }
    {
        format!(in alloc; "{object}.{number}")
    }
}
