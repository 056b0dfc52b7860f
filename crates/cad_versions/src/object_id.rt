//! The number of an object of the register.

ghost use Rattle.std.specs.Prelude.{◌≤◌};
ghost use Rattle.cad_versions.specs.Limits.{most_number};

use crate::limits::MOST_NUMBER;

/// The number of an object, from 1 to 2,147,483,647. It names the object permanently.
#[derive(Clone, Copy, Debug, PartialEq, Eq, PartialOrd, Ord)]
pub struct ObjectId {
    number: u32,
    /// Numbers begin with 1.
    pub ghost positive: { 1 ≤ number },
    /// Numbers have 31 bits.
    pub ghost small: { number ≤ most_number },
}

impl ObjectId {
    ghost use Rattle.std.specs.Prelude.{◌≡◌, ◌≤◌, MatchOption};
    ghost use Rattle.cad_versions.specs.Objects.{IsObjectNumber, object_number};

    /// The object with this number, if there can be one.
    pub fn new(number: u32) -> Option<ObjectId>
        ensures { MatchOption result (¬ IsObjectNumber number)
            (λ object. object_number object ≡ number) }
    {
        if 1 <= number && number <= MOST_NUMBER {
            Some(ObjectId { number })
        } else {
            None
        }
    }

    /// From 1 to 2,147,483,647.
    pub fn number(self) -> u32
        ensures value { result ≡ object_number self }
        ensures in_range { IsObjectNumber result }
    {
        self.number
    }
}
