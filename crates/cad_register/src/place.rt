//! What the next row is checked against.

ghost use Rattle.std.specs.Prelude.{◌≡◌, ◌↔◌, IsTrue};
ghost use Rattle.cad_register.specs.Damage.{place_of, IsNextOf, IsFirstBehind, Follows};

use cad_versions::{Class, Version};

/// Which version a row shows: the number of its object, its own, and its class.
#[derive(Clone, Copy, Debug, PartialEq, Eq)]
pub(crate) struct Place {
    object: u32,
    number: u32,
    class: Class,
}

impl Place {
    /// The place of a version.
    pub(crate) fn of(version: &Version) -> Place
        ensures { result ≡ place_of version.now }
    {
        Place {
            object: version.object.number(),
            number: version.number,
            class: version.body.class(),
        }
    }

    /// Whether the version is the next of the same object, and of its class.
    fn is_before(self, version: &Version) -> bool
        ensures { IsTrue result ↔ IsNextOf self version.now }
    {
        version.object.number() == self.object
            && version.number - 1 == self.number
            && version.body.class() == self.class
    }

    /// Whether the version is the first of a later object.
    fn is_below(self, version: &Version) -> bool
        ensures { IsTrue result ↔ IsFirstBehind self version.now }
    {
        self.object < version.object.number() && version.number == 1
    }
}

/// Whether the version is valid in the row after this place, or without a place in the first row.
pub(crate) fn follows(before: Option<Place>, version: &Version) -> bool
    ensures { IsTrue result ↔ Follows before version.now }
{
    match before {
        None => version.number == 1,
        Some(before) => before.is_before(version) || before.is_below(version),
    }
}
