//! One version of an object.

ghost use Rattle.cad_versions.specs.VersionedObject.{VersionedObject, IsVersion};

use crate::body::Body;
use crate::object_id::ObjectId;
use cad_day::Day;
use std::marker::Model;

/// What the register says of an object from a first to a last day, both included.
///
/// `number` counts the versions of the object from 1 and is at most 2,147,483,647. `last` is `None` while the version is open, and is never before `first`.
#[derive(Debug, Drop)]
pub struct Version {
    /// The object that it is a version of.
    pub object: ObjectId,
    /// Its number within its object: 1, 2, and so on.
    pub number: u32,
    /// The first day on which it holds.
    pub first: Day,
    /// The last day; without one it is open.
    pub last: Option<Day>,
    /// What it says of the object.
    pub body: Body,
}

impl Model for Version {
    ghost use Rattle.cad_versions.specs.VersionedObject.{VersionedObject, IsVersion};

    ghost Value = { VersionedObject };

    ghost view = { λ v. record { object = v.object; number = v.number; first = v.first; last = v.last; body = v.body } };

    ghost invariant = { λ v. IsVersion (record { object = v.object; number = v.number; first = v.first; last = v.last; body = v.body }) };
}
