//! What a version says of its object.

ghost use Rattle.std.specs.Prelude.{◌≡◌, ◌≢◌, MatchOption, map};
ghost use Rattle.cad_versions.specs.declared.body.Class.{Class as ClassOf};
ghost use Rattle.cad_versions.specs.Class.{class_attributes, class_name, class_of, class_number, class_numbered};

use crate::object_id::ObjectId;
use crate::share::Share;
use crate::words::Words;
use cad_shape::{Point, Region};

/// What a version says of its object, by the object's class.
#[derive(Debug, Drop)]
pub enum Body {
    /// LA_Party. The code says what kind of party it is.
    Party {
        /// Its name, if given.
        name: Option<Words>,
        /// Which type of party it is, as `naturalPerson`.
        code: Words,
    },
    /// LA_BAUnit.
    Unit {
        /// Its name, if given.
        name: Option<Words>,
    },
    /// LA_SpatialUnit, of one unit.
    Parcel {
        /// The unit that it belongs to.
        unit: ObjectId,
        /// Its name on maps.
        label: Words,
        /// In whole square metres. It is stated with the parcel, not computed from the shape.
        area: Option<u32>,
        /// The region inside an outline and outside holes.
        shape: Option<Region>,
        /// A reference point. There may be one without a shape, and it may lie anywhere.
        spot: Option<Point>,
    },
    /// LA_Right on a unit. The code says what kind of right it is.
    Right {
        /// The unit that the right is on.
        unit: ObjectId,
        /// Who holds it, if given.
        party: Option<ObjectId>,
        /// Which type of right it is, as `ownership`.
        code: Words,
        /// The share in it, if given.
        share: Option<Share>,
    },
    /// LA_Restriction on a unit, and whether a party is required for what it restricts.
    Restriction {
        /// The unit that the restriction is on.
        unit: ObjectId,
        /// Whom it serves, if given.
        party: Option<ObjectId>,
        /// Which type of restriction it is, as `noBuilding`.
        code: Words,
        /// The share in it, if given.
        share: Option<Share>,
        /// Whether a party is needed, if given.
        required: Option<bool>,
    },
    /// LA_Responsibility for a unit. The code says what is to be done.
    Responsibility {
        /// The unit that the responsibility is for.
        unit: ObjectId,
        /// Who holds it, if given.
        party: Option<ObjectId>,
        /// Which type of responsibility it is.
        code: Words,
        /// The share in it, if given.
        share: Option<Share>,
    },
}

/// The class of an object, which all its versions have.
#[derive(Clone, Copy, Debug, PartialEq, Eq)]
pub enum Class {
    /// A person or a body that holds rights.
    Party,
    /// A basic administrative unit, to which rights and parcels belong.
    Unit,
    /// A piece of land.
    Parcel,
    /// A right to a unit.
    Right,
    /// A restriction of a unit.
    Restriction,
    /// A responsibility for a unit.
    Responsibility,
}

impl Body {
    /// The class of the objects that have such a body (ISO 19152).
    pub fn class(&self) -> Class
        ensures { result ≡ class_of self.now }
    {
        match self {
            Body::Party { .. } => Class::Party,
            Body::Unit { .. } => Class::Unit,
            Body::Parcel { .. } => Class::Parcel,
            Body::Right { .. } => Class::Right,
            Body::Restriction { .. } => Class::Restriction,
            Body::Responsibility { .. } => Class::Responsibility,
        }
    }
}

impl Class {
    /// The classes, in the order of the collections that show their versions.
    pub const ALL: [Class; 6] = [
        Class::Parcel,
        Class::Right,
        Class::Restriction,
        Class::Unit,
        Class::Party,
        Class::Responsibility,
    ];

    /// The class's name in commands and counts.
    pub fn name(self) -> &'static str
        ensures { result.now ≡ class_name self }
    {
        match self {
            Class::Party => "party",
            Class::Unit => "unit",
            Class::Parcel => "parcel",
            Class::Right => "right",
            Class::Restriction => "restriction",
            Class::Responsibility => "responsibility",
        }
    }

    /// The class of that name, if there is one.
    pub fn named(name: &str) -> Option<Class>
        ensures { MatchOption result ((class : ClassOf) → name.now ≢ class_name class)
            (λ class. name.now ≡ class_name class) }
    {
        match name {
            "party" => Some(Class::Party),
            "unit" => Some(Class::Unit),
            "parcel" => Some(Class::Parcel),
            "right" => Some(Class::Right),
            "restriction" => Some(Class::Restriction),
            "responsibility" => Some(Class::Responsibility),
            _ => None,
        }
    }

    /// The names of the attributes that a body of the class may have (ISO 19152). Those of a parcel say its shape by an outline and by holes.
    pub fn attributes(self) -> &'static [&'static str]
        ensures { map (λ name. name.now) result.now ≡ class_attributes self }
    {
        match self {
            Class::Party => &["name", "code"],
            Class::Unit => &["name"],
            Class::Parcel => &["unit", "label", "area", "shape", "holes", "spot"],
            Class::Right | Class::Responsibility => &["unit", "party", "code", "share"],
            Class::Restriction => &["unit", "party", "code", "share", "required"],
        }
    }

    /// The class as it is stored.
    pub fn number(self) -> u8
        ensures { result ≡ class_number self }
    {
        match self {
            Class::Party => 1,
            Class::Unit => 2,
            Class::Parcel => 3,
            Class::Right => 4,
            Class::Restriction => 5,
            Class::Responsibility => 6,
        }
    }

    /// The class that is stored as this number.
    pub fn from_number(number: i64) -> Option<Class>
        ensures { result ≡ class_numbered number }
    {
        match number {
            1 => Some(Class::Party),
            2 => Some(Class::Unit),
            3 => Some(Class::Parcel),
            4 => Some(Class::Right),
            5 => Some(Class::Restriction),
            6 => Some(Class::Responsibility),
            _ => None,
        }
    }
}
