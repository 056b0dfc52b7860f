//! The properties of each collection.

ghost use Rattle.std.specs.Prelude.{◌≡◌, map};
ghost use Rattle.cad_schema.specs.Attributes.{attribute_of, attributes_of, in_byte_order, listed_of};
ghost use Rattle.cad_schema.specs.Schema.{property_of, schema_of, find};

use crate::attribute::Attribute;
use crate::{Collection, Property, PropertyKind};

// The properties of versions of an object, which all features have, and those named here.
macro_rules! properties {
    ($($name:literal: $kind:ident = $attribute:ident),*) => {
        [
            property!("object": Whole = Object),
            property!("number": Whole = Number),
            property!("begin": Day = Begin),
            property!("end": Day = End),
            property!("lifespan": Span = Lifespan),
            $(property!($name: $kind = $attribute)),*
        ]
    };
}

macro_rules! property {
    ($name:literal: $kind:ident = $attribute:ident) => {
        Property {
            name: $name,
            kind: PropertyKind::$kind,
            attribute: Attribute::$attribute,
        }
    };
}

static PARCELS: [Property; 11] = properties!(
    "label": Text = Label, "area": Whole = Area, "geometry": Area = Geometry,
    "reference_point": Spot = ReferencePoint, "unit": Whole = Unit, "unit_name": Text = UnitName
);

static RIGHTS: [Property; 12] = properties!(
    "type": Text = Type, "share_num": Whole = ShareNum, "share_den": Whole = ShareDen,
    "unit": Whole = Unit, "unit_name": Text = UnitName, "party": Whole = Party,
    "party_name": Text = PartyName
);

static RESTRICTIONS: [Property; 13] = properties!(
    "type": Text = Type, "share_num": Whole = ShareNum, "share_den": Whole = ShareDen,
    "unit": Whole = Unit, "unit_name": Text = UnitName, "party": Whole = Party,
    "party_name": Text = PartyName, "party_required": Flag = PartyRequired
);

static UNITS: [Property; 6] = properties!("name": Text = Name);

static PARTIES: [Property; 7] = properties!("name": Text = Name, "type": Text = Type);

/// A property that a feature lists: its name, and the place of its value in the feature.
#[derive(Clone, Copy, Debug)]
pub struct ListedProperty {
    /// Its name.
    pub name: &'static str,
    /// The place of its value.
    pub place: usize,
}

macro_rules! listed {
    ($($name:literal $place:literal),*) => {
        [$(ListedProperty { name: $name, place: $place }),*]
    };
}

static LISTED_OF_PARCELS: [ListedProperty; 9] = listed!(
    "area" 6, "begin" 2, "end" 3, "label" 5, "number" 1, "object" 0, "reference_point" 8, "unit" 9,
    "unit_name" 10
);

static LISTED_OF_RIGHTS: [ListedProperty; 11] = listed!(
    "begin" 2, "end" 3, "number" 1, "object" 0, "party" 10, "party_name" 11, "share_den" 7,
    "share_num" 6, "type" 5, "unit" 8, "unit_name" 9
);

static LISTED_OF_RESTRICTIONS: [ListedProperty; 12] = listed!(
    "begin" 2, "end" 3, "number" 1, "object" 0, "party" 10, "party_name" 11, "party_required" 12,
    "share_den" 7, "share_num" 6, "type" 5, "unit" 8, "unit_name" 9
);

static LISTED_OF_UNITS: [ListedProperty; 5] =
    listed!("begin" 2, "end" 3, "name" 5, "number" 1, "object" 0);

static LISTED_OF_PARTIES: [ListedProperty; 6] =
    listed!("begin" 2, "end" 3, "name" 5, "number" 1, "object" 0, "type" 6);

/// The properties of a collection, in the order of a feature's values.
pub fn schema(collection: Collection) -> &'static [Property]
    ensures named { map property_of result.now ≡ schema_of collection }
    ensures attributes { map attribute_of result.now ≡ attributes_of collection }
{
    match collection {
        Collection::Parcels => &PARCELS,
        Collection::Rights | Collection::Responsibilities => &RIGHTS,
        Collection::Restrictions => &RESTRICTIONS,
        Collection::Units => &UNITS,
        Collection::Parties => &PARTIES,
    }
}

/// The properties that a collection's features list, in byte order of their names: all but the geometry, which has a member of its own, and the
/// lifespan, whose days are listed (RFC 7946).
pub fn listed_properties(collection: Collection) -> &'static [ListedProperty]
    ensures { map listed_of result.now ≡ in_byte_order collection }
{
    match collection {
        Collection::Parcels => &LISTED_OF_PARCELS,
        Collection::Rights | Collection::Responsibilities => &LISTED_OF_RIGHTS,
        Collection::Restrictions => &LISTED_OF_RESTRICTIONS,
        Collection::Units => &LISTED_OF_UNITS,
        Collection::Parties => &LISTED_OF_PARTIES,
    }
}

/// The collection's property with that name: its place in the schema, and its kind.
pub fn find_property(collection: Collection, name: &str) -> Option<(usize, PropertyKind)>
    ensures { result ≡ find (schema_of collection) name.now }
{
    for (place, property) in schema(collection).iter().enumerate() {
        if property.name == name {
            return Some((place, property.kind));
        }
    }
    None
}
