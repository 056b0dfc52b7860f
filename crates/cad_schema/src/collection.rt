//! Collections.

/// A kind of features.
#[derive(Clone, Copy, PartialEq, Eq, Debug)]
pub enum Collection {
    /// The versions of parcels.
    Parcels,
    /// Those of rights.
    Rights,
    /// Those of restrictions.
    Restrictions,
    /// Those of units.
    Units,
    /// Those of parties.
    Parties,
    /// Those of responsibilities.
    Responsibilities,
}

impl Collection {
    ghost use Rattle.std.specs.Prelude.{◌≡◌};
    ghost use Rattle.cad_schema.specs.Collections.{name_of, collection_named};

    /// The collections, in the order in which they are listed.
    pub const ALL: [Collection; 6] = [
        Collection::Parcels,
        Collection::Rights,
        Collection::Restrictions,
        Collection::Units,
        Collection::Parties,
        Collection::Responsibilities,
    ];

    /// The collection's name in paths.
    pub fn name(self) -> &'static str
        ensures { result.now ≡ name_of self }
    {
        match self {
            Collection::Parcels => "parcels",
            Collection::Rights => "rights",
            Collection::Restrictions => "restrictions",
            Collection::Units => "units",
            Collection::Parties => "parties",
            Collection::Responsibilities => "responsibilities",
        }
    }

    /// The collection with that name, if there is one.
    pub fn read(name: &str) -> Option<Collection>
        ensures { result ≡ collection_named name.now }
    {
        for collection in Collection::ALL {
            if name == collection.name() {
                return Some(collection);
            }
        }
        None
    }
}
