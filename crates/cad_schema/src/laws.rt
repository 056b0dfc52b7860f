//! What holds of collections, and of the names of their properties. Each contract is a law; the functions do nothing.

ghost use Rattle.std.specs.Prelude.{ℕ, List, Contains};
ghost use Rattle.cad_schema.specs.Collections.{collections, NamesAreReadBack, WhatIsReadHasTheName};
ghost use Rattle.cad_schema.specs.Schema.{schema_of, FindsWhatStands, StandsOnce};

use crate::Collection;

/// Each collection is listed.
pub fn each_collection_is_listed(collection: Collection)
    ensures { Contains collections collection }
{}

/// Each collection is read by its name.
pub fn names_are_read_back()
    ensures { NamesAreReadBack }
{}

/// A collection that is read from a name has that name, so it is read from no other name.
pub fn what_is_read_has_the_name()
    ensures { WhatIsReadHasTheName }
{}

/// A property that is found has the name that was looked for, and is at the place that was answered.
pub fn what_is_found_has_the_name(collection: Collection)
    ensures { (name : List ℕ) → FindsWhatStands (schema_of collection) name }
{}

/// Each property of a collection is found by its name, at its own place: no name occurs twice.
pub fn each_property_has_its_own_name(collection: Collection)
    ensures { StandsOnce (schema_of collection) }
{}
