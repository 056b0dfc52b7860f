//! What the trees of features hold, in terms of the features. Each contract is a law; the functions do nothing.

ghost use Rattle.cad_json.specs.Laws.{ValuesStandUnderTheirNames, PropertiesHoldTheValues, EveryPropertyIsWritten, IdentifiersAreUnique};
ghost use Rattle.cad_json.specs.Order.{FeaturesAreInOrder};

/// The value in the place of a property is the one under that property's name.
pub fn values_stand_under_their_names()
    ensures { ValuesStandUnderTheirNames }
{}

/// A feature's properties hold its values but for the geometry and the lifespan, and nothing else.
pub fn properties_hold_the_values()
    ensures { PropertiesHoldTheValues }
{}

/// Every property of a feature of the collection is written, even if it has no value.
pub fn every_property_is_written()
    ensures { EveryPropertyIsWritten }
{}

/// Each identifier is that of one object and one number.
pub fn identifiers_are_unique()
    ensures { IdentifiersAreUnique }
{}

/// In each object of a list of features the members are in byte order of their names, and no name occurs twice.
pub fn features_are_in_order()
    ensures { FeaturesAreInOrder }
{}
