//! What holds of features. Each contract is a law; the functions do nothing.

ghost use Rattle.cad_versions.specs.BodyParts.{unit_named, party_named};
ghost use Rattle.cad_schema.specs.declared.attribute.Attribute.TheVariants as attribute;
ghost use Rattle.cad_feature.specs.Laws.{EachVersionIsOneFeature, LifespansAreThoseOfVersions, NamesAreOfTheFirstDay, NoneIsJoinedWithoutVersion};

use cad_schema::Collection;

/// Each version of the collection's class gives one feature, with its identifier, and there are no other features.
pub fn each_version_is_one_feature(collection: Collection)
    ensures { EachVersionIsOneFeature collection }
{}

/// A lifespan runs from its version's first day to its last, and is open if there is no last day.
pub fn lifespans_are_those_of_versions()
    ensures { LifespansAreThoseOfVersions }
{}

/// A joined name is one that the named object had on the first day of the version that names it.
pub fn names_are_of_the_first_day()
    ensures unit { NamesAreOfTheFirstDay unit_named attribute.UnitName }
    ensures party { NamesAreOfTheFirstDay party_named attribute.PartyName }
{}

/// If the named object had no version on that day, no name is joined.
pub fn no_name_is_joined_without_a_version()
    ensures unit { NoneIsJoinedWithoutVersion unit_named attribute.UnitName }
    ensures party { NoneIsJoinedWithoutVersion party_named attribute.PartyName }
{}
