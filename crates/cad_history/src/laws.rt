//! What holds of registers of accepted commands, and of tables. Each contract is a law; the functions do nothing.

ghost use Rattle.cad_history.specs.Accepted.{AcceptedAreFew, AcceptedAreListed};
ghost use Rattle.cad_history.specs.Tables.{EachHasItsPlace};

/// The versions that the commands made at any revision are a listing: each is a version, and they ascend by identifier.
pub fn accepted_are_listed()
    ensures { AcceptedAreListed }
{}

/// Each command adds a version or ends one, so there are at most twice as many commands as there may be versions.
pub fn accepted_are_few()
    ensures { AcceptedAreFew }
{}

/// Each collection has a place of its own in a table, in the order in which collections are listed.
pub fn each_collection_has_its_place()
    ensures { EachHasItsPlace }
{}
