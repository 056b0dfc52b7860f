//! What holds of changes and of features in their order. Each contract is a law; the functions do nothing.

ghost use Rattle.cad_layer.specs.Laws.{ChangesAdd, IdentifiersAreUnique};

/// Changes may be merged with one another before they are merged with what they change.
pub fn changes_add()
    ensures { ChangesAdd }
{}

/// In a list that ascends at most one feature has a given identifier.
pub fn identifiers_are_unique()
    ensures { IdentifiersAreUnique }
{}
