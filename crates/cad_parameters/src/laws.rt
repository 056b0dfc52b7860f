//! What the definitions of parameters, identifiers and links say together. Nothing runs here.

ghost use Rattle.cad_parameters.specs.Identifiers.{ReadsWhatIsIdentified};
ghost use Rattle.cad_parameters.specs.Laws.{NoFirstFaultMeansNoFault, PairsAreReadBack, PairsAreTexts, SelfIsReadBack, NextIsReadBack, ContinuedGoesOn};

/// No fault is reported exactly if the pairs have none.
pub fn no_first_fault_means_no_fault()
    ensures { NoFirstFaultMeansNoFault }
{}

/// A text is read as the version that it identifies, and as no other.
pub fn reading_is_identifying()
    ensures { ReadsWhatIsIdentified }
{}

/// The names and values of the pairs of any query are texts.
pub fn pairs_are_texts()
    ensures { PairsAreTexts }
{}

/// Pairs of texts that are written as a query are read again as the same pairs.
pub fn pairs_are_read_back()
    ensures { PairsAreReadBack }
{}

/// The target of a page's own link asks for the same path and pairs.
pub fn self_is_read_back()
    ensures { SelfIsReadBack }
{}

/// The target of the link to the next page asks for the same path and the continued pairs.
pub fn next_is_read_back()
    ensures { NextIsReadBack }
{}

/// The continued pairs ask the same as the pairs of the page, but begin at its revision and after its last feature.
pub fn continued_goes_on()
    ensures { ContinuedGoesOn }
{}
