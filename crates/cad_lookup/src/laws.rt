//! What holds of plans. Each contract is a law; the functions do nothing.

ghost use Rattle.cad_lookup.specs.Laws.{WaysHaveTheCandidates};

/// A plan has the same candidates as its way, which is the plan without its place in memory.
pub fn ways_have_the_candidates()
    ensures { WaysHaveTheCandidates }
{}
