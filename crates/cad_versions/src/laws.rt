//! What holds of every register, no matter which commands made it. Each contract is a law; the functions do nothing.

ghost use Rattle.cad_versions.specs.Class.{EachClassIsListed};
ghost use Rattle.cad_versions.specs.LedgerCalls.{ChecksForetell};
ghost use Rattle.cad_versions.specs.Laws.{VersionsAreHistories, ObjectsEndWhenRetired, RevisionsStay, RevisionsAreSeen, BytesAreOfOneShape};

use crate::ledger::Ledger;

/// Each class is listed.
pub fn each_class_is_listed()
    ensures { EachClassIsListed }
{}

/// Each object's versions are numbered 1, 2 and so on. Each but the last is closed on the very day before the next one begins.
pub fn versions_are_histories()
    ensures { VersionsAreHistories }
{}

/// The last version of an object ends on the day on which a command retired the object, and is open if no command did.
pub fn objects_end_when_retired()
    ensures { ObjectsEndWhenRetired }
{}

/// A past revision stays the same, no matter which commands come later.
pub fn revisions_stay()
    ensures { RevisionsStay }
{}

/// The entries up to a revision, without the closings of later revisions, are the register at that revision.
pub fn revisions_are_seen()
    ensures { RevisionsAreSeen }
{}

/// Bytes encode at most one shape, no matter which form the first of them names.
pub fn bytes_are_of_one_shape()
    ensures { BytesAreOfOneShape }
{}

/// What a ledger answers when a command is checked is what it answers when the command is applied next, unless its store itself refuses one
/// of the two.
pub fn checks_foretell<L: Ledger>()
    ensures { ChecksForetell L.Ledger }
{}
