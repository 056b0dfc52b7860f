//! Versions that were entered before the one before them.

ghost use Rattle.std.specs.Prelude.{◌≡◌};
ghost use Rattle.cad_server.specs.Turns.{damage_of as damage_in, earlier_damage as first_damage, is_early as comes_early, turn_of as turn_in};
ghost use Rattle.cad_server.specs.Servers.{ListsInTurn};

use cad_versions::{HistoryLedger, RegisterFault, StoredVersion};

/// The number of the object of a version, and the revision that entered it.
fn turn_of(stored: &StoredVersion) -> (u32, u64)
    ensures { result ≡ turn_in stored.now }
{
    (stored.version.object.number(), stored.entered)
}

/// Whether the version before it is of the same object, and was entered later.
fn is_early(before: Option<(u32, u64)>, stored: &StoredVersion) -> bool
    ensures { result ≡ comes_early before stored.now }
{
    match before {
        None => false,
        Some((object, entered)) => {
            object == stored.version.object.number() && stored.entered < entered
        }
    }
}

/// The fault that names the row of a version.
fn damage_of(stored: &StoredVersion) -> RegisterFault
    ensures { result ≡ damage_in stored.now }
{
    RegisterFault::Damaged {
        object: i64::from(stored.version.object.number()),
        number: i64::from(stored.version.number),
    }
}

/// The damage that only an earlier revision than the newest shows: the first version that was entered before the one before it.
fn earlier_damage(versions: &[StoredVersion]) -> Option<RegisterFault>
    ensures { result ≡ first_damage versions.now }
{
    let mut before = None;
    for stored in versions {
        if is_early(before, stored) {
            return Some(damage_of(stored));
        }
        before = Some(turn_of(stored));
    }
    None
}

/// The versions that the ledger stores. A version that was entered before the one before it counts as damaged.
pub(crate) fn versions_in_turn<L: HistoryLedger>(
    ledger: &mut L,
) -> Result<Vec<StoredVersion>, RegisterFault>
    ensures { ListsInTurn L.Ledger ledger.old result ledger.new }
{
    let versions = ledger.stored_versions()?;
    match earlier_damage(&versions) {
        None => Ok(versions),
        Some(fault) => Err(fault),
    }
}
