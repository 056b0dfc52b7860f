//! Names of the objects that a stored version names, as they were at a revision.

ghost use Rattle.std.specs.Prelude.{◌≡◌, ◌≤◌, ◌<◌, ◌&&◌, ℕ, suc, find, Some};
ghost use Rattle.std.specs.Option.{option_copied};
ghost use Rattle.cad_versions.specs.AsOf.{versions_at};
ghost use Rattle.cad_feature.specs.Flatten.{joined_name};
ghost use Rattle.cad_feature.specs.inner.StoredVersions.{is_entry_of, is_held_at as held_at, name_held, LastsAlike, IsHeldAlike, AreHeldAlike, NameStays};

use crate::entries::Entries;
use crate::joining::is_up_to;
use cad_day::Day;
use cad_versions::{ObjectId, StoredVersion, Words};

fn is_of(entry: &StoredVersion, object: ObjectId) -> bool
    ensures { result ≡ is_entry_of object entry.now }
{
    entry.version.object.number() == object.number()
}

fn is_held_at(entry: &StoredVersion, day: Day, revision: u64) -> bool
    ensures { result ≡ held_at revision day entry.now }
{
    entry.is_entered_by(revision)
        && entry.version.first.number() <= day.number()
        && is_up_to(entry.last_at(revision), day)
}

/// The first of the entries that is of the object and holds the day, as the revision has it.
fn first_held<'a>(
    near: &'a [StoredVersion],
    object: ObjectId,
    day: Day,
    revision: u64,
) -> Option<&'a StoredVersion>
    ensures { option_copied result ≡ find (λ entry. is_entry_of object entry && held_at revision day entry) near.now }
{
    near.iter().find(|entry| is_of(entry, object) && is_held_at(entry, day, revision))
}

/// The name in it.
fn name_among<'a>(
    near: &'a [StoredVersion],
    object: ObjectId,
    day: Day,
    revision: u64,
) -> Option<&'a Words>
    ensures { option_copied result ≡ name_held near.now object day revision }
{
    let entry = first_held(near, object, day, revision)?;
    entry.version.body.name()
}

/// The name that the object had on the day, as the revision has it.
pub(crate) fn name_at<'a>(
    entries: &Entries<'a>,
    object: Option<ObjectId>,
    day: Day,
    revision: u64,
) -> Option<&'a Words>
    ensures { option_copied result ≡ joined_name (versions_at revision entries.now.entries.now) day object }
{
    match object {
        None => None,
        Some(object) => name_among(entries.near(object), object, day, revision),
    }
}

/// The later one of two revisions.
pub(crate) fn later(one: u64, other: u64) -> u64
    ensures one { one ≤ result }
    ensures other { other ≤ result }
    ensures within { (most : ℕ) → one ≤ most → other ≤ most → result ≤ most }
{
    if one < other { other } else { one }
}

/// The revision, if it is not after the last one.
pub(crate) fn up_to(revision: u64, most: u64) -> u64
    ensures within { result ≤ most }
    ensures none { (n : ℕ) → result ≤ n → n < most → ¬ (suc n ≡ revision) }
{
    if revision <= most { revision } else { 0 }
}

/// The revision that closed a version, if there is one, and if it is not after the last one.
pub(crate) fn closing_up_to(closed: Option<u64>, most: u64) -> u64
    ensures within { result ≤ most }
    ensures none { (n : ℕ) → result ≤ n → n < most → ¬ (Some (suc n) ≡ closed) }
{
    match closed {
        None => 0,
        Some(closed) => up_to(closed, most),
    }
}

/// A revision, up to the last one, since which the entry's last day is before the day or not as at the last one.
fn last_closing(entry: &StoredVersion, day: Day, most: u64) -> u64
    ensures within { result ≤ most }
    ensures alike { (n : ℕ) → result ≤ n → n < most → LastsAlike n day entry.now }
{
    let version = &entry.version;
    if is_up_to(version.last, day) {
        return 0;
    }
    closing_up_to(entry.closed, most)
}

/// A revision, up to the last one, since which the entry holds the day or not as at the last one.
fn last_turn_of(entry: &StoredVersion, day: Day, most: u64) -> u64
    ensures within { result ≤ most }
    ensures alike { IsHeldAlike result most day entry.now }
{
    let version = &entry.version;
    if day.number() < version.first.number() {
        return 0;
    }
    later(up_to(entry.entered, most), last_closing(entry, day, most))
}

/// The same of all entries of the object among these.
fn last_turn_among(near: &[StoredVersion], object: ObjectId, day: Day, most: u64) -> u64
    ensures within { result ≤ most }
    ensures alike { AreHeldAlike result most object day near.now }
{
    let mut turn = 0;
    for entry in near {
        if is_of(entry, object) {
            turn = later(turn, last_turn_of(entry, day, most));
        }
    }
    turn
}

/// A revision, up to the last one, since which the object has the name on the day that it has at the last one.
pub(crate) fn last_turn(entries: &Entries<'_>, object: Option<ObjectId>, day: Day, most: u64) -> u64
    ensures within { result ≤ most }
    ensures stays { NameStays result most entries.now.entries.now day object }
{
    match object {
        None => 0,
        Some(object) => last_turn_among(entries.near(object), object, day, most),
    }
}
