//! The current state of objects, and what it refuses.

ghost use Rattle.std.specs.Prelude.{◌≡◌, ◌≤◌, length, map, Some};
ghost use Rattle.cad_versions.specs.Versions.{history};
ghost use Rattle.cad_versions.specs.Refusals.{class_at, open_since, is_entered as entered, is_full as filled, refuses_body, refusal};
ghost use Rattle.cad_versions.specs.Entries.{version_in};

use crate::stored_version::StoredVersion;
use cad_day::Day;
use cad_versions::{Body, Class, Command, MOST_VERSIONS, ObjectId, RegisterFault};

fn class_of(kept: &[StoredVersion], object: ObjectId) -> Option<Class>
    ensures { result ≡ class_at (map version_in kept.now) object }
{
    for version in kept {
        if version.is_of(object) {
            return Some(version.body().class());
        }
    }
    None
}

fn opened_on(kept: &[StoredVersion], object: ObjectId) -> Option<Day>
    ensures { result ≡ open_since (map version_in kept.now) object }
{
    for version in kept {
        if version.is_open_of(object) {
            return Some(version.first());
        }
    }
    None
}

/// How many versions of the object are kept.
pub(crate) fn count_of(kept: &[StoredVersion], object: ObjectId) -> usize
    ensures counted { result ≡ length (history object (map version_in kept.now)) }
    ensures small { result ≤ length kept.now }
{
    let mut count = 0;
    for version in kept {
        if version.is_of(object) {
            count += 1;
        }
    }
    count
}

fn is_entered(kept: &[StoredVersion], class: Class, object: Option<ObjectId>) -> bool
    ensures { result ≡ entered (map version_in kept.now) class object }
{
    match object {
        None => true,
        Some(object) => match class_of(kept, object) {
            None => false,
            Some(found) => class == found,
        },
    }
}

fn is_full(kept: &[StoredVersion]) -> bool
    ensures { result ≡ filled (map version_in kept.now) }
{
    MOST_VERSIONS as usize <= kept.len()
}

fn refusal_of_body(kept: &[StoredVersion], body: &Body) -> Option<RegisterFault>
    ensures { result ≡ refuses_body (map version_in kept.now) (Some body.now) }
{
    if !is_entered(kept, Class::Unit, body.unit()) {
        return Some(RegisterFault::UnknownReference);
    }
    if !is_entered(kept, Class::Party, body.party()) {
        return Some(RegisterFault::UnknownReference);
    }
    if is_full(kept) {
        return Some(RegisterFault::Full);
    }
    None
}

/// Why the command is refused, given the versions that are kept.
pub(crate) fn refusal_of(kept: &[StoredVersion], command: &Command) -> Option<RegisterFault>
    ensures { result ≡ refusal (map version_in kept.now) command.now }
{
    let object = command.object();
    let class = class_of(kept, object);
    let since = opened_on(kept, object);
    if let Some(fault) = command.refused_by_object(class, since) {
        return Some(fault);
    }
    match command.body() {
        None => None,
        Some(body) => refusal_of_body(kept, body),
    }
}
