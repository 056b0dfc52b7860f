//! What a ledger lists, as text.

use cad_versions::{Ledger, RegisterFault, Version};
use std::alloc::{AllocError, Global};

/// Adds a version to the text.
fn put_version(text: &mut String, version: &Version) -> Result<(), AllocError> {
    let object = version.object.number();
    let number = version.number;
    let first = version.first.number();
    let last = version.last.map(|last| last.number());
    write!(text, "{object}.{number} {first} {last:?};")
}

/// A revision, and the versions that are listed then.
fn text_of(alloc: Global, revision: u64, versions: &[Version]) -> Result<String, AllocError> {
    let mut text = format!(in alloc; "{revision}: ")?;
    for version in versions {
        put_version(&mut text, version)?;
    }
    Ok(text)
}

/// The newest revision of a ledger, and the versions that it lists then, each with the numbers of its first and its last day: `1: 11.1
/// 10957 None;` if version 11.1 alone is listed at revision 1, open since 2000-01-01. No clause says which text it is: the tests of
/// `cad_disk_tests` compare it.
pub fn listed<L: Ledger>(alloc: Global, ledger: &mut L) -> Result<String, RegisterFault> {
    let revision = ledger.revision();
    let versions = ledger.as_of(revision)?;
    let text = text_of(alloc, revision, &versions)?;
    Ok(text)
}
