//! Versions that are found by their objects.

ghost use Rattle.std.specs.Prelude.{◌≡◌, ◌≤◌, ◌<◌, ◌+◌, ◌-◌, ◌++◌, IfOk, OnOk, length, replicate};
ghost use Rattle.std.specs.List.{AllWithin};
ghost use Rattle.std.specs.List.Sorted.{IsNonDecreasingBy};
ghost use Rattle.cad_versions.specs.Listing.{IsListing};
ghost use Rattle.cad_versions.specs.Versions.{history};
ghost use Rattle.cad_feature.specs.inner.Stretches.{number_in, stretch_in, AreStarts};

use cad_versions::{ObjectId, Version};
use std::alloc::{AllocError, Global};

/// Versions by their objects, and where those of the first stretches of object numbers begin.
///
/// If starts are kept, there are at most as many stretches as versions. So if the numbers are about evenly spread, a search looks at a few
/// versions; at worst it is a binary search in all of them.
#[derive(Drop)]
pub(crate) struct Objects<'a> {
    pub(crate) versions: &'a [Version],
    width: u32,
    starts: Vec<u32>,
    ghost wide: { 1 ≤ width },
    ghost rising: { IsNonDecreasingBy number_in versions.now },
    ghost marked: { AreStarts width versions.now (length versions.now) starts.items },
}

/// A width of stretches, chosen so that there are at most as many stretches as versions.
fn width(versions: &[Version]) -> u32
    requires { IsListing versions.now }
    ensures { 1 ≤ result }
{
    match versions.last() {
        None => 1,
        Some(last) => last.object.number() / (versions.len() as u32).max(1) + 1,
    }
}

/// Makes the stretch start at the position, and with it the stretches before it that have no start yet.
fn mark(starts: &mut Vec<u32>, stretch: u32, position: u32) -> Result<(), AllocError>
    ensures { OnOk result (starts.new.items ≡ starts.old.items ++ replicate (stretch + 1 - length starts.old.items) position) }
{
    for _next in starts.len()..stretch as usize + 1 {
        starts.push(position)?;
    }
    Ok(())
}

/// The starts of all stretches up to the last version's.
fn starts(alloc: Global, versions: &[Version], width: u32) -> Result<Vec<u32>, AllocError>
    requires listing { IsListing versions.now }
    requires wide { 1 ≤ width }
    ensures { IfOk result (λ starts. AreStarts width versions.now (length versions.now) starts.items) }
{
    let mut starts = Vec::with_capacity(alloc, versions.len())?;
    for (position, version) in versions.iter().enumerate() {
        let stretch = version.object.number() / width;
        mark(&mut starts, stretch, position as u32)?;
    }
    Ok(starts)
}

impl<'a> Objects<'a> {
    /// The versions without starts, for few searches: each looks at all versions.
    pub(crate) fn unmarked(alloc: Global, versions: &'a [Version]) -> Objects<'a>
        requires { IsListing versions.now }
        ensures { result.versions.now ≡ versions.now }
    {
        Objects {
            versions,
            width: 1,
            starts: Vec::new(alloc),
        }
    }

    /// The versions with starts, for many searches. An error means out of memory.
    pub(crate) fn marked(alloc: Global, versions: &'a [Version]) -> Result<Objects<'a>, AllocError>
        requires { IsListing versions.now }
        ensures { IfOk result (λ objects. objects.versions.now ≡ versions.now) }
    {
        let width = width(versions);
        let starts = starts(alloc, versions, width)?;
        Ok(Objects {
            versions,
            width,
            starts,
        })
    }

    /// A position before which all versions are of earlier stretches.
    fn start(&self, stretch: u32) -> usize
        ensures within { result ≤ length self.now.versions.now }
        ensures before { AllWithin (λ v. stretch_in self.now.width v < stretch) self.now.versions.now 0 result }
    {
        let stretch = stretch as usize;
        if stretch < self.starts.len() {
            self.starts[stretch] as usize
        } else {
            0
        }
    }

    /// A position from which on all versions are of later stretches.
    fn end(&self, stretch: u32) -> usize
        ensures within { result ≤ length self.now.versions.now }
        ensures after { AllWithin (λ v. stretch < stretch_in self.now.width v) self.now.versions.now result (length self.now.versions.now) }
    {
        let next = stretch as usize + 1;
        if next < self.starts.len() {
            self.starts[next] as usize
        } else {
            self.versions.len()
        }
    }

    /// Consecutive versions, among them all those of the object.
    pub(crate) fn near(&self, object: ObjectId) -> &'a [Version]
        ensures rising { IsNonDecreasingBy number_in result.now }
        ensures all { history object result.now ≡ history object self.now.versions.now }
    {
        let stretch = object.number() / self.width;
        let start = self.start(stretch);
        let end = self.end(stretch);
        &self.versions[start..end]
    }
}
