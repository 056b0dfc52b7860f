//! Parcels whose features are indexed.

ghost use Rattle.std.specs.Prelude.{◌≡◌, ◌≤◌, ◌≤ℤ◌, IfOk, length};
ghost use Rattle.std.specs.Option.{ForSome};
ghost use Rattle.cad_day.specs.Days.{number_of};
ghost use Rattle.cad_schema.specs.declared.collection.Collection.TheVariants.{Parcels};
ghost use Rattle.cad_feature.specs.Features.{AreFeaturesOf};
ghost use Rattle.cad_versions.specs.Listing.{IsListing};
ghost use Rattle.cad_versions.specs.Objects.{object_number};
ghost use Rattle.cad_versions.specs.VersionedObject.{IsVersion};

use anyhow::{Context, Result, bail};
use cad_day::Day;
use cad_feature::{Feature, flatten};
use cad_schema::Collection;
use cad_shape::{Point, Region};
use cad_versions::{Body, ObjectId, Version, Words};
use std::alloc::Global;
use std::rc::Rc;

/// What differs from parcel to parcel.
#[derive(Drop)]
pub struct Parcel {
    /// The first day.
    pub first: Day,
    /// The last day, if there is one.
    pub last: Option<Day>,
    /// The name on maps.
    pub label: String,
    /// The area in square metres, if it is given.
    pub area: Option<u32>,
    /// The region, if it has one.
    pub shape: Option<Region>,
    /// The reference point, if it has one.
    pub spot: Option<Point>,
}

/// A parcel without any of them.
pub fn bare(alloc: Global) -> Result<Parcel> {
    let first = Day::read("2000-01-01").context("a day")?;
    let label = String::from_str(alloc, "A")?;
    Ok(Parcel {
        first,
        last: None,
        label,
        area: None,
        shape: None,
        spot: None,
    })
}

// The last day, if it is not before the first.
fn closed(first: Day, last: Option<Day>) -> Option<Day>
    ensures { ForSome result (λ last. number_of first ≤ℤ number_of last) }
{
    let last = last?;
    if first.number() <= last.number() {
        Some(last)
    } else {
        None
    }
}

fn words(alloc: Global, text: String) -> Result<Words> {
    let text = Rc::new(alloc, text)?;
    Words::new(text).ok().context("words")
}

// The version 1 of the parcel with that number.
fn version(alloc: Global, number: u32, parcel: Parcel) -> Result<Version>
    ensures number { IfOk result (λ version. object_number version.object ≡ number) }
    ensures version { IfOk result IsVersion }
{
    let (Some(object), Some(unit)) = (ObjectId::new(number), ObjectId::new(1)) else {
        bail!("no object");
    };
    let Parcel {
        first,
        last,
        label,
        area,
        shape,
        spot,
    } = parcel;
    let label = words(alloc, label)?;
    let last = closed(first, last);
    Ok(Version {
        object,
        number: 1,
        first,
        last,
        body: Body::Parcel {
            unit,
            label,
            area,
            shape,
            spot,
        },
    })
}

const MOST: u32 = 1_000_000;

// The versions of these parcels, numbered from 1; at most 1,000,000.
fn listed(alloc: Global, parcels: Vec<Parcel>) -> Result<Vec<Version>>
    ensures { IfOk result (λ versions. IsListing versions.items) }
{
    let mut versions = Vec::new(alloc);
    let mut number: u32 = 0;
    for parcel in parcels {
        if number >= MOST {
            bail!("too many parcels");
        }
        number += 1;
        let version = version(alloc, number, parcel)?;
        versions.push(version)?;
    }
    Ok(versions)
}

/// The features of these parcels, numbered from 1; at most 1,000,000.
pub fn features(alloc: Global, parcels: Vec<Parcel>) -> Result<Vec<Feature>>
    ensures listed { IfOk result (λ features. AreFeaturesOf Parcels features.items) }
    ensures few { IfOk result (λ features. length features.items ≤ 4294967295) }
{
    let versions = listed(alloc, parcels)?;
    let features = flatten(alloc, &versions, Collection::Parcels)?;
    if features.len() > MOST as usize {
        bail!("too many parcels");
    }
    Ok(features)
}
