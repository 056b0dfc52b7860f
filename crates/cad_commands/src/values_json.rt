//! The JSON value that says each part of a command.

ghost use Rattle.std.specs.Prelude.{◌≡◌, IfOk};
ghost use Rattle.std.specs.Option.{option_copied};
ghost use Rattle.serde_json.specs.Data.{array, boolean};
ghost use Rattle.serde_json.specs.View.{view};
ghost use Rattle.cad_commands.specs.Writing as written;

use cad_day::Day;
use cad_shape::{Point, Region, Ring};
use cad_versions::{ObjectId, Share, Words};
use serde_json::{Value as Json, json};
use std::alloc::{AllocError, Global};

pub(crate) fn day_json(alloc: Global, day: Day) -> Result<Json, AllocError>
    ensures { IfOk result (λ json. view json ≡ written.day_json day) }
{
    let mut text = String::with_capacity(alloc, 10)?;
    day.put(&mut text)?;
    Ok(Json::String(text))
}

pub(crate) fn object_json(object: ObjectId) -> Json
    ensures { view result ≡ written.object_json object }
{
    Json::from(object.number())
}

fn words_json(alloc: Global, words: &Words) -> Result<Json, AllocError>
    ensures { IfOk result (λ json. view json ≡ written.words_json words.now) }
{
    Json::try_from_str(alloc, words.as_str())
}

fn share_json(alloc: Global, share: Share) -> Result<Json, AllocError>
    ensures { IfOk result (λ json. view json ≡ written.share_json share) }
{
    let num = share.num();
    let den = share.den();
    json!(in alloc; [num, den])
}

fn point_json(alloc: Global, point: Point) -> Result<Json, AllocError>
    ensures { IfOk result (λ json. view json ≡ written.point_json point) }
{
    json!(in alloc; [point.x, point.y])
}

fn ring_json(alloc: Global, ring: &Ring) -> Result<Json, AllocError>
    ensures { IfOk result (λ json. view json ≡ written.ring_json ring.now) }
{
    let corners = ring.corners();
    let mut list = Vec::with_capacity(alloc, corners.len())?;
    for corner in corners {
        list.push(point_json(alloc, *corner)?)?;
    }
    Ok(Json::Array(list))
}

fn rings_json(alloc: Global, rings: &[Ring]) -> Result<Json, AllocError>
    ensures { IfOk result (λ json. view json ≡ array (written.rings_json rings.now)) }
{
    let mut list = Vec::with_capacity(alloc, rings.len())?;
    for ring in rings {
        list.push(ring_json(alloc, ring)?)?;
    }
    Ok(Json::Array(list))
}

fn region_outline_json(alloc: Global, region: &Region) -> Result<Json, AllocError>
    ensures { IfOk result (λ json. view json ≡ written.outline_json region.now) }
{
    match region.rings().first() {
        None => Ok(Json::Null),
        Some(outer) => ring_json(alloc, outer),
    }
}

fn region_holes_json(alloc: Global, region: &Region) -> Result<Json, AllocError>
    ensures { IfOk result (λ json. view json ≡ written.holes_json region.now) }
{
    match region.rings().split_first() {
        None => Ok(Json::Null),
        Some((_, holes)) => rings_json(alloc, holes),
    }
}

pub(crate) fn any_words_json(alloc: Global, words: Option<&Words>) -> Result<Json, AllocError>
    ensures { IfOk result (λ json. view json ≡ written.or_null written.words_json (option_copied words.entry)) }
{
    match words {
        None => Ok(Json::Null),
        Some(words) => words_json(alloc, words),
    }
}

pub(crate) fn any_object_json(object: Option<ObjectId>) -> Json
    ensures { view result ≡ written.or_null written.object_json object }
{
    match object {
        None => Json::Null,
        Some(object) => object_json(object),
    }
}

pub(crate) fn area_json(area: Option<u32>) -> Json
    ensures { view result ≡ written.or_null written.whole_json area }
{
    match area {
        None => Json::Null,
        Some(area) => Json::from(area),
    }
}

pub(crate) fn any_share_json(alloc: Global, share: Option<Share>) -> Result<Json, AllocError>
    ensures { IfOk result (λ json. view json ≡ written.or_null written.share_json share) }
{
    match share {
        None => Ok(Json::Null),
        Some(share) => share_json(alloc, share),
    }
}

pub(crate) fn spot_json(alloc: Global, spot: Option<Point>) -> Result<Json, AllocError>
    ensures { IfOk result (λ json. view json ≡ written.or_null written.point_json spot) }
{
    match spot {
        None => Ok(Json::Null),
        Some(point) => point_json(alloc, point),
    }
}

pub(crate) fn flag_json(flag: Option<bool>) -> Json
    ensures { view result ≡ written.or_null boolean flag }
{
    match flag {
        None => Json::Null,
        Some(flag) => Json::Bool(flag),
    }
}

pub(crate) fn shape_json(alloc: Global, shape: Option<&Region>) -> Result<Json, AllocError>
    ensures { IfOk result (λ json. view json ≡ written.or_null written.outline_json (option_copied shape.entry)) }
{
    match shape {
        None => Ok(Json::Null),
        Some(region) => region_outline_json(alloc, region),
    }
}

pub(crate) fn holes_json(alloc: Global, shape: Option<&Region>) -> Result<Json, AllocError>
    ensures { IfOk result (λ json. view json ≡ written.or_null written.holes_json (option_copied shape.entry)) }
{
    match shape {
        None => Ok(Json::Null),
        Some(region) => region_holes_json(alloc, region),
    }
}
