//! Features.

ghost use Rattle.std.specs.Prelude.{◌≡◌, IfOk, OnOk, Some, map, string_bytes};
ghost use Rattle.serde_json.specs.Data.{string};
ghost use Rattle.serde_json.specs.Read.{read};
ghost use Rattle.serde_json.specs.Written.{compact_text};
ghost use Rattle.cad_versions.specs.Identifiers.{identifier_text};
ghost use Rattle.cad_feature.specs.Features.{numbers_of};
ghost use Rattle.cad_json.specs.Links.{own_links};
ghost use Rattle.cad_json.specs.Sent.{Sends};
ghost use Rattle.cad_json.specs.Tree.{feature_data, features_data, feature_with_links};

use crate::links::send_link;
use crate::properties::{send_geometry, send_properties};
use arrayvec::ArrayString;
use cad_feature::Feature;
use cad_schema::Collection;
use itoa::Buffer;
use serde::{Described, Serialize, Serializer};
use std::alloc::{AllocError, Global};

/// The text of the identifier, without an allocation: the numbers of an object and of a version have ten digits at most.
fn send_identifier<S: Serializer>(feature: &Feature, out: &mut S) -> Result<(), S::Error>
    ensures { OnOk result (Sends (string (identifier_text (numbers_of feature.now))) (S.written out.old) (S.written out.new)) }
{
    let mut digits = Buffer::new();
    let mut text = ArrayString::<21>::new();
    text.push_str(digits.format(feature.object.number()));
    text.push_str(".");
    text.push_str(digits.format(feature.number));
    out.str(text.as_str())
}

fn send_feature<S: Serializer>(
    collection: Collection,
    feature: &Feature,
    out: &mut S,
) -> Result<(), S::Error>
    ensures { OnOk result (Sends (feature_data collection feature.now) (S.written out.old) (S.written out.new)) }
{
    out.begin_map(Some(4))?;
    out.key("geometry")?;
    send_geometry(collection, feature, out)?;
    out.key("id")?;
    send_identifier(feature, out)?;
    out.key("properties")?;
    send_properties(collection, feature, out)?;
    out.key("type")?;
    out.str("Feature")?;
    out.end_map()
}

fn send_own_links<S: Serializer>(own: &str, home: &str, out: &mut S) -> Result<(), S::Error>
    ensures { OnOk result (Sends (own_links own.now home.now) (S.written out.old) (S.written out.new)) }
{
    out.begin_seq(Some(2))?;
    send_link(own, "self", out)?;
    send_link(home, "collection", out)?;
    out.end_seq()
}

/// A feature with the links to itself and to its collection. An error is one of the serializer.
pub fn send_linked_feature<S: Serializer>(
    collection: Collection,
    feature: &Feature,
    own: &str,
    home: &str,
    out: &mut S,
) -> Result<(), S::Error>
    ensures { OnOk result (Sends (feature_with_links collection feature.now (own_links own.now home.now)) (S.written out.old) (S.written out.new)) }
{
    out.begin_map(Some(5))?;
    out.key("geometry")?;
    send_geometry(collection, feature, out)?;
    out.key("id")?;
    send_identifier(feature, out)?;
    out.key("links")?;
    send_own_links(own, home, out)?;
    out.key("properties")?;
    send_properties(collection, feature, out)?;
    out.key("type")?;
    out.str("Feature")?;
    out.end_map()
}

/// The features of a list, in its order. An error is one of the serializer.
pub fn send_features<S: Serializer>(
    collection: Collection,
    features: &[&Feature],
    out: &mut S,
) -> Result<(), S::Error>
    ensures { OnOk result (Sends (features_data collection (map (λ x. x.now) features.now)) (S.written out.old) (S.written out.new)) }
{
    out.begin_seq(Some(features.len()))?;
    for feature in features {
        send_feature(collection, feature, out)?;
    }
    out.end_seq()
}

/// A feature of a collection, to be written.
#[derive(Drop)]
struct Sent<'a> {
    collection: Collection,
    feature: &'a Feature,
}

impl Described for Sent<'_> {
    ghost writes = { λ x. Sends (feature_data x.collection x.feature.now) };
}

impl Serialize for Sent<'_> {
    fn serialize<S: Serializer>(&self, out: &mut S) -> Result<(), S::Error> {
        send_feature(self.collection, self.feature, out)
    }
}

/// The text of a feature: its geometry, its identifier and its properties. An error means out of memory.
pub fn feature_text(
    alloc: Global,
    collection: Collection,
    feature: &Feature,
) -> Result<String, AllocError>
    ensures text { IfOk result (λ text. string_bytes text ≡ compact_text (feature_data collection feature.now)) }
    ensures reads_back { IfOk result (λ text. read (string_bytes text) ≡ Some (feature_data collection feature.now)) }
{
    let sent = Sent {
        collection,
        feature,
    };
    match serde_json::to_string(alloc, &sent) {
        Ok(text) => Ok(text),
        Err(_) => Err(AllocError),
    }
}
