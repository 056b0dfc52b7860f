//! What is sought among the features of a revision.

ghost use Rattle.std.specs.Prelude.{◌≡◌, codes, IfOk, option_copied};
ghost use Rattle.cad_head.specs.declared.status.Status.TheVariants.{BadRequest};
ghost use Rattle.cad_parameters.specs.Identifiers.{numbers_of};
ghost use Rattle.cad_history.specs.Snapshots.{features_at};
ghost use Rattle.cad_server.specs.Contents.{content_found, content_in, content_in_response, content_located, feature_with, feature_content, refusal, revision_sought};

use crate::located::Located;
use cad_feature::Feature;
use cad_head::Status;
use cad_history::Snapshot;
use cad_json::word_body;
use cad_layer::laws::identifiers_are_unique;
use cad_page::feature_body;
use cad_parameters::Identifier;
use cad_request::{FeatureRequest, Response};
use cad_schema::Collection;
use std::alloc::{AllocError, Global};

/// The revision of a feature request: the one that is asked for, or the newest.
pub(crate) fn revision_of(sought: &FeatureRequest, newest: u64) -> u64
    ensures { result ≡ revision_sought sought.now newest }
{
    match sought {
        FeatureRequest::Page(ask) => ask.continuation.revision.unwrap_or(newest),
        FeatureRequest::Feature { .. } => newest,
    }
}

/// Where the answer is for features that are sought in a snapshot of their revision. An error means out of memory.
fn located_in(
    alloc: Global,
    sought: FeatureRequest,
    snapshot: Snapshot,
) -> Result<Located, AllocError>
    ensures { IfOk result (λ told. content_located told ≡ content_in sought snapshot) }
{
    match sought {
        FeatureRequest::Page(ask) => Ok(Located::Page { ask, snapshot }),
        FeatureRequest::Feature {
            collection,
            identifier,
        } => {
            let feature = feature_in(&snapshot, collection, identifier);
            let response = feature_response(alloc, collection, feature)?;
            Ok(Located::Response(response))
        }
    }
}

/// The same in the snapshot that was found for them; without one, their revision does not exist. An error
/// means out of memory.
pub(crate) fn located_of(
    alloc: Global,
    sought: FeatureRequest,
    found: Option<Snapshot>,
) -> Result<Located, AllocError>
    ensures { IfOk result (λ told. content_located told ≡ content_found sought found) }
{
    match found {
        Some(snapshot) => located_in(alloc, sought, snapshot),
        None => {
            drop(sought);
            let response = unknown_revision(alloc)?;
            Ok(Located::Response(response))
        }
    }
}

/// The refusal of a revision above the one in force.
pub(crate) fn unknown_revision(alloc: Global) -> Result<Response, AllocError>
    ensures { IfOk result (λ response. content_in_response response ≡ refusal BadRequest (codes "revision")) }
{
    let body = word_body(alloc, "revision")?;
    Ok(Response {
        status: Status::BadRequest,
        body,
    })
}

/// The collection's feature with that identifier.
fn feature_in(
    snapshot: &Snapshot,
    collection: Collection,
    identifier: Identifier,
) -> Option<&Feature>
    ensures { option_copied result ≡ feature_with (numbers_of identifier) (features_at snapshot.now collection) }
{
    identifiers_are_unique();
    snapshot.feature(collection, identifier.object, identifier.number)
}

/// The response with the feature, or that no such feature exists.
fn feature_response(
    alloc: Global,
    collection: Collection,
    feature: Option<&Feature>,
) -> Result<Response, AllocError>
    ensures { IfOk result (λ response. content_in_response response ≡ feature_content collection (option_copied feature.entry)) }
{
    match feature {
        Some(feature) => {
            let body = feature_body(alloc, collection, feature)?;
            Ok(Response {
                status: Status::Ok,
                body,
            })
        }
        None => {
            let body = word_body(alloc, "no-feature")?;
            Ok(Response {
                status: Status::NotFound,
                body,
            })
        }
    }
}
