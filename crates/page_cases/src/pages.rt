//! Pages by every plan.

ghost use Rattle.cql_rewrite.specs.Meets.{meets};

use crate::plans::has;
use cad_feature::Feature;
use cad_lookup::Plan;
use cad_run::{FeatureTest, Layer, candidate_count, page};
use cql_rewrite::{Normal, test};
use std::alloc::{AllocError, Global};

/// More features than any case has.
const LIMIT: u32 = 1000;

/// A normal form as a test of features.
#[derive(Clone, Copy)]
pub struct Meeting<'a, 'f> {
    /// Where memory comes from.
    pub alloc: Global,
    /// What the features have to meet.
    pub form: &'a Normal<'f>,
}

impl FeatureTest for Meeting<'_, '_> {
    ghost passes = { λ meeting x. meets x meeting.form.now };

    fn test(&self, feature: &Feature) -> Result<bool, AllocError> {
        test(self.alloc, self.form, feature)
    }
}

fn are_same(rows: &[&Feature], wanted: &[&Feature]) -> bool {
    if rows.len() != wanted.len() {
        return false;
    }
    for (place, row) in rows.iter().enumerate() {
        let other = wanted[place];
        if row.object.number() != other.object.number() || row.number != other.number {
            return false;
        }
    }
    true
}

/// The features of the layer, with its changes merged into them.
pub fn features_of(alloc: Global, layer: &Layer) -> Result<Vec<Feature>, AllocError> {
    layer.features(alloc)
}

/// How many of the features are candidates of the plan.
pub fn count(plan: &Plan, features: &[Feature]) -> u64 {
    let candidates = features.iter().filter(|feature| has(plan, feature));
    candidates.count() as u64
}

/// The fault of the page by a plan, in a word, if it has one. The page has to list the wanted features, each once, and to test each
/// candidate once.
pub fn fault_of(
    alloc: Global,
    plan: &Plan,
    layer: &Layer,
    features: &[Feature],
    meeting: &Meeting,
    wanted: &[&Feature],
) -> Result<Option<&'static str>, AllocError> {
    let candidates = candidate_count(alloc, plan, layer)?;
    if candidates != count(plan, features) {
        return Ok(Some("counted otherwise "));
    }
    let page = page(alloc, plan, layer, meeting, None, LIMIT)?;
    if page.more || !are_same(&page.rows, wanted) {
        return Ok(Some("gives others "));
    }
    if page.examined != candidates {
        return Ok(Some("tests others "));
    }
    Ok(None)
}
