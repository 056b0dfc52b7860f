//! Lines about histories: parcels that revisions enter and change, and what they show at a revision.

ghost use Rattle.std.specs.Prelude.{◌≡◌, IfOk};
ghost use Rattle.cad_schema.specs.declared.collection.Collection.TheVariants.{Parcels};

use crate::cases::parcels;
use crate::layers::label;
use crate::parcels::features;
use anyhow::{Result, bail};
use cad_feature::Feature;
use cad_history::{FeaturesAt, History};
use cad_schema::{Collection, find_property};
use cad_versions::ObjectId;
use std::alloc::Global;

/// The history after a revision gave the first parcels these values of the property.
fn after(
    alloc: Global,
    history: &History,
    revision: u32,
    property: &str,
    values: &str,
) -> Result<History>
    requires { history.now.collection ≡ Parcels }
    ensures { IfOk result (λ next. next.collection ≡ Parcels) }
{
    if revision <= history.last() || revision == u32::MAX {
        bail!("no later revision");
    }
    let touched = features(alloc, parcels(alloc, property, values)?)?;
    Ok(history.next(alloc, revision, touched)?)
}

/// The history after the revisions 1, 2 and so on, each with the values of the property that it gives the first parcels.
pub fn history(alloc: Global, property: &str, lists: &str) -> Result<History>
    ensures { IfOk result (λ history. history.collection ≡ Parcels) }
{
    let mut history = History::new(alloc, Collection::Parcels)?;
    for (revision, values) in (1..u32::MAX).zip(lists.split('/')) {
        history = after(alloc, &history, revision, property, values)?;
    }
    Ok(history)
}

/// The parcel of this number at the revision, if there is one.
fn parcel<'a>(shown: &FeaturesAt<'a>, number: u32) -> Option<&'a Feature> {
    shown.feature(ObjectId::new(number)?, 1)
}

/// Adds the labels of all parcels at the revision.
fn put_shown(answer: &mut String, history: &History, revision: u64, place: usize) -> Result<()> {
    let shown = FeaturesAt::of(history, revision);
    write!(answer, "{revision}:")?;
    for number in 1..u32::MAX {
        let Some(feature) = parcel(&shown, number) else {
            return Ok(());
        };
        write!(answer, " {}", label(feature, place))?;
    }
    Ok(())
}

/// The answer to a line with these lists of labels and these revisions: see the head of the program.
pub fn history_answer(alloc: Global, lists: &str, revisions: &str) -> Result<Option<String>> {
    let Some((place, _)) = find_property(Collection::Parcels, "label") else {
        return Ok(None);
    };
    let history = history(alloc, "label", lists)?;
    let mut answer = String::new(alloc);
    for word in revisions.split_whitespace() {
        let Ok(revision) = word.parse() else {
            return Ok(None);
        };
        put_shown(&mut answer, &history, revision, place)?;
        answer.push(';')?;
    }
    Ok(Some(answer))
}
