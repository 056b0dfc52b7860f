//! The page of a request by each plan of its menu.

use crate::answers::put_identifier;
use crate::pages::Meeting;
use crate::plans::put_plan;
use cad_answer::{Page, page_at};
use cad_day::{Day, Interval, Relation};
use cad_lookup::Plan;
use cad_page::{Ask, Snapshot};
use cad_plan::{FeaturesAt, menu};
use cad_schema::{Collection, find_property};
use cad_versions::ObjectId;
use cql_rewrite::{Normal, both, box_condition, normal};
use cql_types::{DayTerm, EndTerm, Filter, SpanTerm};
use std::alloc::{AllocError, Global};

fn place_of(collection: Collection, name: &str) -> Option<usize> {
    let (place, _) = find_property(collection, name)?;
    Some(place)
}

fn end_of(day: Option<Day>) -> EndTerm {
    match day {
        None => EndTerm::Open,
        Some(day) => EndTerm::Day(DayTerm::Constant(day)),
    }
}

// The asked days as a filter.
fn days_condition(lifespan: Option<usize>, days: Interval) -> Filter {
    match lifespan {
        None => Filter::Truth(false),
        Some(place) => Filter::Temporal {
            by: Relation::Intersects,
            left: SpanTerm::Property(place),
            right: SpanTerm::Interval {
                from: end_of(days.from),
                to: end_of(days.to),
            },
        },
    }
}

// The box that is asked for, as a filter.
fn box_of(ask: &Ask) -> Filter {
    match ask.selection.bbox {
        None => Filter::Truth(true),
        Some(bounds) => box_condition(place_of(ask.collection, "geometry"), bounds),
    }
}

// The days that are asked for, as a filter.
fn days_of(ask: &Ask) -> Filter {
    match ask.selection.datetime {
        None => Filter::Truth(true),
        Some(days) => days_condition(place_of(ask.collection, "lifespan"), days),
    }
}

// The form of both what this form asks and the filter.
fn form_and<'a>(
    alloc: Global,
    first: Normal<'a>,
    filter: &'a Filter,
) -> Result<Normal<'a>, AllocError> {
    match normal(alloc, filter) {
        Ok(second) => both(alloc, first, second),
        Err(error) => {
            drop(first);
            Err(error)
        }
    }
}

// The form of the filter and of what else is asked.
fn form_with<'a>(alloc: Global, ask: &'a Ask, boxed: &'a Filter) -> Result<Normal<'a>, AllocError> {
    match &ask.filter {
        None => normal(alloc, boxed),
        Some(filter) => {
            let first = normal(alloc, filter)?;
            form_and(alloc, first, boxed)
        }
    }
}

// What the request asks, as a form that its features are tested by, and which part of them is wanted.
#[derive(Clone, Copy)]
struct Asked<'a, 'f> {
    form: &'a Normal<'f>,
    after: Option<(ObjectId, u32)>,
    limit: u32,
}

// The identifiers of the page, as a report has them.
fn put_page(alloc: Global, page: &Page, line: &mut String) -> Result<(), AllocError> {
    for row in &page.rows {
        put_identifier(alloc, row, line)?;
    }
    if page.rows.is_empty() {
        line.push_str(" none")?;
    }
    if page.more {
        line.push_str(" and more")?;
    }
    Ok(())
}

// The identifiers of the page by the plan.
fn page_by(
    alloc: Global,
    plan: &Plan,
    features: &FeaturesAt,
    asked: Asked,
) -> Result<String, AllocError> {
    let meeting = Meeting {
        alloc,
        form: asked.form,
    };
    let page = page_at(alloc, plan, features, &meeting, asked.after, asked.limit)?;
    let mut line = String::new(alloc);
    put_page(alloc, &page, &mut line)?;
    Ok(line)
}

// The first plan with another page, as it is printed.
fn another_page(
    alloc: Global,
    plans: &[Plan],
    features: &FeaturesAt,
    asked: Asked,
    wanted: &str,
) -> Result<Option<String>, AllocError> {
    for plan in plans {
        let line = page_by(alloc, plan, features, asked)?;
        if line.as_str() != wanted {
            let mut name = String::new(alloc);
            put_plan(features.collection(), plan, &mut name)?;
            return Ok(Some(name));
        }
    }
    Ok(None)
}

// The same, with the plans for the first form and tests by the second.
fn another_page_by(
    alloc: Global,
    ask: &Ask,
    form: &Normal,
    tested: &Normal,
    features: &FeaturesAt,
    wanted: &str,
) -> Result<Option<String>, AllocError> {
    let plans = menu(alloc, form, features)?;
    let after = match ask.continuation.after {
        None => None,
        Some(last) => Some((last.object, last.number)),
    };
    let asked = Asked {
        form: tested,
        after,
        limit: ask.selection.limit,
    };
    another_page(alloc, &plans, features, asked, wanted)
}

// The form of the filter, the box and the days.
fn tested_form<'a>(
    alloc: Global,
    ask: &'a Ask,
    boxed: &'a Filter,
    days: &'a Filter,
) -> Result<Normal<'a>, AllocError> {
    let first = form_with(alloc, ask, boxed)?;
    form_and(alloc, first, days)
}

// The first plan with another page. The plans are for the form, and the tests also by the days.
fn misleading_by(
    alloc: Global,
    ask: &Ask,
    form: &Normal,
    boxed: &Filter,
    days: &Filter,
    features: &FeaturesAt,
    wanted: &str,
) -> Result<Option<String>, AllocError> {
    let tested = tested_form(alloc, ask, boxed, days)?;
    let found = another_page_by(alloc, ask, form, &tested, features, wanted);
    drop(tested);
    found
}

// The same, with the box and the days as filters.
fn misleading_with(
    alloc: Global,
    ask: &Ask,
    boxed: &Filter,
    days: &Filter,
    features: &FeaturesAt,
    wanted: &str,
) -> Result<Option<String>, AllocError> {
    let form = form_with(alloc, ask, boxed)?;
    let found = misleading_by(alloc, ask, &form, boxed, days, features, wanted);
    drop(form);
    found
}

/// The first plan of the request's menu whose page has other identifiers than the wanted ones, if there is one.
pub fn misleading_plan(
    alloc: Global,
    ask: &Ask,
    snapshot: &Snapshot,
    wanted: &str,
) -> Result<Option<String>, AllocError> {
    let boxed = box_of(ask);
    let days = days_of(ask);
    let features = snapshot.features(ask.collection);
    let found = misleading_with(alloc, ask, &boxed, &days, &features, wanted);
    drop(days);
    drop(boxed);
    found
}
