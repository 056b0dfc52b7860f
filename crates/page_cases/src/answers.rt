//! The answers about a filter's plans.

use crate::pages::{Meeting, count, fault_of, features_of};
use crate::plans::{has, put_plan};
use cad_feature::Feature;
use cad_lookup::Plan;
use cad_plan::{FeaturesAt, choose, estimate, menu};
use cad_run::Layer;
use cql_meaning::{Truth, truth};
use cql_rewrite::{Normal, normal};
use cql_types::Filter;
use std::alloc::{AllocError, Global};

fn put_priced(plan: &Plan, layer: &Layer, line: &mut String) -> Result<(), AllocError> {
    put_plan(layer.collection(), plan, line)?;
    let cost = estimate(plan, &FeaturesAt::newest(layer));
    write!(line, " {cost}")
}

// The features for which the filter is true.
fn taken<'a>(
    alloc: Global,
    filter: &Filter,
    features: &'a [Feature],
) -> Result<Vec<&'a Feature>, AllocError> {
    let mut taken = Vec::new(alloc);
    for feature in features {
        if truth(alloc, filter, feature)? == Truth::Yes {
            taken.push(feature)?;
        }
    }
    Ok(taken)
}

// A feature that is taken and that some plan does not have.
fn uncovered<'a>(plans: &[Plan], taken: &[&'a Feature]) -> Option<&'a Feature> {
    for feature in taken {
        for plan in plans {
            if !has(plan, feature) {
                return Some(*feature);
            }
        }
    }
    None
}

fn put_menu(plans: &[Plan], layer: &Layer, line: &mut String) -> Result<(), AllocError> {
    for (place, plan) in plans.iter().enumerate() {
        if place > 0 {
            line.push_str(", ")?;
        }
        put_priced(plan, layer, line)?;
    }
    Ok(())
}

/// Appends the identifier.
pub fn put_identifier(
    alloc: Global,
    feature: &Feature,
    line: &mut String,
) -> Result<(), AllocError> {
    let identifier = feature.identifier().text(alloc)?;
    line.push_str(" ")?;
    line.push_str(identifier.as_str())
}

fn put_taken(alloc: Global, taken: &[&Feature], line: &mut String) -> Result<(), AllocError> {
    line.push_str(" gives")?;
    if taken.is_empty() {
        return line.push_str(" none");
    }
    for feature in taken {
        put_identifier(alloc, feature, line)?;
    }
    Ok(())
}

/// What is asked about a filter's plans: the plans of the menu, and the features for which the filter is true.
#[derive(Clone, Copy)]
struct Menu<'a, 'f> {
    form: &'a Normal<'f>,
    layer: &'a Layer,
    features: &'a [Feature],
    plans: &'a [Plan],
    taken: &'a [&'a Feature],
}

// The menu, and the choice with its candidates and the features of its page.
fn put_choice(
    alloc: Global,
    menu: Menu,
    chosen: &Plan,
    line: &mut String,
) -> Result<(), AllocError> {
    put_menu(menu.plans, menu.layer, line)?;
    line.push_str(" -> ")?;
    put_priced(chosen, menu.layer, line)?;
    let count = count(chosen, menu.features);
    write!(line, " has {count}")?;
    put_taken(alloc, menu.taken, line)
}

fn put_chosen(alloc: Global, menu: Menu, line: &mut String) -> Result<(), AllocError> {
    let chosen = choose(alloc, menu.form, &FeaturesAt::newest(menu.layer))?;
    put_choice(alloc, menu, &chosen, line)
}

// The first plan whose page is wrong, and how.
fn wrong_plan<'a>(
    alloc: Global,
    menu: Menu<'a, '_>,
) -> Result<Option<(&'static str, &'a Plan)>, AllocError> {
    let meeting = Meeting {
        alloc,
        form: menu.form,
    };
    for plan in menu.plans {
        if let Some(fault) = fault_of(
            alloc,
            plan,
            menu.layer,
            menu.features,
            &meeting,
            menu.taken,
        )? {
            return Ok(Some((fault, plan)));
        }
    }
    Ok(None)
}

fn put_menu_answer(alloc: Global, menu: Menu, line: &mut String) -> Result<(), AllocError> {
    if let Some(feature) = uncovered(menu.plans, menu.taken) {
        line.push_str("uncovered")?;
        return put_identifier(alloc, feature, line);
    }
    match wrong_plan(alloc, menu)? {
        Some((fault, plan)) => {
            line.push_str(fault)?;
            put_plan(menu.layer.collection(), plan, line)
        }
        None => put_chosen(alloc, menu, line),
    }
}

fn put_form_answer(
    alloc: Global,
    form: &Normal,
    layer: &Layer,
    features: &[Feature],
    taken: &[&Feature],
    line: &mut String,
) -> Result<(), AllocError> {
    let plans = menu(alloc, form, &FeaturesAt::newest(layer))?;
    let menu = Menu {
        form,
        layer,
        features,
        plans: &plans,
        taken,
    };
    put_menu_answer(alloc, menu, line)
}

fn put_taken_answer(
    alloc: Global,
    filter: &Filter,
    layer: &Layer,
    features: &[Feature],
    taken: &[&Feature],
    line: &mut String,
) -> Result<(), AllocError> {
    let form = normal(alloc, filter)?;
    let done = put_form_answer(alloc, &form, layer, features, taken, line);
    drop(form);
    done
}

fn put_features_answer(
    alloc: Global,
    filter: &Filter,
    layer: &Layer,
    features: &[Feature],
    line: &mut String,
) -> Result<(), AllocError> {
    let taken = taken(alloc, filter, features)?;
    put_taken_answer(alloc, filter, layer, features, &taken, line)
}

fn put_answer(
    alloc: Global,
    filter: &Filter,
    layer: &Layer,
    line: &mut String,
) -> Result<(), AllocError> {
    let features = features_of(alloc, layer)?;
    put_features_answer(alloc, filter, layer, &features, line)
}

/// The menu, and the choice with its candidates and the features of its page, which each plan of the menu has to give.
pub fn plans_answer(alloc: Global, filter: &Filter, layer: &Layer) -> Result<String, AllocError> {
    let mut line = String::new(alloc);
    put_answer(alloc, filter, layer, &mut line)?;
    Ok(line)
}
