//! What filters say about features, and how texts compare.

use crate::features::Features;
use cad_feature::{Feature, FoldedPattern, FoldedText};
use cad_schema::{Collection, find_property};
use cql_lexer::tokens;
use cql_meaning::{Truth, fold, like, truth};
use cql_parser::parse;
use cql_text::compare;
use cql_types::{Filter, check};
use std::alloc::{AllocError, Global};
use std::cmp::Ordering;

/// The filter of a collection that the text writes, if it writes one.
pub fn filter_of(alloc: Global, collection: Collection, text: &str) -> Option<Filter> {
    let tokens = tokens(alloc, text).ok()?;
    let tree = parse(alloc, &tokens).ok()?;
    check(alloc, &tree, collection).ok()
}

fn put_those(
    alloc: Global,
    filter: &Filter,
    features: &[Feature],
    truth_asked: Truth,
    line: &mut String,
) -> Result<(), AllocError> {
    for feature in features {
        if truth(alloc, filter, feature)? == truth_asked {
            let identifier = feature.identifier().text(alloc)?;
            write!(line, " {identifier}")?;
        }
    }
    Ok(())
}

fn put_filter_answer(
    alloc: Global,
    filter: &Filter,
    features: &[Feature],
    line: &mut String,
) -> Result<(), AllocError> {
    line.push_str("yes")?;
    put_those(alloc, filter, features, Truth::Yes, line)?;
    line.push_str(" no")?;
    put_those(alloc, filter, features, Truth::No, line)?;
    line.push_str(" unknown")?;
    put_those(alloc, filter, features, Truth::Unknown, line)
}

fn order_name(order: Ordering) -> &'static str {
    match order {
        Ordering::Less => "less",
        Ordering::Equal => "equal",
        Ordering::Greater => "greater",
    }
}

fn put_text_answer(
    alloc: Global,
    text: &str,
    pattern: &str,
    line: &mut String,
) -> Result<(), AllocError> {
    let likeness = if like(text, pattern) {
        "like"
    } else {
        "unlike"
    };
    let order = order_name(compare(text, pattern));
    let folded = fold(alloc, text)?;
    write!(line, "{likeness} {order} {folded}")
}

/// The property that is asked and its collection, and the text.
fn asked_property(rest: &str) -> Option<(Collection, usize, &str)> {
    let (path, text) = rest.split_once(' ')?;
    let (name, property) = path.split_once('/')?;
    let collection = Collection::read(name)?;
    let (property, _) = find_property(collection, property)?;
    Some((collection, property, text))
}

fn put_may_fold(
    alloc: Global,
    features: &[Feature],
    text: &FoldedText,
    line: &mut String,
) -> Result<(), AllocError> {
    line.push_str("may")?;
    for feature in features {
        if feature.may_fold_to(text) {
            let identifier = feature.identifier().text(alloc)?;
            write!(line, " {identifier}")?;
        }
    }
    Ok(())
}

fn put_folds_answer(
    alloc: Global,
    features: &Features,
    rest: &str,
    line: &mut String,
) -> Result<(), AllocError> {
    let Some((collection, property, text)) = asked_property(rest) else {
        return line.push_str("no property");
    };
    let text = FoldedText::new(property, String::from_str(alloc, text)?);
    put_may_fold(alloc, features.of(collection), &text, line)
}

fn put_may_fold_like(
    alloc: Global,
    features: &[Feature],
    pattern: &FoldedPattern,
    line: &mut String,
) -> Result<(), AllocError> {
    line.push_str("may")?;
    for feature in features {
        if feature.may_fold_like(pattern) {
            let identifier = feature.identifier().text(alloc)?;
            write!(line, " {identifier}")?;
        }
    }
    Ok(())
}

fn put_likes_answer(
    alloc: Global,
    features: &Features,
    rest: &str,
    line: &mut String,
) -> Result<(), AllocError> {
    let Some((collection, property, pattern)) = asked_property(rest) else {
        return line.push_str("no property");
    };
    let pattern = FoldedPattern::new(property, String::from_str(alloc, pattern)?);
    put_may_fold_like(alloc, features.of(collection), &pattern, line)
}

fn put_collection_answer(
    alloc: Global,
    features: &Features,
    collection: Collection,
    text: &str,
    line: &mut String,
) -> Result<(), AllocError> {
    match filter_of(alloc, collection, text) {
        Some(filter) => {
            let put = put_filter_answer(alloc, &filter, features.of(collection), line);
            drop(filter);
            put
        }
        None => line.push_str("refused"),
    }
}

/// Appends what is printed for a case: see the head of the program.
pub fn put_answer(
    alloc: Global,
    features: &Features,
    case: &[u8],
    line: &mut String,
) -> Result<(), AllocError> {
    let Ok(case) = str::from_utf8(case) else {
        return line.push_str("unread");
    };
    let Some((name, rest)) = case.split_once(' ') else {
        return line.push_str("unread");
    };
    if name == "texts" {
        return match rest.split_once('|') {
            Some((text, pattern)) => put_text_answer(alloc, text, pattern, line),
            None => line.push_str("unread"),
        };
    }
    if name == "folds" {
        return put_folds_answer(alloc, features, rest, line);
    }
    if name == "likes" {
        return put_likes_answer(alloc, features, rest, line);
    }
    match Collection::read(name) {
        Some(collection) => put_collection_answer(alloc, features, collection, rest, line),
        None => line.push_str("no collection"),
    }
}
