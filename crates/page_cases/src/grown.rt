//! Answers by the features at every revision, to which each command of the sample was added.

use crate::reports::{Shown, shown_by};
use crate::sample::grown_histories;
use cad_history::Histories;
use cad_page::{Ask, Snapshot};
use std::alloc::{AllocError, Global};
use std::rc::Rc;

/// What is shown for a query, and at which revision.
#[derive(Clone, Copy)]
struct Question<'a> {
    shown: Shown,
    ask: &'a Ask,
    revision: u64,
}

/// What these rows show.
fn answer_at(
    alloc: Global,
    question: Question,
    histories: &Rc<Histories>,
) -> Result<String, AllocError> {
    let snapshot = Snapshot::at(histories, question.revision)?;
    shown_by(alloc, question.shown, question.ask, &snapshot)
}

/// What both show, if that is the same.
fn answer_of_both(
    alloc: Global,
    question: Question,
    grown: &Rc<Histories>,
    settled: &Rc<Histories>,
) -> Result<String, AllocError> {
    let line = answer_at(alloc, question, grown)?;
    if line == answer_at(alloc, question, settled)? {
        Ok(line)
    } else {
        String::from_str(alloc, "settled otherwise")
    }
}

/// The same, if only the settled rows have no changes to their bases.
fn compared_answer(
    alloc: Global,
    question: Question,
    grown: &Rc<Histories>,
    settled: &Rc<Histories>,
) -> Result<String, AllocError> {
    if grown.is_settled(0) || !settled.is_settled(0) {
        return String::from_str(alloc, "bases otherwise");
    }
    answer_of_both(alloc, question, grown, settled)
}

/// What is shown by rows that have changes to their bases, and by the same rows with new bases.
fn answer_by_grown(
    alloc: Global,
    shown: Shown,
    ask: &Ask,
    grown: &Rc<Histories>,
    last: u64,
) -> Result<String, AllocError> {
    let revision = ask.continuation.revision.unwrap_or(last);
    if last < revision {
        return String::from_str(alloc, "no revision");
    }
    let settled = Rc::new(alloc, grown.settled(alloc, 0)?)?;
    let question = Question {
        shown,
        ask,
        revision,
    };
    compared_answer(alloc, question, grown, &settled)
}

/// What is shown for the query, by rows that have changes to their bases and by the same rows with new bases.
pub fn answer_by_each(alloc: Global, shown: Shown, ask: &Ask) -> Result<String, AllocError> {
    let (grown, last) = grown_histories(alloc)?;
    let grown = Rc::new(alloc, grown)?;
    answer_by_grown(alloc, shown, ask, &grown, last)
}
