//! Days, intervals and their relations. The answer to a line follows the line itself:
//!
//! - `day TEXT`: the number of the day that the text names, and the day written again
//! - `asked TEXT`: the days that the text asks for, or the fault
//! - `interval FIRST LAST`: whether there is an interval between two days, by their numbers
//! - `relations TEXT TEXT`: the relations that hold between two intervals, by their names
//!
//! The line `day 1969-12-31` is answered by `day 1969-12-31: -1 1969-12-31`. `scripts/day_cases.py` writes the lines and the answers.

use cad_day::{Day, Interval, Relation, asked, holds};
use std::alloc::{AllocError, Global};
use std::io;
use std::io::{Error, ErrorKind};

const RELATIONS: [(Relation, &str); 15] = [
    (Relation::After, "T_AFTER"),
    (Relation::Before, "T_BEFORE"),
    (Relation::Disjoint, "T_DISJOINT"),
    (Relation::Intersects, "T_INTERSECTS"),
    (Relation::Equals, "T_EQUALS"),
    (Relation::Contains, "T_CONTAINS"),
    (Relation::During, "T_DURING"),
    (Relation::Meets, "T_MEETS"),
    (Relation::MetBy, "T_METBY"),
    (Relation::Starts, "T_STARTS"),
    (Relation::StartedBy, "T_STARTEDBY"),
    (Relation::Finishes, "T_FINISHES"),
    (Relation::FinishedBy, "T_FINISHEDBY"),
    (Relation::Overlaps, "T_OVERLAPS"),
    (Relation::OverlappedBy, "T_OVERLAPPEDBY"),
];

fn put_end(end: Option<Day>, answer: &mut String) -> Result<(), AllocError> {
    match end {
        None => answer.push_str(".."),
        Some(day) => day.put(answer),
    }
}

fn put_asked(text: &str, answer: &mut String) -> Result<(), AllocError> {
    match asked(text) {
        Ok(days) => {
            put_end(days.from, answer)?;
            answer.push_str("/")?;
            put_end(days.to, answer)
        }
        Err(fault) => answer.push_str(fault.name()),
    }
}

fn put_day(alloc: Global, text: &str, answer: &mut String) -> Result<(), AllocError> {
    let Some(day) = Day::read(text) else {
        return answer.push_str("no day");
    };
    answer.push_str(&format!(in alloc; "{} ", day.number())?)?;
    day.put(answer)
}

fn put_interval(first: &str, last: &str, answer: &mut String) -> Result<(), AllocError> {
    let (from, to) = (day_numbered(first), day_numbered(last));
    let found = Interval::new(from, to).is_some();
    answer.push_str(if found { "in order" } else { "turned" })
}

fn day_numbered(number: &str) -> Option<Day> {
    Day::new(number.parse().ok()?)
}

fn put_relations(a: &str, b: &str, answer: &mut String) -> Result<(), AllocError> {
    let (Ok(a), Ok(b)) = (asked(a), asked(b)) else {
        return answer.push_str("no intervals");
    };
    for (relation, name) in RELATIONS {
        if holds(relation, a, b) {
            answer.push_str(name)?;
            answer.push_str(" ")?;
        }
    }
    Ok(())
}

/// Appends the answer to the line: see the head of this file.
fn put_answer(alloc: Global, line: &str, answer: &mut String) -> Result<(), AllocError> {
    let (question, rest) = line.split_once(' ').unwrap_or((line, ""));
    let (first, second) = rest.split_once(' ').unwrap_or((rest, ""));
    match question {
        "day" => put_day(alloc, rest, answer),
        "asked" => put_asked(rest, answer),
        "interval" => put_interval(first, second, answer),
        "relations" => put_relations(first, second, answer),
        _ => answer.push_str("no question"),
    }
}

/// Prints each line with its answer.
pub(crate) fn print_answers(rt: &HostRuntime, lines: &[u8]) -> io::Result<()> {
    let Ok(text) = str::from_utf8(lines) else {
        return Err(Error::from(ErrorKind::InvalidData));
    };
    for line in text.lines() {
        let mut answer = String::new(rt.alloc());
        put_answer(rt.alloc(), line, &mut answer)?;
        let printed = format!(in rt.alloc(); "{line}: {answer}")?;
        println!(rt; "{}", printed.trim_end())?;
    }
    Ok(())
}
