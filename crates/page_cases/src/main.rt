//! The plans for filters and requests: each line of standard input is a case, and a line is printed for it.
//!
//! A filter's case is the name of a collection, a space, and the text of a filter. If a window is asked for, `/` and its four numbers
//! follow the name, as `parcels/0,0,9,9 area > 390`. It is asked of the sample register, and the answer is
//!
//! - the menu, each plan with its cost; then, after `->`, the plan that is chosen, its cost, how many candidates it has, and the features
//!   that it gives, which are those for which the filter is true: `all 5, range(object with 3 with 3) 1 -> range(object with 3 with 3) 1
//!   has 1 gives 3.1`,
//! - `uncovered` and an identifier, if the filter is true for that feature and a plan of the menu does not have it,
//! - `gives others`, `tests others` or `counted otherwise` and a plan of the menu, if its page lists other features, or one of them twice;
//!   if the number of tested features is not that of its candidates; or if these are counted otherwise.
//!
//! A request's case is `explain `, the name of a collection and, after `?`, a query, as `explain parcels?filter=object+%3D+3`. It is asked
//! of the sample register at the revision that it names, or at the last one, and the answer is
//!
//! - the plan by which its page is found, its cost, how many candidates it has, how many features are tested, the identifiers that the page
//!   lists, and `and more` if another page follows: `range(object with 3 with 3) cost 1 candidates 1 examined 1 gives 3.1`,
//! - `another page by` and a plan, if a plan of the menu gives another page,
//! - `refused` and the fault's name, if the query is not valid, and `no revision`, if the register does not have that revision.
//!
//! A page's case is `page `, and a request like that of `explain`. The answer is the body of its page as it is sent and, after a space,
//! the target of its link to the next page, if it has one. If the query is not valid, the answer is the body that reports its fault.
//! `another page in pieces of` and a number reports that the page is another one if so many leaves are counted for its plan at a time, and
//! it is searched for in pieces of so many features. Those of 1 to 7 are tried. 0 is the plan that is chosen at once.
//! A case of `grown ` asks for the same page, and one of `grown-explain ` how it is found. Here no version is listed: each command of the
//! sample register was added to the features at every revision. The answer is made once by these rows, as changes to bases, and once by
//! the same with new bases. `bases otherwise` reports that the former have no changes or the latter have some, `settled otherwise` that
//! the two answers differ.
//!
//! A feature's case is `feature `, the name of a collection, a space and an identifier, as `feature units 10.1`; the answer is the
//! body of that feature of the sample register, or the body of the word `no-feature`.
//!
//! For parameters, links and bodies without features, the answer follows the line itself:
//!
//! - `asks QUERY`: what the pairs of the query select and where the page begins, or the first fault
//! - `self QUERY`: the target of the link to the page itself, over the path `/items`
//! - `next QUERY REVISION IDENTIFIER`: the target of the link to the next page
//! - `body PATH`: the body of the landing page, of the collections, of one of them or of its queryables
//! - `word WORD`, `fault CAUSE PLACE`: the body of a fault, and of a filter's fault
//!
//! The line `asks limit=1` is answered by `asks limit=1: limit 1`, and `asks ?` by `asks ?: 1 Unknown unknown`.
//!
//! The answer is `refused` if a text is no filter of that collection, and `no case` if the line is no case. A line without bytes, or one
//! that begins with `#`, is skipped.
//!
//! - `cases`: lines with cases
//! - `answers`: the answers about a filter's plans
//! - `bodies`: bodies as they are sent
//! - `fixed_bodies`: bodies without features
//! - `grown`: answers by the features at every revision
//! - `menus`: the page of a request by each plan of its menu
//! - `pages`: pages by every plan
//! - `pieces`: plans and pages in pieces
//! - `plans`: plans as they are printed, and their candidates
//! - `queries`: what parameters ask for, and links
//! - `ranges`: ranges as they are printed
//! - `reports`: the answers to requests
//! - `sample`: the register that the cases are asked of
#![tactic(auto)]

mod answers;
mod bodies;
mod cases;
mod fixed_bodies;
mod grown;
mod menus;
mod pages;
mod pieces;
mod plans;
mod queries;
mod ranges;
mod reports;
mod sample;

use cases::answer;
use sample::sample_versions;
use std::io::{Error, ErrorKind, Read, Result};
use std::process::ExitCode;

/// The status if memory runs out.
const NO_MEMORY: u8 = 7;

fn run(rt: &HostRuntime) -> Result<()> {
    let mut input = Vec::new(rt.alloc());
    rt.stdin().read_to_end(&mut input)?;
    let versions = sample_versions(rt.alloc())?;
    for line in input.split(|byte| *byte == b'\n') {
        if !line.is_empty() && !line.starts_with(b"#") {
            println!(rt; "{}", answer(rt.alloc(), &versions, line)?.as_str())?;
        }
    }
    Ok(())
}

fn status_of(error: Error) -> u8 {
    if error.kind() == ErrorKind::OutOfMemory {
        NO_MEMORY
    } else {
        1
    }
}

fn main(rt: HostRuntime) -> ExitCode {
    match run(&rt) {
        Ok(()) => ExitCode::from(0),
        Err(error) => ExitCode::from(status_of(error)),
    }
}
