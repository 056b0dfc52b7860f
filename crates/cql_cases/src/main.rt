//! Answers to filters: each line of standard input is a case, and a line is printed for it.
//!
//! A case is the name of a collection, a space or a tab, and the text of a filter, as `parcels area > 400`. The name may be followed by `/`
//! and days, as `parcels/2012-05-01 area > 390`. It is asked of the sample register, and answered by
//!
//! - `accepted` and the identifiers of the features that live on the asked days, if any are asked, and for which the filter is true, as
//!   `accepted 3.1`,
//! - the name and the place of the filter's first fault, as `WrongKind 8`, if the text is no filter of that collection,
//! - `no text`, if its bytes are no UTF-8,
//! - `no collection` or `no days`, if the line begins with none.
//!
//! After the word `normal` a case asks for the filter's normal form over the sample register; a `/` in the name and the text after it are
//! ignored. The answer is
//!
//! - `true`, `false` or `open`, as the whole is a constant or not; then the range that it offers, as
//!   `area without 5 without 9`, `label with 'A' without 'B'` or `none`; then `yes` and the identifiers of the features that
//!   meet it: `open area without 390 free yes 3.1`,
//! - `differs` and an identifier, if the filter and its normal form disagree about that feature,
//! - `outside` and an identifier, if that feature meets the form and has no value inside the range that it offers,
//! - `refused`, if the text is no filter of that collection, and `no case`, if the line is no case.
//!
//! After the word `truth` it asks for which features of the collection the filter is true, for which it is false, and for which neither, as
//! `yes 1.1 3.1 no 1.2 4.1 unknown 2.1`. These features are made here; the answer is `refused` if the text is no such filter. And `truth
//! texts TEXT|PATTERN` asks whether the text is like the pattern, how the two are ordered, and for the text with its case folded. And `truth
//! folds rights/party_name TEXT` asks which features may have this text, with its case folded, by their marks: `may 30.1`. And `truth
//! likes rights/party_name PATTERN` asks which may have a text that is like the pattern, with its case folded.
//!
//! A line `repeat N TEXT` is no case: in the next case, N times TEXT replaces its first `@`, the text of a second such line replaces its
//! second one, and so on. A line without bytes, or one that begins with `#`, is skipped. If memory runs out, the program ends with status
//! 7.
//!
//! - `answer`: the answers to filters
//! - `normal_forms`: the answers about their normal forms; `edges`: ranges as they are printed
//! - `truths`: what they say about each feature; `features`: the features that they are asked about
//! - `sample`: the versions of the sample register
//! - `lines`: cases, and the lines that write them
#![tactic(auto)]

mod answer;
mod edges;
mod features;
mod lines;
mod normal_forms;
mod sample;
mod truths;

ghost use Rattle.cad_versions.specs.Listing.{IsListing};

use cad_versions::Version;
use features::Features;
use lines::Cases;
use sample::sample_versions;
use std::alloc::{AllocError, Global};
use std::io::{Error, ErrorKind, Read, Result};
use std::process::ExitCode;

/// The status if memory runs out.
const NO_MEMORY: u8 = 7;

/// Appends what is printed for a case.
fn put_answer(
    alloc: Global,
    versions: &[Version],
    features: &Features,
    case: &[u8],
    line: &mut String,
) -> std::result::Result<(), AllocError>
    requires { IsListing versions.now }
{
    if let Some(rest) = case.strip_prefix(b"normal ") {
        return normal_forms::put_answer(alloc, versions, rest, line);
    }
    if let Some(rest) = case.strip_prefix(b"truth ") {
        return truths::put_answer(alloc, features, rest, line);
    }
    answer::put_answer(alloc, versions, case, line)
}

fn print_answer(
    rt: &HostRuntime,
    versions: &[Version],
    features: &Features,
    case: &[u8],
) -> Result<()>
    requires { IsListing versions.now }
{
    let mut line = String::new(rt.alloc());
    put_answer(rt.alloc(), versions, features, case, &mut line)?;
    println!(rt; "{line}")
}

fn print_answers(
    rt: &HostRuntime,
    versions: &[Version],
    features: &Features,
    input: &[u8],
) -> Result<()>
    requires { IsListing versions.now }
{
    let mut cases = Cases::new(rt.alloc());
    for line in input.split(|byte| *byte == b'\n') {
        if let Some(case) = cases.case_of(line)? {
            print_answer(rt, versions, features, &case)?;
        }
    }
    Ok(())
}

fn run(rt: &HostRuntime) -> Result<()> {
    let mut input = Vec::new(rt.alloc());
    rt.stdin().read_to_end(&mut input)?;
    let versions = sample_versions(rt.alloc())?;
    match Features::new(rt.alloc()) {
        Ok(features) => print_answers(rt, &versions, &features, &input),
        Err(_) => Err(Error::from(ErrorKind::OutOfMemory)),
    }
}

fn status_of(error: Error) -> u8 {
    if error.kind() == ErrorKind::OutOfMemory {
        NO_MEMORY
    } else {
        1
    }
}

fn main(rt: HostRuntime) -> ExitCode {
    match run(&rt) {
        Ok(()) => ExitCode::from(0),
        Err(error) => ExitCode::from(status_of(error)),
    }
}
