//! Cases of indexes, one a line of the input, and an answer for each:
//!
//! - `PROPERTY VALUE VALUE .. ? X,Y,X,Y`, of a property with a grid: the positions near the box, their number, and whether the extents of
//!   the values show that there is nothing near it (`none`, or `may be`)
//! - `PROPERTY VALUE VALUE .. ? LOW HIGH`, of a property with an order: the positions in the range as they are listed and as they are
//!   tested by their ranks, their number, and what the extents show
//! - `layer LABEL LABEL .. ? SIZE TIMES MOST LABEL LABEL ..`: the labels of parcels in segments of that size, into which those with the
//!   labels after the numbers are merged so many times (a `/` separates the labels of several lists, which are merged in one after the
//!   other), how many they are and in how many segments, and whether new bases are due at the given most changes (`settled` or `due`); then
//!   the same over new bases
//!
//! - `history LABEL LABEL / LABEL .. ? REVISION REVISION ..`: what is shown at each of these revisions of the labels of the parcels 1, 2 and
//!   so on, up to the first that is not there, if revision 1 enters the parcels with the first list of labels, and each revision after it
//!   gives the first parcels the labels of the next list
//! - `counts PROPERTY VALUE VALUE / VALUE .. ? REVISION REVISION .. ? LOW HIGH`, or with `X,Y,X,Y` behind the second `?`: how many parcels
//!   there are at each of these revisions, and how many of them have a value in the range, or are near the box, if revision 1 enters the
//!   parcels with the first list of values, and each revision after it gives the first parcels the values of the next list
//!
//! The values are those of parcels at the positions 0, 1 and so on, `-` if one has none: `X,Y,X,Y` is a rectangle by its least and greatest
//! corner, `X,Y` a point, `2001-01-01` a day; a label has no blank. An end is `free`, `with:VALUE` or `without:VALUE`. A line that is not
//! of this form is answered by `unread`; one without text, or that begins with `#`, is skipped.
#![tactic(auto)]

mod between;
mod cases;
mod counts;
mod histories;
mod layers;
mod parcels;
mod values;

use anyhow::Result;

/// Prints the answer to the line, if it is a case.
fn tell(rt: &HostRuntime, line: &str) -> Result<()> {
    if line.is_empty() || line.starts_with('#') {
        return Ok(());
    }
    let answer = cases::answer(rt.alloc(), line)?;
    println!(rt; "{answer}")?;
    Ok(())
}

fn main(rt: HostRuntime) -> Result<()> {
    for line in rt.lines(rt.alloc()) {
        let line = line?;
        tell(&rt, line.as_str())?;
    }
    Ok(())
}
