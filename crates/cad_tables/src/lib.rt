//! The two tables in which a register of versions is kept, and all that SQL does to them.
//!
//! `state` has one row, with the format and the revision; `version` has a row for each version of an object, with the revision that entered
//! it and the one that closed it. `create` makes both, `open` checks whether they are there, `write` makes the one change of a command,
//! `history` reads the rows of an object back, `listing` those of a revision, in the order in which the database comes to them, and
//! `listing_between` a range of all rows, in the order in which they were entered. The caller's types say what a row means: the trait
//! `Stored` turns a version into a row, and the trait `Reader` turns a row into a value, so that a listing holds the values and no rows.
//!
//! ```text
//! create(&mut connection)?;                                 // Made
//! write(&mut connection, &Change::Enter(row), 1)?;
//! revision(&mut connection)?                                // Some(1)
//! listing::<_, Version>(alloc, &mut connection, 1)?         // what `Version` reads of that row
//! write(&mut connection, &Change::Retire(closing), 2)?;     // its row is closed by revision 2
//! history(&mut connection, closing.object)?                 // the rows of that object
//! ```
#![tactic(auto)]

mod cells;
mod changes;
mod faults;
mod laws;
mod making;
mod opening;
mod reading;
mod taken;
mod writing;

pub use cells::Stored;
pub use changes::{Change, Closing};
pub use faults::TableFault;
pub use laws::a_change_keeps_lines;
pub use making::{Creation, create};
pub use opening::{MOST_REVISION, open, revision};
pub use reading::{Reader, history, listing, listing_between};
pub use writing::write;
