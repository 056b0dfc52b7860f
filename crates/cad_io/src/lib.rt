//! Reading by readers that count their reads, writing whole texts by writers that may take less of them and that can count their failures,
//! and decimal numbers in texts.
//!
//! ```text
//! write_whole(&mut writer, b"revision 1\n")    // Ok once all is written, no matter how much each write took
//!                                              // Err(WriteFailed) if a write failed or took nothing: only a prefix was written
//! let mut reader = Counted::new(stdin);
//! reader.read_once(&mut buffer)                // a read, and one more is counted
//! let mut writer = CountedWriter::new(stdout);
//! write_counted(&mut writer, b"bye\n")         // the same, and a write that fails is counted
//! rest_from(b"revision 1\n", 9)                    // b"1\n"
//! ```
//!
//! - [`number`]: the number that digits spell, or 10^18 if it is more
//! - [`short_number`]: the number that at most 18 digits spell
//!
//! `0042` spells 42 by both; the empty text, `+4` and `4.0` spell none.
#![tactic(auto)]

mod counting;
mod digits;
mod failing;
mod pieces;
mod writing;

pub use counting::{Counted, CountedRead};
pub use digits::{number, short_number};
pub use failing::{CountedWrite, CountedWriter, write_counted};
pub use pieces::{PIECE_LEN, rest_from};
pub use writing::{WriteFailed, write_whole};
