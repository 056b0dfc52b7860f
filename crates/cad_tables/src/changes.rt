//! What a command changes.

/// The object whose open version is closed, and its last day, counted from 1970-01-01.
#[derive(Clone, Copy, Debug, PartialEq, Eq)]
pub struct Closing {
    /// The object's number.
    pub object: u32,
    /// The last day, 0 for 1970-01-01.
    pub last: i32,
}

/// The change of one command: a version is added, an open one is closed, or both.
#[derive(Debug, Drop)]
pub enum Change<L> {
    /// The first version of an object is added.
    Enter(L),
    /// The open version is closed, and the next one is added.
    Amend {
        /// Which version is closed, on which day.
        closing: Closing,
        /// The row of the next version.
        line: L,
    },
    /// The open version is closed.
    Retire(Closing),
}
