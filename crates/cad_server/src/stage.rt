//! How far the work for a page is.

use cad_page::{Plan, Search};

/// A plan that leaves nothing out, and how many features its first leaves find.
#[derive(Drop)]
pub(crate) struct Counted {
    pub(crate) full: Plan,
    pub(crate) counts: Vec<u64>,
}

/// A plan, and the search by it.
#[derive(Drop)]
pub(crate) struct Planned {
    pub(crate) plan: Plan,
    pub(crate) search: Search,
}

/// How far the work is.
#[derive(Drop)]
pub(crate) enum Stage {
    /// The leaves of the full plan are counted, by which a plan is chosen.
    Counting(Counted),
    /// The page is searched for.
    Searching(Planned),
    /// The page was found, and its text is to be written.
    Writing {
        /// The search that found it.
        search: Search,
        /// Whether more features are left.
        more: bool,
    },
}
