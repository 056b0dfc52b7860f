//! The rows of a page.

use cad_feature::Feature;

/// Some features, lent, whether more are left after them, and how many were tested.
#[derive(Debug, Drop)]
pub struct Page<'a> {
    /// By object and number.
    pub rows: Vec<&'a Feature>,
    /// Whether features are left after these.
    pub more: bool,
    /// How many features were tested, up to the one that shows that more are left.
    pub examined: u64,
}
