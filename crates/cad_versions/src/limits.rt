//! How large numbers of a register may be.

/// The largest number of an object, and of a version of one.
pub const MOST_NUMBER: u32 = 2_147_483_647;

/// The most versions that a register may have.
pub const MOST_VERSIONS: u32 = 2_147_483_647;
