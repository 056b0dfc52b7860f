//! The sample register: ten commands that make two units, a party, four parcels, a right and a restriction.
//!
//! - `sample`: the commands
//! - `fill`: enters them into a ledger, one after the other
//!
//! Parcel 1 is amended once, so that it has two versions; parcel 2 has no area, and parcel 4 no shape.
//!
//! ```text
//! let mut ledger = MemoryLedger::new(alloc);
//! fill(alloc, &mut ledger)    // Ok(10)
//! fill(alloc, &mut ledger)    // Err(KnownObject): unit 10 was entered
//! ```
#![tactic(auto)]

mod commands;
mod filling;
mod values;

pub use commands::sample;
pub use filling::fill;
