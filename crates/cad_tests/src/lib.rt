//! Tests of what no case of data can show: readers and writers that fail, listeners, databases in memory and damaged rows.
//!
//! - `tables`, `register`, `office`: what the tables, the register and the office keep and answer
//! - `chains`: what a server's summary says of its commands
//! - `damage`: each rule of a row, broken; `desks`: a desk over a damaged row
//! - `streams`: the office over readers and writers that fail at each call, or never end
//! - `serving`: connections over readers and writers that fail at each call, and one connection after another
//! - `listening`: a connection that is taken from a listener
//!
//! They are separate from the crates that they test, so that each of those is proved once, and SQLite is built once for all of them.
#![tactic(auto)]

#[cfg(test)]
mod chains;
#[cfg(test)]
mod damage;
#[cfg(test)]
mod desks;
#[cfg(test)]
mod listening;
#[cfg(test)]
mod office;
#[cfg(test)]
mod register;
#[cfg(test)]
mod serving;
#[cfg(test)]
mod streams;
#[cfg(test)]
mod tables;
