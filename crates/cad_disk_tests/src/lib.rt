//! Tests of the register over files in memory that can fail at any call, and of a desk over a restart.
//!
//! - `orders`: commands of the land office, by what they say
//! - `works`: what is done over a database of any kind
//! - `files`: a database in two files, of any kind
//! - `stops`: what a command leaves if a file fails after so many calls
//! - `walk`: a walk through pages, in which the files are closed and opened again
//!
//! They are separate from the other tests of the land office, so that the prover's cost of a database over another kind of file is paid
//! once. It is paid again in each function that has such a database: so one function of `files` has it, and all others are for any kind of
//! database. Commands and events are values, since the program would otherwise have the reader of JSON, too.
#![tactic(auto)]

#[cfg(test)]
mod files;
#[cfg(test)]
mod orders;
#[cfg(test)]
mod stops;
#[cfg(test)]
mod trouble;
#[cfg(test)]
mod walk;
#[cfg(test)]
mod works;
