//! Plans for the features that meet a normal form: which there are, what each costs, and the cheapest.
//!
//! - [`menu`]: the plans for a form, each of which has every feature that meets it among its candidates
//! - [`estimate`]: how many features a plan looks at. No memory is taken.
//! - [`choose`]: the first plan of least cost of the menu
//! - [`full_plan`], [`count_some`], [`choose_counted`]: the same choice in pieces. A full plan has a leaf for each condition, the leaves are
//!   counted some at a time, and the counts decide
//! - [`Plan`]: which features of a collection are looked at
//! - [`FeaturesAt`]: the features of a collection at a revision, which counts them by the indexes of their rows
//!
//! Of the five parcels 1.1, 1.2, 2.1, 3.1 and 4.1, the menu of `object = 3` is all, which costs 5, and the range of `object`
//! from 3 to 3, which costs 1 and is chosen.
#![tactic(auto)]

mod choosing;
mod counting;
mod estimating;
mod full_plans;
mod menus;

pub use cad_history::FeaturesAt;
pub use cad_lookup::Plan;
pub use choosing::{choose, choose_counted};
pub use counting::count_some;
pub use estimating::estimate;
pub use full_plans::full_plan;
pub use menus::menu;
