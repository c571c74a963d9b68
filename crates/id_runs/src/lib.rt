//! Ids that come mostly in order, kept as runs, with a record's number and a mapping for each.
//!
//! A run is searched for in as many steps as the number of runs has binary digits, and one more.
#![tactic(auto)]

mod finding;
mod placing;
mod run_list;
mod steps;

pub use finding::{find_in_runs, find_mapping, mapping_of, number_of};
pub use run_list::{Entry, Run, RunList};
pub use steps::Steps;
