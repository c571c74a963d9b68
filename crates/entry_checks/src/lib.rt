//! The entries of a document, as the receiving SEPP checks and applies them (after TS 33.501 clause 13.2.4.6;
//! the order of the checks is this project's own).
#![tactic(auto)]

mod bound;
mod changes;
mod detail;
mod entries;
mod refused;
mod route;
mod step;
mod terms;

pub use entries::apply_entries;
pub use refused::{EntriesFault, EntryWhy, RefusedEntry};
pub use route::{Route, route_for};
pub use terms::EntryTerms;
