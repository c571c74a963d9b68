//! What a store answers of each context, kept in step with the records: a table from a node's name and an id to the
//! facts that its records told. A question looks up one context, and of the others nothing.
#![tactic(auto)]

mod cache;
mod caches;
mod fact;
mod name;

pub use caches::Caches;
pub use fact::Fact;
