//! Entries of intermediaries, applied to blocks: each operation of a JSON Patch (RFC 6902) is made where the
//! policy allows it (after TS 33.501, clause 13.2.4.5; the reasons and their order are this project's own).
#![tactic(auto)]

mod entry;
mod fault;
mod guards;
mod outcome;
mod step;

pub use entry::apply_entry;
pub use fault::{EntryFault, OpWhy};
