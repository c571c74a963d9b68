//! The store of contexts: the records that a keeper holds, read once and kept in step, and the questions
//! on them.
#![tactic(auto)]

mod call_faults;
mod facts;
mod faults;
mod loading;
mod noting;
mod questions;
mod store;

pub use call_faults::{CallFault, CheckFault};
pub use faults::{AddFault, OpenFault};
pub use store::{RECORD_LIMIT, Store, new_store, open_store};
