//! JSON Patch (RFC 6902): operations read from a document, and each applied to a document in place.
#![tactic(auto)]

mod change;
mod fault;
mod op;
mod patching;
mod place;
mod reading;

pub use fault::{ApplyFault, PatchFault};
pub use op::{Op, OpList};
pub use patching::apply;
pub use reading::{OpsRead, read_ops};
