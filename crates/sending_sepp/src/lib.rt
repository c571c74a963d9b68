//! The sending SEPP: a message is split, sealed and recorded, and then handed out (TS 33.501 clauses 13.2.4.4
//! and 13.2.4.5 in outline).
#![tactic(auto)]

mod checks;
mod fault;
mod mapping;
mod metadata;
mod outgoing;
mod recording;
mod sealing;
mod sending;
mod splitting;

pub use fault::{ProtectFault, SendFault};
pub use sending::{protect, protect_reply};
