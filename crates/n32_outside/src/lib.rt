//! The outside of the program: what it reads from, what it writes to and what keeps its records, each with a count of its faults.
//!
//! A fault is answered only in a call in which the count rose, so no body can blame the outside for what it didn't do.
//! What a source has left, what a sink was given and what a keeper holds are told where the object knows them, and contracts hold there.
#![tactic(auto)]

mod algorithm;
mod calls;
mod fail_at;
mod faults;
mod file_keeper;
mod line_file;
mod lock_file;
mod memory;
mod memory_keeper;
mod record_front;
mod signing;
mod standard;
mod traits;

pub use algorithm::JwsAlg;
pub use calls::{CallList, FailItem, FailList, is_listed, kept_at};
pub use fail_at::FailAt;
pub use faults::{Failed, OutFault};
pub use file_keeper::FileKeeper;
pub use lock_file::LockFile;
pub use memory::{MemSink, MemSource};
pub use memory_keeper::MemKeeper;
pub use record_front::may_begin_record;
pub use signing::{Signer, Verifier};
pub use standard::{StdSink, StdSource};
pub use traits::{Keeper, Sink, Source};

#[cfg(test)]
mod tests;
