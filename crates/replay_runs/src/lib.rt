//! Runs over scripts: each line of a source is answered to a sink, as the words of a call ask for.
//!
//! `run` carries the replay theorem: the answers to the events of a script are those of the definitions, in order, and
//! the keeper holds their records.
#![tactic(auto)]

mod command;
mod exercise;
pub mod laws;
mod loading;
mod replay;
mod running;
mod status;

pub use command::{Command, journal_file, read_command};
pub use running::run;
pub use status::Status;
