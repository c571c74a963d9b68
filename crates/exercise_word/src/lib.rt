//! The word `exercise`: the lines of the script of `exercise N` are made one after another, a machine answers each, and
//! the summary of the answers is written at the end. Neither script nor answers are kept.
#![tactic(auto)]

mod playing;
mod running;

pub use running::run;
