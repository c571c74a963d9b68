//! Definitions of the script of `exercise N` and of its summary, and laws over them.
#![tactic(auto)]

pub mod laws;
pub mod rows;
pub mod texts;
