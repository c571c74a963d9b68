//! Definitions of the protocol between SEPPs, and laws over them.
#![tactic(auto)]

pub mod records;
pub mod rows;
