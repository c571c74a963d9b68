//! Error reports between two SEPPs (TS 29.573 clause 5.2.5 in outline): which refusal of a message is reported, and as
//! what; the documents of reports; and laws over them.
#![tactic(auto)]

pub mod reports;
pub mod rows;
