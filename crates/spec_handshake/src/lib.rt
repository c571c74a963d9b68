//! The handshake of two SEPPs over N32-c (TS 29.573 clause 5.2 in outline), as definitions over records and documents,
//! and laws over them.
#![tactic(auto)]

pub mod agreement;
pub mod documents;
pub mod rows;
