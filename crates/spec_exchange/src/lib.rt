//! What SEPPs send and receive under a context (N32-f), as definitions over records and documents, and laws over them.
#![tactic(auto)]

pub mod accept_rows;
pub mod accepting;
pub mod rows;
pub mod runs;
pub mod untouched;
