//! Agreement of the contexts that a script's handshakes open.
#![tactic(auto)]

pub mod agreement;
pub mod rows;
