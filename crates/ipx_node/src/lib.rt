//! The intermediary (IPX, TS 33.501 clause 13.2.4.5): it passes a reformatted document on with an entry of
//! its own, and leaves all else as it is.
#![tactic(auto)]

mod append;
mod passing;

pub use passing::{IpxConfig, PassFault, pass_on};
