//! How two messages differ under a policy's mapping, and the first difference that an intermediary
//! may not make (own, to TS 33.501 clause 13.2.3.4 in outline).
#![tactic(auto)]

mod body;
mod change;
mod first;
mod line;
mod named;
mod names;

pub use first::first_fixed;
