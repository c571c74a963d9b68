//! Whether a sender sealed all that its policy makes secret (TS 33.501 clause 13.2.3.3 in outline): the
//! first secret place of a filled message that stands at no hole.
#![tactic(auto)]

mod body;
mod check;
mod parts;

pub use check::first_in_clear;
