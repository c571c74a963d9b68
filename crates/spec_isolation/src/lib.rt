//! What a run of a script tells one context of one node: by what its events bring and by its own records alone.
#![tactic(auto)]

pub mod isolation;
