//! What the events of a script of replays mean: events and their documents, the steps of a run, answers and output; and laws over runs.
#![tactic(auto)]

pub mod rows;
pub mod runs;
