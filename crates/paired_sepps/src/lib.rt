//! What one SEPP sealed and nobody touched, the SEPP at its pair delivers as it was: laws over the values of the program.
#![tactic(auto)]

mod bodies;
mod contexts;
mod untouched;

pub use untouched::{untouched_reply_is_delivered, untouched_request_is_delivered};
