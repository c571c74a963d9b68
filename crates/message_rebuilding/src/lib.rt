//! Messages put together again: the message that a block stands for, with the values of its holes (after
//! TS 33.501, clause 13.2.4.3).
#![tactic(auto)]

mod filling;
mod laws;
mod misfit;
mod rebuilding;
mod tree;

pub use block_forms::{clear_message, values_are_few};
pub use filling::{RebuildFault, fill_message};
pub use laws::split_is_rebuilt;
pub use rebuilding::rebuild;
