//! Messages as blocks: what is secret goes into a list of values, and the rest is a block that an
//! intermediary reads (after the integrity-protected block of TS 33.501, clause 13.2.4.3.1).
#![tactic(auto)]

mod block;
mod body;
mod laws;
mod message_split;
mod parts;
mod sent;

pub use block::Split;
pub use block_forms::{
    Block, BlockRead, BlockReading, BlockWhy, LimitName, Meta, MetaRead, block_doc, clear_message,
    is_meta, read_block, read_meta,
};
pub use laws::split_is_undone;
pub use message_split::{SplitFault, split};
