//! What a tree must have to be a block, and the first thing that is wrong with one that is none (after the
//! integrity-protected block of TS 33.501, clause 13.2.4.3.1; names, forms and limits are this project's own).
#![tactic(auto)]

mod block;
mod body;
mod clear;
mod depths;
mod exact;
mod fault;
mod laws;
mod line;
mod lists;
mod meta;
mod overlaps;
mod parts;
mod paths;
mod reading;

pub use block::{Block, block_doc};
pub use clear::clear_message;
pub use fault::{BlockRead, BlockWhy, LimitName, block_fault, limit_name};
pub use laws::values_are_few;
pub use meta::{Meta, MetaRead, is_meta, meta_node, read_meta};
pub use reading::{BlockReading, OpenBlock, read_block};
