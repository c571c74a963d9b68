// The call of `block_patch`.
ghost use Rattle.std.specs.Prelude.{◌≤◌, length};

use crate::differences::address_node;
use crate::patches::cause_word;
use block_forms::{Block, read_block};
use block_patch::{EntryFault, OpWhy, apply_entry};
use json_patch6902::OpList;
use n32_values::{Doc, Node, NodeMap, Text, is_same_doc};
use policy_tables::{Address, Policy};
use std::alloc::Global;
use worked_rows::{Args, Given, map_node, number_node, put_part, text_node};

/// The arguments of a row, beside the block.
#[derive(Clone, Copy)]
struct Change<'a> {
    start: &'a Doc,
    operations: &'a OpList,
    policy: &'a Policy,
    mapping: Option<u32>,
    ipx: &'a Text,
}

fn change_in<'a>(args: Args<'_>, given: &'a Given) -> Option<Change<'a>> {
    Some(Change {
        start: given.block.as_ref()?,
        operations: given.operations.as_ref()?,
        policy: given.policy.as_ref()?,
        mapping: args.mapping()?,
        ipx: given.ipx.as_ref()?,
    })
}

fn reason_word(why: &OpWhy) -> &'static str {
    match why {
        OpWhy::HoleValue => "HOLE_VALUE",
        OpWhy::IntoHole => "INTO_HOLE",
        OpWhy::Patch(cause) => cause_word(*cause),
        OpWhy::HoleTaken => "HOLE_TAKEN",
        OpWhy::TooLarge => "TOO_LARGE",
        OpWhy::Meta => "META",
        OpWhy::NotBlock => "NOT_BLOCK",
        OpWhy::HoleMoved => "HOLE_MOVED",
        OpWhy::NotModifiable(_) => "NOT_MODIFIABLE",
    }
}

fn put_address(alloc: Global, map: &mut NodeMap, why: OpWhy) -> Option<()> {
    match why {
        OpWhy::NotModifiable(address) => {
            put_part(alloc, map, "address", address_node(alloc, address))
        }
        _ => Some(()),
    }
}

// The operation that isn't allowed, as `{"operation":1,"reason":"HOLE_VALUE"}`.
fn reason_node(alloc: Global, number: u32, why: OpWhy) -> Option<Node> {
    let mut map = NodeMap::new(alloc);
    let word = text_node(alloc, reason_word(&why));
    let done = (
        put_part(alloc, &mut map, "operation", Some(number_node(number))),
        put_part(alloc, &mut map, "reason", word),
        put_address(alloc, &mut map, why),
    );
    match done {
        (Some(()), Some(()), Some(())) => map_node(map, Some(())),
        _ => None,
    }
}

// The refusal, where the block is as it was.
fn refused_node(alloc: Global, fault: EntryFault, block: &Block, start: &Doc) -> Option<Node> {
    match fault {
        EntryFault::Operation(number, why) => {
            if is_same_doc(block.doc().node(), start.node()) {
                reason_node(alloc, number, why)
            } else {
                None
            }
        }
        EntryFault::NoMemory => None,
    }
}

fn changed_node(alloc: Global, change: Change<'_>, mut block: Block) -> Option<Node> {
    let Change {
        start,
        operations,
        policy,
        mapping,
        ipx,
    } = change;
    if operations.len() > 64 {
        return None;
    }
    match apply_entry(alloc, &mut block, operations, policy, mapping, ipx) {
        Ok(()) => Some(block.into_doc().into_node()),
        Err(fault) => refused_node(alloc, fault, &block, start),
    }
}

/// The block that `operations` of `ipx` make of `block` with `count` holes, or the number of the first that
/// isn't allowed with its reason.
pub fn apply_entry_call(alloc: Global, args: Args<'_>, given: &Given) -> Option<Node> {
    let change = change_in(args, given)?;
    match read_block(alloc, change.start, args.number("count")?) {
        Ok(block) => changed_node(alloc, change, block),
        Err(_) => None,
    }
}
