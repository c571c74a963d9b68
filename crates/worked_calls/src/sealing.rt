// The call of `sealing_check`.
use crate::differences::address_node;
use n32_values::Node;
use sealing_check::first_in_clear;
use std::alloc::Global;
use worked_rows::{Args, Given};

/// The address of the first secret of `after`, a message, that stands at no hole of `message`, or null.
pub fn first_in_clear_call(alloc: Global, args: Args<'_>, given: &Given) -> Option<Node> {
    let found = first_in_clear(
        alloc,
        given.policy.as_ref()?,
        args.mapping()?,
        given.message.as_ref()?,
        given.after.as_ref()?,
    );
    match found {
        Ok(Some(address)) => address_node(alloc, address),
        Ok(None) => Some(Node::Null),
        Err(_) => None,
    }
}
