// The call of `message_differences`.
use message_differences::first_fixed;
use n32_values::Node;
use policy_tables::{Address, address_text};
use std::alloc::Global;
use worked_rows::{Args, Given};

pub fn address_node(alloc: Global, address: Address) -> Option<Node> {
    match address_text(alloc, &address) {
        Ok(text) => Some(Node::Words(text)),
        Err(_) => None,
    }
}

/// The address of the first difference of `message` and `after` that the intermediary may not make, or null.
pub fn first_fixed_call(alloc: Global, args: Args<'_>, given: &Given) -> Option<Node> {
    let found = first_fixed(
        alloc,
        given.policy.as_ref()?,
        args.mapping()?,
        given.message.as_ref()?,
        given.after.as_ref()?,
        given.ipx.as_ref()?,
    );
    match found {
        Ok(Some(address)) => address_node(alloc, address),
        Ok(None) => Some(Node::Null),
        Err(_) => None,
    }
}
