// The calls of `json_ptr`.
use json_ptr::{FindFault, Pointer, PointerRead, find, is_prefix, pointer_text, read_pointer};
use n32_values::{Node, NodeList, copy_doc};
use std::alloc::Global;
use worked_rows::{Args, Given, count_node, fault_node, member_node, text_node};

fn tokens_node(alloc: Global, pointer: Pointer) -> Option<Node> {
    let mut list = NodeList::new(alloc);
    for token in pointer.tokens().as_slice() {
        list.push(text_node(alloc, token.as_str())?).ok()?;
    }
    Some(Node::Items(list))
}

fn tokens_of_copy(alloc: Global, pointer: Pointer) -> Option<Node> {
    match pointer.copy(alloc) {
        Ok(copy) => tokens_node(alloc, copy),
        Err(_) => None,
    }
}

/// The tokens of the pointer that a text is, or the byte place of the text's first fault.
pub fn read_pointer_call(alloc: Global, args: Args<'_>) -> Option<Node> {
    match read_pointer(alloc, args.text("pointer")?) {
        Ok(pointer) => tokens_of_copy(alloc, pointer),
        Err(PointerRead::Fault(place)) => { member_node(alloc, "fault", count_node(place)) }
        Err(PointerRead::NoMemory) => None,
    }
}

fn pointer_of(alloc: Global, tokens: &NodeList) -> Option<Pointer> {
    let mut pointer = Pointer::new(alloc);
    for i in 0..tokens.len() {
        match tokens.item(i) {
            Node::Words(text) => pointer.push(text.copy(alloc).ok()?).ok()?,
            _ => return None,
        }
    }
    Some(pointer)
}

fn pointer_node(alloc: Global, pointer: Pointer) -> Option<Node> {
    match pointer_text(alloc, &pointer) {
        Ok(text) => Some(Node::Words(text)),
        Err(_) => None,
    }
}

/// The text of the pointer of a list of tokens.
pub fn pointer_text_call(alloc: Global, args: Args<'_>) -> Option<Node> {
    pointer_node(alloc, pointer_of(alloc, args.list("tokens")?)?)
}

/// Whether the tokens of `pointer` are the first ones of `whole`.
pub fn is_prefix_call(given: &Given) -> Option<Node> {
    match (&given.pointer, &given.whole) {
        (Some(pointer), Some(whole)) => Some(Node::Truth(is_prefix(pointer, whole))),
        _ => None,
    }
}

/// The node of `document` at `pointer`, or why there is none.
pub fn find_call(alloc: Global, args: Args<'_>, given: &Given) -> Option<Node> {
    match find(args.document("document")?, given.pointer.as_ref()?) {
        Ok(node) => copy_doc(alloc, node).ok(),
        Err(FindFault::NoPlace) => fault_node(alloc, "NO_PLACE"),
        Err(FindFault::BadIndex) => fault_node(alloc, "BAD_INDEX"),
    }
}
