// The calls of `n32_values`.
use n32_values::{
    B64Fault, Bytes, Doc, DocFault, Node, PlmnId, Text, Whole, base64url_text, copy_doc, depth,
    doc_text, hex64_text, is_same_doc, read_base64url, read_doc, read_hex64, read_plmn,
    text_length,
};
use std::alloc::Global;
use worked_rows::{
    Args, Given, count_node, digits_node, fault_node, number_node, pair_node, text_node, words_of,
};

fn doc_fault(alloc: Global, fault: DocFault) -> Option<Node> {
    match fault {
        DocFault::Syntax => fault_node(alloc, "SYNTAX"),
        DocFault::Number => fault_node(alloc, "NUMBER"),
        DocFault::NoMemory => None,
    }
}

fn same_copy(doc: &Doc, copy: Node) -> Option<Node> {
    if is_same_doc(doc.node(), &copy) {
        Some(copy)
    } else {
        None
    }
}

fn copied(alloc: Global, doc: Doc) -> Option<Node> {
    match copy_doc(alloc, doc.node()) {
        Ok(copy) => same_copy(&doc, copy),
        Err(_) => None,
    }
}

/// A copy of the document that `text` is read to.
pub fn read_doc_call(alloc: Global, given: &Given) -> Option<Node> {
    match read_doc(alloc, given.text.as_ref()?.as_str().as_bytes()) {
        Ok(doc) => copied(alloc, doc),
        Err(fault) => doc_fault(alloc, fault),
    }
}

/// The text of a copy of the document that `text` is read to.
pub fn doc_text_call(alloc: Global, given: &Given) -> Option<Node> {
    match read_doc_call(alloc, given) {
        Some(node) => written(alloc, node),
        None => None,
    }
}

fn written(alloc: Global, node: Node) -> Option<Node> {
    match doc_text(alloc, &node) {
        Ok(bytes) => words_of(alloc, bytes),
        Err(_) => None,
    }
}

fn lengths_node(alloc: Global, node: Node) -> Option<Node> {
    match doc_text(alloc, &node) {
        Ok(bytes) => both_lengths(alloc, text_length(&node), bytes.as_slice().len()),
        Err(_) => None,
    }
}

fn both_lengths(alloc: Global, counted: u64, written: usize) -> Option<Node> {
    let counted = Node::Whole(Whole::from_u64(counted));
    pair_node(
        alloc,
        "counted",
        Some(counted),
        "written",
        Some(count_node(written)),
    )
}

/// `text_length` of the document that `text` is read to, and how many bytes `doc_text` writes.
pub fn text_length_call(alloc: Global, given: &Given) -> Option<Node> {
    match read_doc_call(alloc, given) {
        Some(node) => lengths_node(alloc, node),
        None => None,
    }
}

/// The depth of the document that `text` is read to.
pub fn depth_call(alloc: Global, given: &Given) -> Option<Node> {
    match read_doc(alloc, given.text.as_ref()?.as_str().as_bytes()) {
        Ok(doc) => Some(number_node(depth(doc.node()))),
        Err(fault) => doc_fault(alloc, fault),
    }
}

/// The number of an id, and null for a text that is none.
pub fn read_hex64_call(args: Args<'_>) -> Option<Node> {
    match read_hex64(args.text("text")?) {
        Some(id) => Some(Node::Whole(Whole::from_u64(id.value))),
        None => Some(Node::Null),
    }
}

/// The text of the id that a text is of.
pub fn hex64_text_call(alloc: Global, args: Args<'_>) -> Option<Node> {
    match hex64_text(alloc, read_hex64(args.text("text")?)?) {
        Ok(text) => Some(Node::Words(text)),
        Err(_) => None,
    }
}

fn plmn_text(alloc: Global, id: PlmnId) -> Option<Node> {
    match id.copy(alloc) {
        Ok(copy) => text_node(alloc, copy.as_str()),
        Err(_) => None,
    }
}

/// The text of the id that a text is, and null for a text that is none.
pub fn read_plmn_call(alloc: Global, args: Args<'_>) -> Option<Node> {
    match read_plmn(alloc, args.text("text")?) {
        Ok(Some(id)) => plmn_text(alloc, id),
        Ok(None) => Some(Node::Null),
        Err(_) => None,
    }
}

/// The base64url text of `bytes`.
pub fn base64url_text_call(alloc: Global, given: &Given) -> Option<Node> {
    match base64url_text(alloc, given.bytes.as_ref()?.as_slice()) {
        Ok(text) => Some(Node::Words(text)),
        Err(_) => None,
    }
}

fn digits_of_copy(alloc: Global, bytes: Bytes) -> Option<Node> {
    match bytes.copy(alloc) {
        Ok(copy) => digits_node(alloc, copy.as_slice()),
        Err(_) => None,
    }
}

/// The bytes of a base64url text, in hexadecimal digits.
pub fn read_base64url_call(alloc: Global, args: Args<'_>) -> Option<Node> {
    match read_base64url(alloc, args.text("text")?) {
        Ok(bytes) => digits_of_copy(alloc, bytes),
        Err(B64Fault::NotText) => fault_node(alloc, "NOT_TEXT"),
        Err(B64Fault::NoMemory) => None,
    }
}
