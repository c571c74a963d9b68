// The calls of `prins_document`.
use http_message::Kind;
use n32_values::{Node, NodeList, NodeMap, copy_doc};
use prins_document::{
    ValuesRead, WireDoc, WireRead, entries, read_values, read_wire_doc, values_text, wire_doc,
};
use std::alloc::Global;
use worked_rows::{Args, Given, count_node, fault_node, map_node, put_part, text_node, words_of};

fn kind_word(kind: Kind) -> &'static str {
    match kind {
        Kind::Request => "request",
        Kind::Response => "response",
    }
}

// The document that a JWE is written to.
fn again(alloc: Global, whole: &WireDoc) -> Option<Node> {
    match wire_doc(alloc, &whole.jwe) {
        Ok(doc) => Some(doc.into_node()),
        Err(_) => None,
    }
}

fn put_parts(alloc: Global, map: &mut NodeMap, whole: &WireDoc) -> Option<()> {
    put_part(alloc, map, "kind", text_node(alloc, kind_word(whole.kind)))?;
    put_part(
        alloc,
        map,
        "ipx",
        text_node(alloc, whole.authorized.as_str()),
    )?;
    put_part(alloc, map, "document", again(alloc, whole))
}

fn whole_node(alloc: Global, whole: WireDoc) -> Option<Node> {
    let mut map = NodeMap::new(alloc);
    let done = put_parts(alloc, &mut map, &whole);
    map_node(map, done)
}

/// The kind and the intermediary of the document of a wire, and what its JWE is written to; or the first bad part.
pub fn read_wire_doc_call(alloc: Global, given: &Given) -> Option<Node> {
    match read_wire_doc(alloc, given.wire.as_ref()?) {
        Ok(whole) => whole_node(alloc, whole),
        Err(WireRead::Form(part)) => fault_node(alloc, part.name()),
        Err(WireRead::NoMemory) => None,
    }
}

/// Whether a document is one of a wire.
pub fn is_wire_doc_call(alloc: Global, given: &Given) -> Option<Node> {
    Some(Node::Truth(read_wire_doc(alloc, given.wire.as_ref()?).is_ok()))
}

/// How many entries a document has, and null where it has no list of them.
pub fn entries_call(given: &Given) -> Option<Node> {
    match entries(given.wire.as_ref()?) {
        Some(list) => Some(count_node(list.len())),
        None => Some(Node::Null),
    }
}

fn values_node(alloc: Global, plain: &[u8]) -> Option<Node> {
    match read_values(alloc, plain) {
        Ok(values) => Some(Node::Items(values)),
        Err(ValuesRead::NoList) => fault_node(alloc, "NO_LIST"),
        Err(ValuesRead::NoMemory) => None,
    }
}

/// The values of a plaintext, `text` or `bytes`.
pub fn read_values_call(alloc: Global, given: &Given) -> Option<Node> {
    match (&given.text, &given.bytes) {
        (Some(text), None) => values_node(alloc, text.as_str().as_bytes()),
        (None, Some(bytes)) => values_node(alloc, bytes.as_slice()),
        _ => None,
    }
}

fn written(alloc: Global, values: NodeList) -> Option<Node> {
    match values_text(alloc, values) {
        Ok(bytes) => words_of(alloc, bytes),
        Err(_) => None,
    }
}

/// The plaintext of `values`.
pub fn values_text_call(alloc: Global, args: Args<'_>) -> Option<Node> {
    match copy_doc(alloc, args.document("values")?) {
        Ok(Node::Items(values)) => written(alloc, values),
        _ => None,
    }
}
