// Answers as nodes.
use doc_forms::put;
use n32_values::{Bytes, Hex64, Node, NodeMap, Text, Whole, hex64_text};
use std::alloc::Global;

/// A text.
pub fn text_node(alloc: Global, text: &str) -> Option<Node> {
    match Text::from_text(alloc, text) {
        Ok(text) => Some(Node::Words(text)),
        Err(_) => None,
    }
}

/// The text that bytes are, where they are one.
pub fn words_of(alloc: Global, bytes: Bytes) -> Option<Node> {
    match str::from_utf8(bytes.as_slice()) {
        Ok(text) => text_node(alloc, text),
        Err(_) => None,
    }
}

/// Bytes as hexadecimal digits.
pub fn digits_node(alloc: Global, bytes: &[u8]) -> Option<Node> {
    match hex::encode(alloc, bytes) {
        Ok(digits) => Some(Node::Words(Text::from_string(digits))),
        Err(_) => None,
    }
}

/// The text of an id.
pub fn id_node(alloc: Global, id: Hex64) -> Option<Node> {
    match hex64_text(alloc, id) {
        Ok(text) => Some(Node::Words(text)),
        Err(_) => None,
    }
}

/// A number.
pub fn number_node(number: u32) -> Node {
    Node::Whole(Whole::from_u64(u64::from(number)))
}

/// How many there are of something.
pub fn count_node(count: usize) -> Node {
    Node::Whole(Whole::from_u64(count as u64))
}

/// A number, or null for none.
pub fn number_or_null(number: Option<u32>) -> Node {
    match number {
        Some(number) => number_node(number),
        None => Node::Null,
    }
}

/// An object of one member.
pub fn member_node(alloc: Global, name: &str, node: Node) -> Option<Node> {
    let mut map = NodeMap::new(alloc);
    match put(alloc, &mut map, name, node) {
        Ok(()) => Some(Node::Members(map)),
        Err(_) => None,
    }
}

/// Puts a part of an answer at a name of it.
pub fn put_part(alloc: Global, map: &mut NodeMap, name: &str, part: Option<Node>) -> Option<()> {
    match part {
        Some(node) => put(alloc, map, name, node).ok(),
        None => None,
    }
}

/// The object of a map, where nothing failed.
pub fn map_node(map: NodeMap, done: Option<()>) -> Option<Node> {
    match done {
        Some(()) => Some(Node::Members(map)),
        None => None,
    }
}

fn both_members(alloc: Global, first: &str, one: Node, second: &str, other: Node) -> Option<Node> {
    let mut map = NodeMap::new(alloc);
    match (
        put(alloc, &mut map, first, one),
        put(alloc, &mut map, second, other),
    ) {
        (Ok(()), Ok(())) => Some(Node::Members(map)),
        _ => None,
    }
}

/// An object of two members.
pub fn pair_node(
    alloc: Global,
    first: &str,
    one: Option<Node>,
    second: &str,
    other: Option<Node>,
) -> Option<Node> {
    match (one, other) {
        (Some(one), Some(other)) => both_members(alloc, first, one, second, other),
        _ => None,
    }
}

/// Why a document isn't read, as `{"fault":"method"}`.
pub fn fault_node(alloc: Global, word: &str) -> Option<Node> {
    let word = text_node(alloc, word)?;
    member_node(alloc, "fault", word)
}
