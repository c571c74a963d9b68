// Texts that a row writes in parts, since they are longer than a row should be.
use doc_forms::{cut, number_text};
use n32_values::{Node, NodeList, NodeMap, Text};
use std::alloc::Global;

// A text so many times; the mark `#` in it stands for the number of the time, from 0.
fn push_times(alloc: Global, out: &mut String, text: &str, times: u32) -> Option<()> {
    let (before, after) = cut(text, '#');
    for number in 0..times {
        out.push_str(before).ok()?;
        if let Some(after) = after {
            push_number(alloc, out, number)?;
            out.push_str(after).ok()?;
        }
    }
    Some(())
}

fn push_number(alloc: Global, out: &mut String, number: u32) -> Option<()> {
    match number_text(alloc, u64::from(number)) {
        Ok(text) => out.push_str(text.as_str()).ok(),
        Err(_) => None,
    }
}

// A part as `{"text":"[","times":64}`.
fn push_map(alloc: Global, out: &mut String, map: &NodeMap) -> Option<()> {
    match (map.get("text"), map.get("times")) {
        (Some(Node::Words(text)), Some(Node::Whole(times))) => {
            let times = u32::try_from(times.value()).ok()?;
            push_times(alloc, out, text.as_str(), times)
        }
        _ => None,
    }
}

fn push_part(alloc: Global, out: &mut String, part: &Node) -> Option<()> {
    match part {
        Node::Words(text) => out.push_str(text.as_str()).ok(),
        Node::Members(map) => push_map(alloc, out, map),
        _ => None,
    }
}

fn joined(alloc: Global, parts: &NodeList) -> Option<Text> {
    let mut out = String::new(alloc);
    for i in 0..parts.len() {
        push_part(alloc, &mut out, parts.item(i))?;
    }
    Some(Text::from_string(out))
}

/// A text, or the parts of one in their order.
pub fn text_of_parts(alloc: Global, node: &Node) -> Option<Text> {
    match node {
        Node::Words(text) => text.copy(alloc).ok(),
        Node::Items(parts) => joined(alloc, parts),
        _ => None,
    }
}
