// The calls of `enc_index`.
use enc_index::{FillFault, Holes, HolesFault, Place, fill, has_hole_spelling, places};
use json_ptr::pointer_text;
use n32_values::{Doc, Node, NodeList, Text};
use std::alloc::Global;
use worked_rows::{Args, Given, fault_node, member_node, number_node};

fn numbered(alloc: Global, pointer: Text, part: usize) -> Option<Node> {
    match format!(in alloc; "{}#{part}", pointer.as_str()) {
        Ok(text) => Some(Node::Words(Text::from_string(text))),
        Err(_) => None,
    }
}

/// A place, as `/payload/0/value`, or `/requestLine/path#1` for a hole within a text.
pub fn place_node(alloc: Global, place: &Place) -> Option<Node> {
    match (pointer_text(alloc, &place.pointer), place.part) {
        (Ok(pointer), Some(part)) => numbered(alloc, pointer, part),
        (Ok(pointer), None) => Some(Node::Words(pointer)),
        _ => None,
    }
}

fn places_node(alloc: Global, holes: Holes) -> Option<Node> {
    let mut list = NodeList::new(alloc);
    for i in 0..holes.len() {
        list.push(place_node(alloc, holes.get(i)?)?).ok()?;
    }
    Some(Node::Items(list))
}

fn holes_fault(alloc: Global, fault: &HolesFault) -> Option<Node> {
    match fault {
        HolesFault::BadHole(place) => member_node(alloc, "bad_hole", place_node(alloc, place)?),
        HolesFault::Twice(index) => member_node(alloc, "twice", number_node(*index)),
        HolesFault::Missing(index) => member_node(alloc, "missing", number_node(*index)),
        HolesFault::NoMemory => None,
    }
}

fn holes_told(alloc: Global, fault: HolesFault) -> Option<Node> {
    holes_fault(alloc, &fault)
}

/// The places of the holes of `block`, of which there are to be `count`.
pub fn places_call(alloc: Global, args: Args<'_>, given: &Given) -> Option<Node> {
    match places(alloc, given.block.as_ref()?, args.number("count")?) {
        Ok(holes) => places_node(alloc, holes),
        Err(fault) => holes_told(alloc, fault),
    }
}

fn filled(alloc: Global, outcome: Result<Doc, FillFault>) -> Option<Node> {
    match outcome {
        Ok(doc) => Some(doc.into_node()),
        Err(FillFault::NotText(index)) => member_node(alloc, "not_text", number_node(index)),
        Err(FillFault::TooDeep) => fault_node(alloc, "DEPTH"),
        Err(FillFault::NoMemory) => None,
    }
}

fn fill_node(alloc: Global, block: &Doc, values: &NodeList) -> Option<Node> {
    let count = u32::try_from(values.len()).ok()?;
    match places(alloc, block, count) {
        Ok(holes) => filled(alloc, fill(alloc, block, &holes, values)),
        Err(fault) => holes_told(alloc, fault),
    }
}

/// `block` with its holes filled with `values`.
pub fn fill_call(alloc: Global, args: Args<'_>, given: &Given) -> Option<Node> {
    fill_node(alloc, given.block.as_ref()?, args.list("values")?)
}

pub fn has_hole_spelling_call(args: Args<'_>) -> Option<Node> {
    Some(Node::Truth(has_hole_spelling(args.document("document")?)))
}
