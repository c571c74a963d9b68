// The calls of the lists and maps of `n32_values`: each changes a copy of `document` and answers it.
use doc_forms::put;
use n32_values::{Doc, DocList, Node, NodeList, NodeMap, copy_doc};
use std::alloc::Global;
use worked_rows::{Args, count_node, map_node};

fn value_in(alloc: Global, args: Args<'_>) -> Option<Node> {
    copy_doc(alloc, args.document("value")?).ok()
}

fn map_in(alloc: Global, args: Args<'_>) -> Option<NodeMap> {
    match copy_doc(alloc, args.document("document")?) {
        Ok(Node::Members(map)) => Some(map),
        _ => None,
    }
}

fn list_in(alloc: Global, args: Args<'_>) -> Option<NodeList> {
    match copy_doc(alloc, args.document("document")?) {
        Ok(Node::Items(list)) => Some(list),
        _ => None,
    }
}

fn list_node(list: NodeList, done: Option<()>) -> Option<Node> {
    match done {
        Some(()) => Some(Node::Items(list)),
        None => None,
    }
}

fn put_value(alloc: Global, map: &mut NodeMap, args: Args<'_>) -> Option<()> {
    let name = args.text("member")?;
    put(alloc, map, name, value_in(alloc, args)?).ok()
}

/// `value` is put at the name `member`.
pub fn put_member_call(alloc: Global, args: Args<'_>) -> Option<Node> {
    match map_in(alloc, args) {
        Some(mut map) => {
            let done = put_value(alloc, &mut map, args);
            map_node(map, done)
        }
        None => None,
    }
}

fn write_value(alloc: Global, map: &mut NodeMap, args: Args<'_>) -> Option<()> {
    let name = args.text("member")?;
    let lent = map.get_mut(name)?;
    *lent = value_in(alloc, args)?;
    Some(())
}

/// `value` is written over the node that is lent of the name `member`.
pub fn write_member_call(alloc: Global, args: Args<'_>) -> Option<Node> {
    match map_in(alloc, args) {
        Some(mut map) => {
            let done = write_value(alloc, &mut map, args);
            map_node(map, done)
        }
        None => None,
    }
}

fn take_value(map: &mut NodeMap, args: Args<'_>) -> Option<()> {
    let _taken = map.take(args.text("member")?)?;
    Some(())
}

/// The node of the name `member` is taken out.
pub fn take_member_call(alloc: Global, args: Args<'_>) -> Option<Node> {
    match map_in(alloc, args) {
        Some(mut map) => {
            let done = take_value(&mut map, args);
            map_node(map, done)
        }
        None => None,
    }
}

fn insert_value(alloc: Global, list: &mut NodeList, args: Args<'_>) -> Option<()> {
    let place = args.number("place")? as usize;
    let value = value_in(alloc, args)?;
    if place < list.len() {
        list.insert(place, value).ok()
    } else {
        list.push(value).ok()
    }
}

/// `value` is put in before the item `place`, or at the end.
pub fn insert_item_call(alloc: Global, args: Args<'_>) -> Option<Node> {
    match list_in(alloc, args) {
        Some(mut list) => {
            let done = insert_value(alloc, &mut list, args);
            list_node(list, done)
        }
        None => None,
    }
}

fn write_item(alloc: Global, list: &mut NodeList, args: Args<'_>) -> Option<()> {
    let place = args.number("place")? as usize;
    let lent = list.get_mut(place)?;
    *lent = value_in(alloc, args)?;
    Some(())
}

/// `value` is written over the item `place` that is lent.
pub fn write_item_call(alloc: Global, args: Args<'_>) -> Option<Node> {
    match list_in(alloc, args) {
        Some(mut list) => {
            let done = write_item(alloc, &mut list, args);
            list_node(list, done)
        }
        None => None,
    }
}

fn taken_or_null(list: NodeList, taken: Option<Node>) -> Option<Node> {
    match taken {
        Some(_) => Some(Node::Items(list)),
        None => Some(Node::Null),
    }
}

fn without_item(list: NodeList, place: usize) -> Option<Node> {
    let mut list = list;
    let taken = list.take(place);
    taken_or_null(list, taken)
}

/// The item `place` is taken out; null for a list that has none there.
pub fn take_item_call(alloc: Global, args: Args<'_>) -> Option<Node> {
    let place = args.number("place")? as usize;
    match list_in(alloc, args) {
        Some(list) => without_item(list, place),
        None => None,
    }
}

fn one_document(alloc: Global, doc: Doc) -> Option<Node> {
    let mut docs = DocList::new(alloc);
    match docs.push(doc) {
        Ok(()) => Some(count_node(docs.len())),
        Err(_) => None,
    }
}

/// How many documents a list has to which `document` was added.
pub fn doc_list_call(alloc: Global, args: Args<'_>) -> Option<Node> {
    match copy_doc(alloc, args.document("document")?) {
        Ok(node) => match Doc::new(node) {
            Ok(doc) => one_document(alloc, doc),
            Err(_) => None,
        },
        Err(_) => None,
    }
}
