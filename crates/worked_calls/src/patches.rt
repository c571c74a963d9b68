// The calls of `json_patch6902`.
use json_patch6902::{ApplyFault, Op, OpList, OpsRead, PatchFault, apply, read_ops};
use json_ptr::{Pointer, pointer_text};
use n32_values::{Doc, Node, NodeList, NodeMap, copy_doc, depth, is_same_doc};
use std::alloc::Global;
use worked_rows::{
    Args, Given, count_node, fault_node, map_node, member_node, number_node, put_part, text_node,
};

fn pointer_node(alloc: Global, pointer: &Pointer) -> Option<Node> {
    match pointer_text(alloc, pointer) {
        Ok(text) => Some(Node::Words(text)),
        Err(_) => None,
    }
}

fn put_place(alloc: Global, map: &mut NodeMap, op: &str, path: &Pointer) -> Option<()> {
    put_part(alloc, map, "op", text_node(alloc, op))?;
    put_part(alloc, map, "path", pointer_node(alloc, path))
}

fn put_valued(
    alloc: Global,
    map: &mut NodeMap,
    op: &str,
    path: &Pointer,
    value: &Node,
) -> Option<()> {
    put_place(alloc, map, op, path)?;
    put_part(alloc, map, "value", copy_doc(alloc, value).ok())
}

fn put_sourced(
    alloc: Global,
    map: &mut NodeMap,
    op: &str,
    from: &Pointer,
    path: &Pointer,
) -> Option<()> {
    put_place(alloc, map, op, path)?;
    put_part(alloc, map, "from", pointer_node(alloc, from))
}

fn put_op(alloc: Global, map: &mut NodeMap, op: &Op) -> Option<()> {
    match op {
        Op::Add { path, value } => put_valued(alloc, map, "add", path, value),
        Op::Remove { path } => put_place(alloc, map, "remove", path),
        Op::Replace { path, value } => put_valued(alloc, map, "replace", path, value),
        Op::Move { from, path } => put_sourced(alloc, map, "move", from, path),
        Op::Copy { from, path } => put_sourced(alloc, map, "copy", from, path),
        Op::Test { path, value } => put_valued(alloc, map, "test", path, value),
    }
}

fn op_node(alloc: Global, op: &Op) -> Option<Node> {
    let mut map = NodeMap::new(alloc);
    let done = put_op(alloc, &mut map, op);
    map_node(map, done)
}

fn ops_node(alloc: Global, ops: OpList) -> Option<Node> {
    let mut list = NodeList::new(alloc);
    for op in ops.as_slice() {
        list.push(op_node(alloc, op)?).ok()?;
    }
    Some(Node::Items(list))
}

/// The operations that `operations` is of, or the number of its first item that is none.
pub fn read_ops_call(alloc: Global, args: Args<'_>) -> Option<Node> {
    match read_ops(alloc, args.document("operations")?) {
        Ok(ops) => ops_node(alloc, ops),
        Err(OpsRead::Form(k)) => member_node(alloc, "form", number_node(k)),
        Err(OpsRead::NoMemory) => None,
    }
}

/// How many operations `operations` is of.
pub fn ops_count_call(given: &Given) -> Option<Node> {
    match &given.operations {
        Some(ops) => Some(count_node(ops.len())),
        None => None,
    }
}

// The document of a row, and its one operation.
fn patched(alloc: Global, args: Args<'_>, given: &Given) -> Option<Result<Doc, ApplyFault>> {
    match (given_doc(alloc, args), one_op(given)) {
        (Some(doc), Some(op)) => Some(apply(alloc, doc, op)),
        _ => None,
    }
}

fn given_doc(alloc: Global, args: Args<'_>) -> Option<Doc> {
    match copy_doc(alloc, args.document("document")?) {
        Ok(node) => Doc::new(node).ok(),
        Err(_) => None,
    }
}

fn one_op(given: &Given) -> Option<&Op> {
    let ops = given.operations.as_ref()?;
    if ops.len() == 1 { ops.get(0) } else { None }
}

/// The name of a cause.
pub fn cause_word(why: PatchFault) -> &'static str {
    match why {
        PatchFault::NoPlace => "NO_PLACE",
        PatchFault::BadIndex => "BAD_INDEX",
        PatchFault::TestFailed => "TEST_FAILED",
        PatchFault::IntoItself => "INTO_ITSELF",
        PatchFault::TooDeep => "TOO_DEEP",
    }
}

// The cause, where the document that is handed back is the one given.
fn refused_node(alloc: Global, args: Args<'_>, doc: Doc, why: PatchFault) -> Option<Node> {
    match args.document("document") {
        Some(given) if is_same_doc(doc.node(), given) => fault_node(alloc, cause_word(why)),
        _ => None,
    }
}

/// What the one operation of `operations` makes of `document`, or why it is refused.
pub fn apply_call(alloc: Global, args: Args<'_>, given: &Given) -> Option<Node> {
    match patched(alloc, args, given) {
        Some(Ok(doc)) => Some(doc.into_node()),
        Some(Err(ApplyFault::Refused { doc, why })) => refused_node(alloc, args, doc, why),
        _ => None,
    }
}

fn depth_node(doc: Doc) -> Option<Node> {
    Some(number_node(depth(doc.node())))
}

/// How deep that nests which the one operation of `operations` makes of `document`.
pub fn apply_depth_call(alloc: Global, args: Args<'_>, given: &Given) -> Option<Node> {
    match patched(alloc, args, given) {
        Some(Ok(doc)) => depth_node(doc),
        _ => None,
    }
}
