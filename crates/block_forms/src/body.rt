// The body of a block's message: the values of its items at their paths.
ghost use Rattle.std.specs.Prelude.{◌≡◌, ◌≤◌, IfOk, OnOk, drop, codes};
ghost use Rattle.spec_documents.specs.Tree.{null, members, no_members, get_member, put_member};
ghost use Rattle.spec_messages.specs.Block as spec;
ghost use Rattle.n32_values.specs.View.{tree_of};
ghost use Rattle.spec_messages.specs.Message.{body_depth};
ghost use Rattle.spec_messages.specs.Fault.{member_or_null};
ghost use Rattle.block_forms.specs.Kept.{items_with, payload_of};
ghost use Rattle.block_forms.specs.Paths.{paths_of};

use crate::parts::list_at;
use doc_forms::{lifted, members_in};
use json_ptr::Pointer;
use n32_values::{Doc, List, NoMemory, Node, NodeList, NodeMap, Text, copy_doc};
use std::alloc::Global;

fn empty_object(alloc: Global) -> Node
    ensures { tree_of result ≡ members no_members }
{
    Node::Members(NodeMap::new(alloc))
}

// The node with a value at the tokens of a path from one place on, through objects that are made where
// they are missing.
#[cycle(graft)]
fn grafted(
    alloc: Global,
    node: Node,
    path: &Pointer,
    from: usize,
    value: Node,
) -> Result<Node, NoMemory>
    ensures { IfOk result (λ n. tree_of n ≡ spec.grafted (drop from path.now) (tree_of value) (tree_of node)) }
{
    if path.len() <= from {
        return Ok(value);
    }
    let name = path.token(from);
    let mut map = members_in(alloc, node);
    let member = lifted(alloc, &mut map, name)?;
    let grown = grafted(alloc, member, path, from + 1, value)?;
    map.put(name.copy(alloc)?, grown)?;
    Ok(Node::Members(map))
}

// A copy of an item's value.
fn value_copy(alloc: Global, item: &Node) -> Result<Node, NoMemory>
    ensures { IfOk result (λ n. tree_of n ≡ member_or_null (codes "value") (spec.members_of (tree_of item.now))) }
{
    let Node::Members(map) = item else {
        return Ok(Node::Null);
    };
    match map.get("value") {
        Some(value) => copy_doc(alloc, value),
        None => Ok(Node::Null),
    }
}

// The object with the value of each item at its path.
fn all_grafted(alloc: Global, paths: &List<Pointer>, items: &NodeList) -> Result<Node, NoMemory>
    requires { paths.now ≡ paths_of items.now }
    ensures { IfOk result (λ n. tree_of n ≡ spec.all_grafted (items_with paths.now items.now) (members no_members)) }
{
    let mut node = empty_object(alloc);
    for i in 0..items.len() {
        let value = value_copy(alloc, items.item(i))?;
        let grown = grafted(alloc, node, paths.item(i), 0, value)?;
        node = grown;
    }
    Ok(node)
}

/// The body of the message that a block stands for, whose items have these paths.
pub(crate) fn clear_body(
    alloc: Global,
    doc: &Doc,
    paths: &List<Pointer>,
) -> Result<Option<Doc>, NoMemory>
    requires paths { paths.now ≡ paths_of (payload_of doc.now) }
    requires low { body_depth (spec.body_of (items_with paths.now (payload_of doc.now))) ≤ 65 }
    ensures { IfOk result (λ b. b ≡ spec.body_of (items_with paths.now (payload_of doc.now))) }
{
    let Some(items) = list_at(doc.node(), "payload") else {
        return Ok(None);
    };
    if items.len() == 0 {
        return Ok(None);
    }
    let node = all_grafted(alloc, paths, items)?;
    Ok(Some(Doc::from_shallow(node)))
}
