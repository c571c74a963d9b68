// A copy of a tree with its holes filled.
ghost use Rattle.std.specs.Prelude.{◌≡◌, ◌<◌, ◌^◌, IfOk, length};
ghost use Rattle.spec_documents.specs.Hole.{fill, fill_items, fill_members, value_at};
ghost use Rattle.spec_documents.specs.Tree.{trees};
ghost use Rattle.n32_values.specs.View.{tree_of};

use doc_forms::hole_index;
use n32_values::{NoMemory, Node, NodeList, NodeMap, copy_doc};
use std::alloc::Global;

// A copy of the value with this index, or a null where there is none.

fn value_copy(alloc: Global, values: &NodeList, index: u32) -> Result<Node, NoMemory>
    ensures { IfOk result (λ n. tree_of n ≡ value_at values.now index) }
{
    match values.get(index as usize) {
        Some(value) => copy_doc(alloc, value),
        None => Ok(Node::Null),
    }
}

#[cycle(filled)]
pub(crate) fn filled_node(alloc: Global, values: &NodeList, node: &Node) -> Result<Node, NoMemory>
    requires { length values.now < 2 ^ 32 }
    ensures { IfOk result (λ n. tree_of n ≡ fill values.now (tree_of node.now)) }
{
    match node {
        Node::Items(list) => Ok(Node::Items(filled_list(alloc, values, list)?)),
        Node::Members(map) => match hole_index(node) {
            Some(index) => value_copy(alloc, values, index),
            None => Ok(Node::Members(filled_map(alloc, values, map)?)),
        },
        _ => copy_doc(alloc, node),
    }
}

#[cycle(filled)]
fn filled_list(alloc: Global, values: &NodeList, list: &NodeList) -> Result<NodeList, NoMemory>
    requires { length values.now < 2 ^ 32 }
    ensures { IfOk result (λ l. trees l ≡ fill_items values.now (trees list.now)) }
{
    let mut filled = NodeList::with_capacity(alloc, list.len())?;
    for i in 0..list.len() {
        filled.push(filled_node(alloc, values, list.item(i))?)?;
    }
    Ok(filled)
}

#[cycle(filled)]
fn filled_map(alloc: Global, values: &NodeList, map: &NodeMap) -> Result<NodeMap, NoMemory>
    requires { length values.now < 2 ^ 32 }
    ensures { IfOk result (λ m. m ≡ fill_members values.now map.now) }
{
    let mut filled = NodeMap::with_capacity(alloc, map.len())?;
    for i in 0..map.len() {
        let (name, node) = map.entry(i);
        let node = filled_node(alloc, values, node)?;
        filled.push_last(name.copy(alloc)?, node)?;
    }
    Ok(filled)
}
