// Objects that are taken apart and put together again.
ghost use Rattle.std.specs.Prelude.{◌≡◌, IfOk, OnOk};
ghost use Rattle.spec_documents.specs.Tree.{get_member, null, put_member};
ghost use Rattle.spec_messages.specs.Block as spec;
ghost use Rattle.n32_values.specs.View.{tree_of};

use n32_values::{NoMemory, Node, NodeMap, Text};
use std::alloc::Global;

/// The members of an object, and none of another node.
pub fn members_in(alloc: Global, node: Node) -> NodeMap
    ensures { result ≡ spec.members_of (tree_of node) }
{
    match node {
        Node::Members(map) => map,
        _ => NodeMap::new(alloc),
    }
}

/// Takes a member out, and leaves a null in its place. Where there is none an empty object is given.
pub fn lifted(alloc: Global, map: &mut NodeMap, name: &Text) -> Result<Node, NoMemory>
    ensures node { IfOk result (λ n. tree_of n ≡ spec.or_empty_object (get_member name.now map.old)) }
    ensures map { OnOk result (map.new ≡ put_member name.now null map.old) }
{
    match map.put(name.copy(alloc)?, Node::Null)? {
        Some(node) => Ok(node),
        None => Ok(Node::Members(NodeMap::new(alloc))),
    }
}
