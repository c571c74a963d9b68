// How deep the values of a block's items nest, where each hole counts as 0.
ghost use Rattle.std.specs.Prelude.{◌≡◌, ◌+◌, ◌^◌, ◌-◌, min, nat_lt, codes};
ghost use Rattle.spec_documents.specs.Tree.{trees, items, members};
ghost use Rattle.spec_documents.specs.Hole.{has_mark};
ghost use Rattle.spec_messages.specs.Block as spec;
ghost use Rattle.spec_messages.specs.Fault.{items_depth, member_or_null};
ghost use Rattle.n32_values.specs.View.{tree_of};
ghost use Rattle.block_forms.specs.Paths.{paths_of};

use json_ptr::Pointer;
use n32_values::{List, Node, NodeList, NodeMap};

fn is_marked(map: &NodeMap) -> bool
    ensures { result ≡ has_mark map.now }
{
    map.get("encBlockIndex").is_some()
}

// How deep a node nests, where each object with a member `encBlockIndex` counts as 0. A depth that a
// `u32` doesn't hold is the greatest that it does.
#[cycle(open_depth)]
fn open_depth(node: &Node) -> u32
    ensures { result ≡ min (spec.open_depth (tree_of node.now)) (2 ^ 32 - 1) }
{
    match node {
        Node::Items(list) => deepest_item(list).saturating_add(1),
        Node::Members(map) => if is_marked(map) {
            0
        } else {
            deepest_member(map).saturating_add(1)
        },
        _ => 0,
    }
}

#[cycle(open_depth)]
fn deepest_item(list: &NodeList) -> u32
    ensures { result ≡ min (spec.items_open_depth (trees list.now)) (2 ^ 32 - 1) }
{
    let mut deepest = 0;
    for i in 0..list.len() {
        deepest = open_depth(list.item(i)).max(deepest);
    }
    deepest
}

#[cycle(open_depth)]
fn deepest_member(map: &NodeMap) -> u32
    ensures { result ≡ min (spec.members_open_depth map.now) (2 ^ 32 - 1) }
{
    let mut deepest = 0;
    for i in 0..map.len() {
        let (_, node) = map.entry(i);
        deepest = open_depth(node).max(deepest);
    }
    deepest
}

fn value_depth(item: &Node) -> u32
    ensures { result ≡ min (spec.open_depth (member_or_null (codes "value") (spec.members_of (tree_of item.now)))) (2 ^ 32 - 1) }
{
    let Node::Members(map) = item else {
        return 0;
    };
    match map.get("value") {
        Some(value) => open_depth(value),
        None => 0,
    }
}

// Whether the values at these paths nest more than 64 deep.
pub(crate) fn is_deep(paths: &List<Pointer>, list: &NodeList) -> bool
    requires { paths.now ≡ paths_of list.now }
    ensures { result ≡ nat_lt 64 (items_depth list.now) }
{
    for i in 0..list.len() {
        let depth = u64::from(value_depth(list.item(i)));
        if 64 < depth.saturating_add(paths.item(i).len() as u64) {
            return true;
        }
    }
    false
}
