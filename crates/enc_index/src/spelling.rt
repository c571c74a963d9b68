ghost use Rattle.std.specs.Prelude.{◌≡◌};
ghost use Rattle.spec_documents.specs.Hole.{has_hole_spelling as is_hole_spelled, items_have_spelling, members_have_spelling, is_marked, has_mark, hole_opening};
ghost use Rattle.spec_documents.specs.Text.{contains_text};
ghost use Rattle.spec_documents.specs.Tree.{trees};
ghost use Rattle.n32_values.specs.View.{tree_of};

use n32_values::{Node, NodeList, NodeMap};

/// Whether a node is or holds an object with a member `encBlockIndex`, or a text with `{encBlockIndex=` in it.
/// The names of members aren't looked at.
#[cycle(spelling)]
pub fn has_hole_spelling(node: &Node) -> bool
    ensures { result ≡ is_hole_spelled (tree_of node.now) }
{
    match node {
        Node::Words(text) => has_opening(text.as_str()),
        Node::Items(list) => items_have(list),
        Node::Members(map) => is_marked_map(map) || members_have(map),
        _ => false,
    }
}

#[cycle(spelling)]
fn items_have(list: &NodeList) -> bool
    ensures { result ≡ items_have_spelling (trees list.now) }
{
    for i in 0..list.len() {
        if has_hole_spelling(list.item(i)) {
            return true;
        }
    }
    false
}

#[cycle(spelling)]
fn members_have(map: &NodeMap) -> bool
    ensures { result ≡ members_have_spelling map.now }
{
    for i in 0..map.len() {
        let (_, node) = map.entry(i);
        if has_hole_spelling(node) {
            return true;
        }
    }
    false
}

fn has_opening(text: &str) -> bool
    ensures { result ≡ contains_text hole_opening text.now }
{
    text.contains("{encBlockIndex=")
}

// Whether an object has a member `encBlockIndex`.
pub(crate) fn is_marked_map(map: &NodeMap) -> bool
    ensures { result ≡ has_mark map.now }
{
    map.get("encBlockIndex").is_some()
}

pub(crate) fn is_marked_node(node: &Node) -> bool
    ensures { result ≡ is_marked (tree_of node.now) }
{
    match node {
        Node::Members(map) => is_marked_map(map),
        _ => false,
    }
}
