// The headers and the items of a block: each has exactly its members.
ghost use Rattle.std.specs.Prelude.{◌≡◌, option_map};
ghost use Rattle.std.specs.List.{list_all};
ghost use Rattle.n32_values.specs.View.{tree_of};
ghost use Rattle.spec_messages.specs.Fault as spec;

use crate::exact::{three_members, two_members};
use doc_forms::{is_header_name, is_header_value};
use n32_values::{Node, NodeList};

// A header's value is a text of its grammar, or an object with a member `encBlockIndex`.
fn is_value(node: &Node) -> bool
    ensures { result ≡ spec.is_value_node (tree_of node.now) }
{
    match node {
        Node::Words(text) => is_header_value(text.as_str()),
        Node::Members(map) => map.get("encBlockIndex").is_some(),
        _ => false,
    }
}

#[tactic(auto, using(crate::proofs::Exactly::exact_header))]
fn is_header(node: &Node) -> bool
    ensures { result ≡ spec.is_header_node (tree_of node.now) }
{
    let Node::Members(map) = node else {
        return false;
    };
    match two_members(map, "header", "value") {
        Some((Node::Words(name), value)) => is_header_name(name.as_str()) && is_value(value),
        _ => false,
    }
}

#[tactic(auto, using(crate::proofs::Exactly::exact_item))]
fn is_item(node: &Node) -> bool
    ensures { result ≡ spec.is_item_node (tree_of node.now) }
{
    let Node::Members(map) = node else {
        return false;
    };
    match three_members(map, "iePath", "ieValueLocation", "value") {
        Some((Node::Words(_), Node::Words(location), _)) => location.as_str() == "BODY",
        _ => false,
    }
}

fn all_headers(list: &NodeList) -> bool
    ensures { result ≡ list_all spec.is_header_node list.now }
{
    for i in 0..list.len() {
        if !is_header(list.item(i)) {
            return false;
        }
    }
    true
}

fn all_items(list: &NodeList) -> bool
    ensures { result ≡ list_all spec.is_item_node list.now }
{
    for i in 0..list.len() {
        if !is_item(list.item(i)) {
            return false;
        }
    }
    true
}

// Whether `headers` is absent, or a list of objects with a name and a value.
#[tactic(auto, using(spec_documents::proofs::FieldLemmas::views))]
pub(crate) fn are_headers(node: Option<&Node>) -> bool
    ensures { result ≡ spec.is_list_of spec.is_header_node (option_map (λ n. tree_of n.now) node.entry) }
{
    match node {
        None => true,
        Some(Node::Items(list)) => all_headers(list),
        Some(_) => false,
    }
}

// Whether `payload` is absent, or a list of objects with a path, the location `BODY` and a value.
#[tactic(auto, using(spec_documents::proofs::FieldLemmas::views))]
pub(crate) fn are_items(node: Option<&Node>) -> bool
    ensures { result ≡ spec.is_list_of spec.is_item_node (option_map (λ n. tree_of n.now) node.entry) }
{
    match node {
        None => true,
        Some(Node::Items(list)) => all_items(list),
        Some(_) => false,
    }
}
