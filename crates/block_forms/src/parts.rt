// The members of a block.
ghost use Rattle.std.specs.Prelude.{◌≡◌, MatchResult, None, [], codes};
ghost use Rattle.std.specs.Option.{option_copied, option_map_or};
ghost use Rattle.spec_documents.specs.Tree.{get_member, members};
ghost use Rattle.spec_messages.specs.Block.{members_of};
ghost use Rattle.spec_messages.specs.Fault as spec;
ghost use Rattle.n32_values.specs.View.{tree_of};
ghost use Rattle.block_forms.specs.Kept.{ReadsHead, RefusesMembers};
ghost use Rattle.block_forms.specs.Parts.{lists_fault, members_fault};

use crate::line::read_line;
use crate::lists::{are_headers, are_items};
use crate::meta::has_meta;
use http_message::Head;
use n32_values::{Node, NodeList, NodeMap};
use std::alloc::Global;

/// Why the members of a document aren't those of a block.
#[derive(Clone, Copy, Drop)]
pub(crate) enum MembersRead<'a> {
    // The first member, by its name, that isn't right.
    Member(&'a str),
    NoMemory,
}

fn is_known(name: &str) -> bool
    ensures { result ≡ spec.is_known name.now }
{
    name == "headers"
        || name == "metaData"
        || name == "payload"
        || name == "requestLine"
        || name == "statusLine"
}

// The first name, in byte order, of a member that no block has.
fn first_unknown(map: &NodeMap) -> Option<&str>
    ensures { option_copied result ≡ spec.first_unknown map.now }
{
    for i in 0..map.len() {
        let (name, _) = map.entry(i);
        let name = name.as_str();
        if !is_known(name) {
            return Some(name);
        }
    }
    None
}

// The name of the list that isn't right: `headers` or `payload`.
fn lists_fault(map: &NodeMap) -> Option<&'static str>
    ensures { option_copied result ≡ lists_fault map.now }
{
    if !are_headers(map.get("headers")) {
        Some("headers")
    } else if !are_items(map.get("payload")) {
        Some("payload")
    } else {
        None
    }
}

// The line of an object whose members beside `metaData` are right.
fn read_beside_meta(alloc: Global, map: &NodeMap) -> Result<Head, MembersRead<'_>>
    ensures { MatchResult result
        (λ head. (members_fault map.now ≡ None) × ReadsHead head (members map.now))
        (λ why. RefusesMembers why (members_fault map.now)) }
{
    if let Some(name) = first_unknown(map) {
        return Err(MembersRead::Member(name));
    }
    let head = read_line(alloc, map)?;
    match lists_fault(map) {
        Some(name) => Err(MembersRead::Member(name)),
        None => Ok(head),
    }
}

/// The line of a node whose members are those of a block.
pub(crate) fn read_members(alloc: Global, node: &Node) -> Result<Head, MembersRead<'_>>
    ensures { MatchResult result
        (λ head. (spec.member_fault (tree_of node.now) ≡ None) × ReadsHead head (tree_of node.now))
        (λ why. RefusesMembers why (spec.member_fault (tree_of node.now))) }
{
    match node {
        Node::Members(map) if has_meta(node) => read_beside_meta(alloc, map),
        _ => Err(MembersRead::Member("metaData")),
    }
}

// The list at a name, if there is one.
#[tactic(auto, using(spec_documents::proofs::FieldLemmas::views))]
pub(crate) fn list_at<'a>(node: &'a Node, name: &str) -> Option<&'a NodeList>
    ensures { option_map_or (λ l. l.now) result [] ≡ spec.list_of (get_member name.now (members_of (tree_of node.now))) }
{
    let Node::Members(map) = node else {
        return None;
    };
    match map.get(name) {
        Some(Node::Items(list)) => Some(list),
        _ => None,
    }
}
