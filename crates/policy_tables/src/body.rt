// Whether a secret node of a body stands at, above or beneath a pointer.
ghost use Rattle.std.specs.Prelude.{◌≡◌, ◌||◌, ◌&&◌, map, filter, is_ok};
ghost use Rattle.std.specs.List.{list_any};
ghost use Rattle.spec_documents.specs.Hole.{is_marked as has_mark, has_marked, items_have_marked, members_have_marked};
ghost use Rattle.spec_documents.specs.Place.{at};
ghost use Rattle.spec_documents.specs.Tree.{trees};
ghost use Rattle.spec_messages.specs.Policy as spec;
ghost use Rattle.http_message.specs.Reading.{kind_view};
ghost use Rattle.n32_values.specs.View.{tree_of};
ghost use Rattle.policy_documents.specs.View.{element_view};
ghost use Rattle.policy_tables.specs.Secrecy as secrecy;

use crate::mapping::mapping_at;
use http_message::Kind;
use json_ptr::{Pointer, find, is_prefix, step};
use n32_values::{Node, NodeList, NodeMap};
use policy_documents::{Element, ElementList, Policy, Target};

/// Whether a node is an object with a member `encBlockIndex`.
pub(crate) fn is_marked(node: &Node) -> bool
    ensures { result ≡ has_mark (tree_of node.now) }
{
    match node {
        Node::Members(map) => map.get("encBlockIndex").is_some(),
        _ => false,
    }
}

// Whether such an object stands at or beneath the node.
#[cycle(marks)]
fn holds_mark(node: &Node) -> bool
    ensures { result ≡ has_marked (tree_of node.now) }
{
    match node {
        Node::Items(list) => items_hold(list),
        Node::Members(map) => is_marked(node) || members_hold(map),
        _ => false,
    }
}

#[cycle(marks)]
fn items_hold(list: &NodeList) -> bool
    ensures { result ≡ items_have_marked (trees list.now) }
{
    for i in 0..list.len() {
        if holds_mark(list.item(i)) {
            return true;
        }
    }
    false
}

#[cycle(marks)]
fn members_hold(map: &NodeMap) -> bool
    ensures { result ≡ members_have_marked map.now }
{
    for i in 0..map.len() {
        let (_, node) = map.entry(i);
        if holds_mark(node) {
            return true;
        }
    }
    false
}

fn meets_mark(body: &Node, pointer: &Pointer) -> bool
    ensures { result ≡ secrecy.meets_mark pointer.now (tree_of body.now) }
{
    let mut place = body;
    for i in 0..pointer.len() {
        if is_marked(place) {
            return true;
        }
        match step(place, pointer.token(i).as_str()) {
            Ok(child) => place = child,
            Err(_) => return false,
        }
    }
    holds_mark(place)
}

fn is_there(body: &Node, pointer: &Pointer) -> bool
    ensures { result ≡ is_ok (at (tree_of body.now) pointer.now) }
{
    match find(body, pointer) {
        Ok(_) => true,
        Err(_) => false,
    }
}

fn is_near(one: &Pointer, other: &Pointer) -> bool
    ensures { result ≡ secrecy.nears one.now other.now }
{
    is_prefix(one, other) || is_prefix(other, one)
}

fn reaches(body: &Node, pointer: &Pointer, own: &Option<Pointer>) -> bool
    ensures { result ≡ secrecy.reaches (tree_of body.now) pointer.now own.now }
{
    match own {
        Some(own) => is_near(own, pointer) && is_there(body, own),
        None => false,
    }
}

// Whether a node that the element covers stands at, above or beneath the pointer.
#[tactic(auto, using(crate::proofs::CoverLemmas::kept_pointer))]
fn is_reached(kind: Kind, body: &Node, pointer: &Pointer, element: &Element) -> bool
    ensures { result ≡ secrecy.reached (kind_view kind) (tree_of body.now) pointer.now (element_view element.now) }
{
    match &element.target {
        Target::Body(pointers) => match kind {
            Kind::Request => reaches(body, pointer, &pointers.request),
            Kind::Response => reaches(body, pointer, &pointers.response),
        },
        Target::UriParam(_) => false,
        Target::Header(_) => false,
        Target::MultipartBinary(_) => false,
    }
}

fn counts(policy: &Policy, kind: Kind, body: &Node, pointer: &Pointer, element: &Element) -> bool
    ensures { result ≡ (spec.is_sensitive policy.now (element_view element.now) && secrecy.reached (kind_view kind) (tree_of body.now) pointer.now (element_view element.now)) }
{
    policy.is_sensitive(element) && is_reached(kind, body, pointer, element)
}

fn any_reached(
    policy: &Policy,
    elements: &ElementList,
    kind: Kind,
    body: &Node,
    pointer: &Pointer,
) -> bool
    ensures { result ≡ list_any (secrecy.reached (kind_view kind) (tree_of body.now) pointer.now) (filter (spec.is_sensitive policy.now) (map element_view elements.now)) }
{
    for i in 0..elements.len() {
        if counts(policy, kind, body, pointer, elements.item(i)) {
            return true;
        }
    }
    false
}

fn is_covered_near(
    policy: &Policy,
    mapping: Option<u32>,
    kind: Kind,
    body: &Node,
    pointer: &Pointer,
) -> bool
    ensures { result ≡ list_any (secrecy.reached (kind_view kind) (tree_of body.now) pointer.now) (spec.sensitive policy.now mapping) }
{
    match mapping_at(policy, mapping) {
        Some(mapping) => any_reached(policy, &mapping.elements, kind, body, pointer),
        None => false,
    }
}

/// Whether a secret node stands at, above or beneath a pointer: one pass over the mapping's elements,
/// each looked up in the body, and one over the path to the pointer and what stands there.
pub(crate) fn is_body_secret(
    policy: &Policy,
    mapping: Option<u32>,
    kind: Kind,
    body: &Node,
    pointer: &Pointer,
) -> bool
    ensures { result ≡ secrecy.secret_node policy.now mapping (kind_view kind) pointer.now (tree_of body.now) }
{
    is_covered_near(policy, mapping, kind, body, pointer) || meets_mark(body, pointer)
}
