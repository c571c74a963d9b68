// A policy as it is asked about one message, with its sensitive body elements by location.
ghost use Rattle.std.specs.Prelude.{◌≡◌, Some, IfOk, option_map, map, filter, drop, if◌then◌else◌};
ghost use Rattle.spec_documents.specs.Tree.{members, no_members, get_member};
ghost use Rattle.spec_messages.specs.Block.{members_of};
ghost use Rattle.spec_messages.specs.Policy as spec;
ghost use Rattle.http_message.specs.Reading.{header_view, kind_view, pair_view, part_view};
ghost use Rattle.n32_values.specs.View.{tree_of};
ghost use Rattle.policy_documents.specs.View.{element_view, mapping_view};
ghost use Rattle.policy_tables.specs.Covered.{Leads, asked, body_pointer, covering_view, entered, is_end, is_end_there, sensitive_tree, with_elements, with_pointer, with_pointer_if};

use crate::body::is_marked;
use crate::mapping::mapping_at;
use crate::secret::{is_secret_header, is_secret_pair, is_secret_segment};
use doc_forms::{lifted, members_in};
use http_message::{Header, Kind, Pair, Part};
use json_ptr::Pointer;
use n32_values::{NoMemory, Node, NodeMap, Text};
use policy_documents::{Element, ElementList, Mapping, Policy, Target};
use std::alloc::Global;
use std::marker::Model;

/// A policy as it is asked about the parts of a message: the mapping that applies, by its number, and the
/// kind of the message. The pointers of the sensitive elements are kept as a tree of their tokens, so
/// that a walk over a body takes along those that go on beneath it.
#[derive(Drop)]
pub struct Rules<'a> {
    policy: &'a Policy,
    mapping: Option<u32>,
    kind: Kind,
    sensitive: Node,
}

impl<'a> Model for Rules<'a> {
    ghost use Rattle.std.specs.Prelude.{◌≡◌};
    ghost use Rattle.http_message.specs.Reading.{kind_view};
    ghost use Rattle.n32_values.specs.View.{tree_of};
    ghost use Rattle.policy_tables.specs.Covered.{Asked, asked, sensitive_tree};

    ghost Value = { Asked };

    ghost view = { λ r. asked r.policy.now r.mapping (kind_view r.kind) };

    ghost invariant = { λ r. tree_of r.sensitive ≡ sensitive_tree (asked r.policy.now r.mapping (kind_view r.kind)) };
}

/// The sensitive elements that go on at and beneath a node of the body.
#[derive(Clone, Copy, Drop)]
pub struct Covering<'a> {
    below: Option<&'a Node>,
}

impl<'a> Covering<'a> {
    /// Those that go on beneath the member or item of this token.
    pub fn enter(self, token: &str) -> Covering<'a>
        ensures { covering_view result ≡ entered token.now (covering_view self.entry) }
    {
        Covering {
            below: next(self.below, token),
        }
    }

    // Whether the pointer of one ends at or above the node.
    fn is_covered(self) -> bool
        ensures { result ≡ is_end_there (covering_view self.entry) }
    {
        match self.below {
            Some(node) => is_end(node),
            None => false,
        }
    }
}

impl<'a> Rules<'a> {
    /// The rules for a message of this kind that falls under the mapping of that number.
    pub fn new(
        alloc: Global,
        policy: &'a Policy,
        mapping: Option<u32>,
        kind: Kind,
    ) -> Result<Rules<'a>, NoMemory>
        ensures { IfOk result (λ r. r ≡ asked policy.now mapping (kind_view kind)) }
    {
        let sensitive = match mapping_at(policy, mapping) {
            Some(mapping) => tree_of_elements(alloc, policy, &mapping.elements, kind)?,
            None => Node::Members(NodeMap::new(alloc)),
        };
        Ok(Rules {
            policy,
            mapping,
            kind,
            sensitive,
        })
    }

    /// The mapping that applies.
    pub fn mapping(&self) -> Option<&'a Mapping>
        ensures { option_map (λ g. mapping_view g.now) result ≡ spec.mapping_at self.now.policy self.now.mapping }
    {
        mapping_at(self.policy, self.mapping)
    }

    /// The sensitive elements of the whole body.
    pub fn covering(&self) -> Covering<'_>
        ensures { covering_view result ≡ Some (sensitive_tree self.now) }
    {
        Covering {
            below: Some(&self.sensitive),
        }
    }

    /// Whether segment `i` of the path is secret.
    pub fn is_secret_segment(&self, i: usize, part: &Part) -> bool
        ensures { result ≡ spec.is_secret_segment self.now.policy self.now.mapping self.now.kind i (part_view part.now) }
    {
        is_secret_segment(self.policy, self.mapping, self.kind, i, part)
    }

    /// Whether a pair of the query is secret.
    pub fn is_secret_pair(&self, pair: &Pair) -> bool
        ensures { result ≡ spec.is_secret_pair self.now.policy self.now.mapping self.now.kind (pair_view pair.now) }
    {
        is_secret_pair(self.policy, self.mapping, self.kind, pair)
    }

    /// Whether a header is secret.
    pub fn is_secret_header(&self, header: &Header) -> bool
        ensures { result ≡ spec.is_secret_header self.now.policy self.now.mapping self.now.kind (header_view header.now) }
    {
        is_secret_header(self.policy, self.mapping, self.kind, header)
    }

    /// Whether the node of a body at a pointer, to which the covering leads, is secret. No element is
    /// looked at.
    #[tactic(auto, using(crate::proofs::CoverTree::covered_there))]
    pub fn is_secret_node(
        &self,
        covering: Covering<'_>,
        _body: &Node,
        _pointer: &Pointer,
        node: &Node,
    ) -> bool
        requires { Leads self.now _pointer.now covering }
        ensures { result ≡ spec.is_secret_node self.now.policy self.now.mapping self.now.kind (tree_of _body.now) _pointer.now (tree_of node.now) }
    {
        covering.is_covered() || is_marked(node)
    }
}

// ---- the tree of pointers

fn is_end(node: &Node) -> bool
    ensures { result ≡ is_end (tree_of node.now) }
{
    match node {
        Node::Truth(end) => *end,
        _ => false,
    }
}

fn member_at<'a>(node: &'a Node, token: &str) -> Option<&'a Node>
    ensures { option_map (λ n. tree_of n.now) result ≡ get_member token.now (members_of (tree_of node.now)) }
{
    match node {
        Node::Members(map) => map.get(token),
        _ => None,
    }
}

// What stands one token further. At and beneath the end of a pointer the end stands.
fn next<'a>(below: Option<&'a Node>, token: &str) -> Option<&'a Node>
    ensures { option_map (λ n. tree_of n.now) result ≡ entered token.now (option_map (λ n. tree_of n.now) below.entry) }
{
    let node = below?;
    if is_end(node) {
        return Some(node);
    }
    member_at(node, token)
}

// The tree with one more pointer, from one of its tokens on.
#[cycle(grow)]
fn grown(alloc: Global, tree: Node, pointer: &Pointer, from: usize) -> Result<Node, NoMemory>
    ensures { IfOk result (λ n. tree_of n ≡ with_pointer (drop from pointer.now) (tree_of tree)) }
{
    if pointer.len() <= from {
        return Ok(Node::Truth(true));
    }
    let name = pointer.token(from);
    if is_end(&tree) {
        return Ok(tree);
    }
    let mut map = members_in(alloc, tree);
    let member = lifted(alloc, &mut map, name)?;
    let longer = grown(alloc, member, pointer, from + 1)?;
    map.put(name.copy(alloc)?, longer)?;
    Ok(Node::Members(map))
}

// The pointer of a body element that counts.
#[tactic(auto, using(crate::proofs::CoverLemmas::kept_pointer))]
fn body_pointer(kind: Kind, element: &Element) -> Option<&Pointer>
    ensures { option_map (λ p. p.now) result ≡ body_pointer (kind_view kind) (element_view element.now) }
{
    match &element.target {
        Target::Body(pointers) => match kind {
            Kind::Request => pointers.request.as_ref(),
            Kind::Response => pointers.response.as_ref(),
        },
        Target::UriParam(_) => None,
        Target::Header(_) => None,
        Target::MultipartBinary(_) => None,
    }
}

fn with_element(
    alloc: Global,
    policy: &Policy,
    element: &Element,
    kind: Kind,
    tree: Node,
) -> Result<Node, NoMemory>
    ensures { IfOk result (λ n. tree_of n ≡ (if spec.is_sensitive policy.now (element_view element.now) then with_pointer_if (body_pointer (kind_view kind) (element_view element.now)) (tree_of tree) else tree_of tree)) }
{
    if !policy.is_sensitive(element) {
        return Ok(tree);
    }
    match body_pointer(kind, element) {
        Some(pointer) => grown(alloc, tree, pointer, 0),
        None => Ok(tree),
    }
}

fn tree_of_elements(
    alloc: Global,
    policy: &Policy,
    elements: &ElementList,
    kind: Kind,
) -> Result<Node, NoMemory>
    ensures { IfOk result (λ n. tree_of n ≡ with_elements (kind_view kind) (filter (spec.is_sensitive policy.now) (map element_view elements.now)) (members no_members)) }
{
    let mut tree = Node::Members(NodeMap::new(alloc));
    for i in 0..elements.len() {
        let more = with_element(alloc, policy, elements.item(i), kind, tree)?;
        tree = more;
    }
    Ok(tree)
}
