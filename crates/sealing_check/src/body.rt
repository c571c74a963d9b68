// The first secret node of a body that stands in clear: one walk over the filled body and the body with
// holes, side by side.
ghost use Rattle.std.specs.Prelude.{◌≡◌, ◌++◌, ◌∷◌, [], IfOk, OnOk, option_map};
ghost use Rattle.spec_documents.specs.Tree.{trees};
ghost use Rattle.n32_values.specs.View.{tree_of};
ghost use Rattle.policy_tables.specs.Covered.{Leads};
ghost use Rattle.sealing_check.specs.Rules.{node_test};
ghost use Rattle.sealing_check.specs.Found.{child_of, is_marked_there, clear_at, clear_items, clear_members};

use doc_forms::number_text;
use json_ptr::{Pointer, step};
use n32_values::{NoMemory, Node, NodeList, NodeMap, Text};
use policy_tables::{Covering, Rules};
use std::alloc::Global;

/// The filled body, and the rules.
#[derive(Clone, Copy, Drop)]
pub(crate) struct Body<'a> {
    pub(crate) rules: &'a Rules<'a>,
    pub(crate) root: &'a Node,
}

fn is_secret(body: &Body<'_>, covering: Covering<'_>, pointer: &Pointer, node: &Node) -> bool
    requires { Leads body.now.rules.now pointer.now covering }
    ensures { result ≡ node_test body.now pointer.now (tree_of node.now) }
{
    body.rules
        .is_secret_node(covering, body.root, pointer, node)
}

// Whether the body with holes has a hole there.
fn is_hole(node: Option<&Node>) -> bool
    ensures { result ≡ is_marked_there (option_map (λ n. tree_of n.now) node.entry) }
{
    match node {
        Some(Node::Members(map)) => map.get("encBlockIndex").is_some(),
        _ => false,
    }
}

fn child<'a>(node: Option<&'a Node>, token: &str) -> Option<&'a Node>
    ensures { option_map (λ n. tree_of n.now) result ≡ child_of token.now (option_map (λ n. tree_of n.now) node.entry) }
{
    match node {
        Some(node) => match step(node, token) {
            Ok(child) => Some(child),
            Err(_) => None,
        },
        None => None,
    }
}

fn push_name(alloc: Global, pointer: &mut Pointer, name: &str) -> Result<(), NoMemory>
    ensures { OnOk result (pointer.new ≡ pointer.old ++ name.now ∷ []) }
{
    pointer.push(Text::from_text(alloc, name)?)
}

/// The place of the first node in clear at or beneath a pointer, which is as before. `holed` is what the
/// body with holes has there. At a hole all is hidden, and nothing beneath it is looked at.
#[tactic(auto, using(crate::proofs::Walk::found_none, crate::proofs::Walk::found_here, crate::proofs::Walk::found_beneath))]
#[cycle(walk)]
pub(crate) fn clear_node(
    alloc: Global,
    body: &Body<'_>,
    covering: Covering<'_>,
    holed: Option<&Node>,
    node: &Node,
    pointer: &mut Pointer,
) -> Result<Option<Pointer>, NoMemory>
    requires { Leads body.now.rules.now pointer.old covering }
    ensures place { IfOk result (λ p. p ≡ clear_at (node_test body.now) (option_map (λ n. tree_of n.now) holed.entry) pointer.old (tree_of node.now)) }
    ensures pointer { OnOk result (pointer.new ≡ pointer.old) }
{
    if is_hole(holed) {
        return Ok(None);
    }
    if is_secret(body, covering, pointer, node) {
        return Ok(Some(pointer.copy(alloc)?));
    }
    match node {
        Node::Items(list) => clear_item(alloc, body, covering, holed, list, pointer),
        Node::Members(map) => clear_member(alloc, body, covering, holed, map, pointer),
        _ => Ok(None),
    }
}

#[cycle(walk)]
fn clear_item(
    alloc: Global,
    body: &Body<'_>,
    covering: Covering<'_>,
    holed: Option<&Node>,
    list: &NodeList,
    pointer: &mut Pointer,
) -> Result<Option<Pointer>, NoMemory>
    requires { Leads body.now.rules.now pointer.old covering }
    ensures place { IfOk result (λ p. p ≡ clear_items (node_test body.now) (option_map (λ n. tree_of n.now) holed.entry) pointer.old 0 (trees list.now)) }
    ensures pointer { OnOk result (pointer.new ≡ pointer.old) }
{
    let depth = pointer.len();
    for i in 0..list.len() {
        let index = number_text(alloc, i as u64)?;
        let token = index.as_str();
        let inner = covering.enter(token);
        push_name(alloc, pointer, token)?;
        let beside = child(holed, token);
        let found = clear_node(alloc, body, inner, beside, list.item(i), pointer)?;
        pointer.truncate(depth);
        if let Some(place) = found {
            return Ok(Some(place));
        }
    }
    Ok(None)
}

#[cycle(walk)]
fn clear_member(
    alloc: Global,
    body: &Body<'_>,
    covering: Covering<'_>,
    holed: Option<&Node>,
    map: &NodeMap,
    pointer: &mut Pointer,
) -> Result<Option<Pointer>, NoMemory>
    requires { Leads body.now.rules.now pointer.old covering }
    ensures place { IfOk result (λ p. p ≡ clear_members (node_test body.now) (option_map (λ n. tree_of n.now) holed.entry) pointer.old map.now) }
    ensures pointer { OnOk result (pointer.new ≡ pointer.old) }
{
    let depth = pointer.len();
    for i in 0..map.len() {
        let (name, node) = map.entry(i);
        let token = name.as_str();
        let inner = covering.enter(token);
        push_name(alloc, pointer, token)?;
        let beside = child(holed, token);
        let found = clear_node(alloc, body, inner, beside, node, pointer)?;
        pointer.truncate(depth);
        if let Some(place) = found {
            return Ok(Some(place));
        }
    }
    Ok(None)
}
