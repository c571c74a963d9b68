// The items of a body, with a hole in the place of each outermost secret node: one walk that writes
// the items and the values together.
ghost use Rattle.std.specs.Prelude.{◌≡◌, ◌<◌, ◌≤◌, ◌-◌, ◌++◌, ◌∷◌, [], IfOk, OnOk, map as list_map, length, not, ◌&&◌, nat_lt};
ghost use Rattle.spec_documents.specs.Fields.{field_list};
ghost use Rattle.spec_documents.specs.Hole.{hole};
ghost use Rattle.spec_documents.specs.Place.{pointer_text as text_of};
ghost use Rattle.spec_documents.specs.Tree.{trees};
ghost use Rattle.spec_messages.specs.Block.{item_tree, leaves, members_leaves};
ghost use Rattle.spec_messages.specs.Policy.{outermost, outermost_items, outermost_members};
ghost use Rattle.spec_messages.specs.Split.{hide, hide_items, hide_members};
ghost use Rattle.n32_values.specs.View.{tree_of};
ghost use Rattle.policy_tables.specs.Covered.{Leads};
ghost use Rattle.reformat_blocks.specs.Rules.{node_test};
ghost use Rattle.reformat_blocks.specs.Sent.{item_trees, stood};

use crate::parts::next_index;
use doc_forms::{hole_node, number_text, put, put_text};
use json_ptr::{Pointer, pointer_text};
use n32_values::{NoMemory, Node, NodeList, NodeMap, Text, copy_doc};
use policy_tables::{Covering, Rules};
use std::alloc::Global;

/// The body that is walked, and what is asked about it.
#[derive(Clone, Copy, Drop)]
pub(crate) struct Body<'a> {
    pub(crate) rules: &'a Rules<'a>,
    pub(crate) root: &'a Node,
}

fn is_secret(body: &Body<'_>, covering: Covering<'_>, pointer: &Pointer, node: &Node) -> bool
    requires { Leads body.now.rules.now pointer.now covering }
    ensures { result ≡ node_test body.now pointer.now (tree_of node.now) }
{
    body.rules
        .is_secret_node(covering, body.root, pointer, node)
}

// The next hole, whose value is then the node.
fn hole_for(alloc: Global, node: &Node, values: &mut NodeList) -> Result<Node, NoMemory>
    ensures node { IfOk result (λ n. tree_of n ≡ hole (length values.old)) }
    ensures values { OnOk result (values.new ≡ values.old ++ tree_of node.now ∷ []) }
{
    let index = next_index(values)?;
    values.push(copy_doc(alloc, node)?)?;
    hole_node(alloc, index)
}

fn push_name(alloc: Global, pointer: &mut Pointer, name: &str) -> Result<(), NoMemory>
    ensures { OnOk result (pointer.new ≡ pointer.old ++ name.now ∷ []) }
{
    pointer.push(Text::from_text(alloc, name)?)
}

// ---- nodes within an item

#[cycle(hide)]
fn hidden_node(
    alloc: Global,
    body: &Body<'_>,
    covering: Covering<'_>,
    node: &Node,
    pointer: &mut Pointer,
    values: &mut NodeList,
) -> Result<Node, NoMemory>
    requires { Leads body.now.rules.now pointer.old covering }
    ensures node { IfOk result (λ n. tree_of n ≡ hide (node_test body.now) pointer.old (length values.old) (tree_of node.now)) }
    ensures values { OnOk result (values.new ≡ values.old ++ stood (outermost (node_test body.now) pointer.old (tree_of node.now))) }
    ensures pointer { OnOk result (pointer.new ≡ pointer.old) }
{
    if is_secret(body, covering, pointer, node) {
        return hole_for(alloc, node, values);
    }
    match node {
        Node::Items(list) => Ok(Node::Items(hidden_list(
            alloc, body, covering, list, pointer, values,
        )?)),
        Node::Members(map) => Ok(Node::Members(hidden_map(
            alloc, body, covering, map, pointer, values,
        )?)),
        _ => copy_doc(alloc, node),
    }
}

#[cycle(hide)]
fn hidden_list(
    alloc: Global,
    body: &Body<'_>,
    covering: Covering<'_>,
    list: &NodeList,
    pointer: &mut Pointer,
    values: &mut NodeList,
) -> Result<NodeList, NoMemory>
    requires { Leads body.now.rules.now pointer.old covering }
    ensures list { IfOk result (λ l. trees l ≡ hide_items (node_test body.now) pointer.old 0 (length values.old) (trees list.now)) }
    ensures values { OnOk result (values.new ≡ values.old ++ stood (outermost_items (node_test body.now) pointer.old 0 (trees list.now))) }
    ensures pointer { OnOk result (pointer.new ≡ pointer.old) }
{
    let depth = pointer.len();
    let mut hidden = NodeList::with_capacity(alloc, list.len())?;
    for i in 0..list.len() {
        let index = number_text(alloc, i as u64)?;
        let token = index.as_str();
        let inner = covering.enter(token);
        push_name(alloc, pointer, token)?;
        hidden.push(hidden_node(alloc, body, inner, list.item(i), pointer, values)?)?;
        pointer.truncate(depth);
    }
    Ok(hidden)
}

#[cycle(hide)]
fn hidden_map(
    alloc: Global,
    body: &Body<'_>,
    covering: Covering<'_>,
    map: &NodeMap,
    pointer: &mut Pointer,
    values: &mut NodeList,
) -> Result<NodeMap, NoMemory>
    requires { Leads body.now.rules.now pointer.old covering }
    ensures map { IfOk result (λ m. m ≡ hide_members (node_test body.now) pointer.old (length values.old) map.now) }
    ensures values { OnOk result (values.new ≡ values.old ++ stood (outermost_members (node_test body.now) pointer.old map.now)) }
    ensures pointer { OnOk result (pointer.new ≡ pointer.old) }
{
    let depth = pointer.len();
    let mut hidden = NodeMap::with_capacity(alloc, map.len())?;
    for i in 0..map.len() {
        let (name, node) = map.entry(i);
        let token = name.as_str();
        let inner = covering.enter(token);
        push_name(alloc, pointer, token)?;
        let node = hidden_node(alloc, body, inner, node, pointer, values)?;
        hidden.push_last(name.copy(alloc)?, node)?;
        pointer.truncate(depth);
    }
    Ok(hidden)
}

// ---- items

fn push_item(
    alloc: Global,
    pointer: &Pointer,
    value: Node,
    items: &mut NodeList,
) -> Result<(), NoMemory>
    ensures { OnOk result (items.new ≡ items.old ++ item_tree (text_of pointer.now, tree_of value) ∷ []) }
{
    let mut item = NodeMap::with_capacity(alloc, 3)?;
    put(
        alloc,
        &mut item,
        "iePath",
        Node::Words(pointer_text(alloc, pointer)?),
    )?;
    put_text(alloc, &mut item, "ieValueLocation", "BODY")?;
    put(alloc, &mut item, "value", value)?;
    items.push(Node::Members(item))
}

// Whether the members of an object have items of their own: it has members, and isn't secret.
fn is_opened(
    body: &Body<'_>,
    covering: Covering<'_>,
    pointer: &Pointer,
    node: &Node,
    map: &NodeMap,
) -> bool
    requires { Leads body.now.rules.now pointer.now covering }
    ensures { result ≡ (not (node_test body.now pointer.now (tree_of node.now)) && nat_lt 0 (length (field_list map.now))) }
{
    !is_secret(body, covering, pointer, node) && 0 < map.len()
}

#[cycle(items)]
fn push_items(
    alloc: Global,
    body: &Body<'_>,
    covering: Covering<'_>,
    node: &Node,
    pointer: &mut Pointer,
    items: &mut NodeList,
    values: &mut NodeList,
) -> Result<(), NoMemory>
    requires { Leads body.now.rules.now pointer.old covering }
    ensures items { OnOk result (items.new ≡ items.old ++ item_trees (leaves pointer.old (hide (node_test body.now) pointer.old (length values.old) (tree_of node.now)))) }
    ensures values { OnOk result (values.new ≡ values.old ++ stood (outermost (node_test body.now) pointer.old (tree_of node.now))) }
    ensures pointer { OnOk result (pointer.new ≡ pointer.old) }
{
    match node {
        Node::Members(map) => {
            if is_opened(body, covering, pointer, node, map) {
                push_members(alloc, body, covering, map, pointer, items, values)?;
                return Ok(());
            }
            push_leaf(alloc, body, covering, node, pointer, items, values)?;
            Ok(())
        }
        _ => push_leaf(alloc, body, covering, node, pointer, items, values),
    }
}

fn push_leaf(
    alloc: Global,
    body: &Body<'_>,
    covering: Covering<'_>,
    node: &Node,
    pointer: &mut Pointer,
    items: &mut NodeList,
    values: &mut NodeList,
) -> Result<(), NoMemory>
    requires { Leads body.now.rules.now pointer.old covering }
    ensures items { OnOk result (items.new ≡ items.old ++ item_tree (text_of pointer.old, hide (node_test body.now) pointer.old (length values.old) (tree_of node.now)) ∷ []) }
    ensures values { OnOk result (values.new ≡ values.old ++ stood (outermost (node_test body.now) pointer.old (tree_of node.now))) }
    ensures pointer { OnOk result (pointer.new ≡ pointer.old) }
{
    let value = hidden_node(alloc, body, covering, node, pointer, values)?;
    push_item(alloc, pointer, value, items)
}

#[cycle(items)]
fn push_members(
    alloc: Global,
    body: &Body<'_>,
    covering: Covering<'_>,
    map: &NodeMap,
    pointer: &mut Pointer,
    items: &mut NodeList,
    values: &mut NodeList,
) -> Result<(), NoMemory>
    requires { Leads body.now.rules.now pointer.old covering }
    ensures items { OnOk result (items.new ≡ items.old ++ item_trees (members_leaves pointer.old (hide_members (node_test body.now) pointer.old (length values.old) map.now))) }
    ensures values { OnOk result (values.new ≡ values.old ++ stood (outermost_members (node_test body.now) pointer.old map.now)) }
    ensures pointer { OnOk result (pointer.new ≡ pointer.old) }
{
    let depth = pointer.len();
    for i in 0..map.len() {
        let (name, node) = map.entry(i);
        let token = name.as_str();
        let inner = covering.enter(token);
        push_name(alloc, pointer, token)?;
        push_items(alloc, body, inner, node, pointer, items, values)?;
        pointer.truncate(depth);
    }
    Ok(())
}

/// The items of a body, which are added to `items`, and its values, which are added to `values`.
pub(crate) fn push_body(
    alloc: Global,
    body: &Body<'_>,
    items: &mut NodeList,
    values: &mut NodeList,
) -> Result<(), NoMemory>
    ensures items { OnOk result (items.new ≡ items.old ++ item_trees (leaves [] (hide (node_test body.now) [] (length values.old) (tree_of body.now.root.now)))) }
    ensures values { OnOk result (values.new ≡ values.old ++ stood (outermost (node_test body.now) [] (tree_of body.now.root.now))) }
{
    let covering = body.rules.covering();
    let mut pointer = Pointer::new(alloc);
    push_items(
        alloc,
        body,
        covering,
        body.root,
        &mut pointer,
        items,
        values,
    )
}
