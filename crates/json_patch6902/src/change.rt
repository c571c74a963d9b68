// What is done in place to the member or item that a pointer's last token names.
ghost use Rattle.std.specs.Prelude.{◌<◌, [], ◌∷◌, IfOk, length};
ghost use Rattle.spec_documents.specs.Tree.{items, trees, members};
ghost use Rattle.spec_documents.proofs.EditLemmas.{edit};
ghost use Rattle.n32_values.specs.View.{tree_of};
ghost use Rattle.json_patch6902.specs.Edits.{Edits, TakenBy, change_view};

use crate::fault::{EditFault, PatchFault};
use crate::place::{item_place, new_place};
use n32_values::{Node, NodeList, NodeMap, Text};
use std::alloc::Global;
use std::mem;

// What is done at a place.
#[derive(Drop)]
pub(crate) enum Change {
    // A new member, in place of what it had, or a new item is put there.
    Add(Node),
    // The member or item is taken out.
    Take,
    // A node takes the place of the member or item.
    Replace(Node),
}

fn change_item(list: &mut NodeList, token: &str, change: Change) -> Result<Option<Node>, EditFault>
    ensures edit { Edits (items (trees list.old)) (items (trees list.new)) (change_view change token.now (items (trees list.old))) result }
    ensures taken { IfOk result (TakenBy change (token.now ∷ []) (items (trees list.old))) }
{
    match change {
        Change::Add(value) => {
            let i = new_place(list, token)?;
            list.insert(i, value)?;
            Ok(None)
        }
        Change::Take => {
            let i = item_place(list, token)?;
            match list.take(i) {
                Some(node) => Ok(Some(node)),
                None => Err(EditFault::Cause(PatchFault::NoPlace)),
            }
        }
        Change::Replace(value) => {
            let i = item_place(list, token)?;
            match list.get_mut(i) {
                Some(item) => Ok(Some(mem::replace(item, value))),
                None => Err(EditFault::Cause(PatchFault::NoPlace)),
            }
        }
    }
}

fn change_member(
    alloc: Global,
    map: &mut NodeMap,
    name: &Text,
    change: Change,
) -> Result<Option<Node>, EditFault>
    ensures edit { Edits (members map.old) (members map.new) (change_view change name.now (members map.old)) result }
    ensures taken { IfOk result (TakenBy change (name.now ∷ []) (members map.old)) }
{
    match change {
        Change::Add(value) => Ok(map.put(name.copy(alloc)?, value)?),
        Change::Take => match map.take(name.as_str()) {
            Some(node) => Ok(Some(node)),
            None => Err(EditFault::Cause(PatchFault::NoPlace)),
        },
        Change::Replace(value) => match map.get_mut(name.as_str()) {
            Some(member) => Ok(Some(mem::replace(member, value))),
            None => Err(EditFault::Cause(PatchFault::NoPlace)),
        },
    }
}

fn change_child(
    alloc: Global,
    node: &mut Node,
    token: &Text,
    change: Change,
) -> Result<Option<Node>, EditFault>
    ensures edit { Edits (tree_of node.old) (tree_of node.new) (change_view change token.now (tree_of node.old)) result }
    ensures taken { IfOk result (TakenBy change (token.now ∷ []) (tree_of node.old)) }
{
    match node {
        Node::Items(list) => change_item(list, token.as_str(), change),
        Node::Members(map) => change_member(alloc, map, token, change),
        _ => Err(EditFault::Cause(PatchFault::NoPlace)),
    }
}

/// Changes what a path of tokens leads to. A refused change leaves the node as it was. What is taken,
/// replaced or overwritten is handed out.
#[cycle(change)]
pub(crate) fn change_at(
    alloc: Global,
    node: &mut Node,
    path: &[Text],
    change: Change,
) -> Result<Option<Node>, EditFault>
    ensures edit { Edits (tree_of node.old) (tree_of node.new) (edit (change_view change) path.now (tree_of node.old)) result }
    ensures taken { IfOk result (TakenBy change path.now (tree_of node.old)) }
{
    let Some((token, rest)) = path.split_first() else {
        return Err(EditFault::Cause(PatchFault::NoPlace));
    };
    if rest.is_empty() {
        return change_child(alloc, node, token, change);
    }
    match node {
        Node::Items(list) => change_in_item(alloc, list, token, rest, change),
        Node::Members(map) => change_in_member(alloc, map, token, rest, change),
        _ => Err(EditFault::Cause(PatchFault::NoPlace)),
    }
}

#[cycle(change)]
fn change_in_item(
    alloc: Global,
    list: &mut NodeList,
    token: &Text,
    rest: &[Text],
    change: Change,
) -> Result<Option<Node>, EditFault>
    requires { 0 < length rest.now }
    ensures edit { Edits (items (trees list.old)) (items (trees list.new)) (edit (change_view change) (token.now ∷ rest.now) (items (trees list.old))) result }
    ensures taken { IfOk result (TakenBy change (token.now ∷ rest.now) (items (trees list.old))) }
{
    let place = item_place(list, token.as_str())?;
    match list.get_mut(place) {
        Some(item) => change_at(alloc, item, rest, change),
        None => Err(EditFault::Cause(PatchFault::NoPlace)),
    }
}

#[cycle(change)]
fn change_in_member(
    alloc: Global,
    map: &mut NodeMap,
    token: &Text,
    rest: &[Text],
    change: Change,
) -> Result<Option<Node>, EditFault>
    requires { 0 < length rest.now }
    ensures edit { Edits (members map.old) (members map.new) (edit (change_view change) (token.now ∷ rest.now) (members map.old)) result }
    ensures taken { IfOk result (TakenBy change (token.now ∷ rest.now) (members map.old)) }
{
    match map.get_mut(token.as_str()) {
        Some(member) => change_at(alloc, member, rest, change),
        None => Err(EditFault::Cause(PatchFault::NoPlace)),
    }
}
