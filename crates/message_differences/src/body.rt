// Bodies: objects member by member in byte order, all else as a whole.
ghost use Rattle.std.specs.Prelude.{◌≡◌, map, Some, IsTrue, drop, ◌<◌, ◌^◌, ◌∷◌, [], ◌++◌, IfOk, length};
ghost use Rattle.spec_documents.specs.Tree.{is_ordered, are_members, same_tree, name_cmp};
ghost use Rattle.spec_documents.specs.Fields.{field_list, AreAscending};
ghost use Rattle.spec_messages.specs.Policy as spec;
ghost use Rattle.n32_values.specs.View.{tree_of};
ghost use Rattle.message_differences.specs.Fixed.{FirstFixed};
ghost use Rattle.message_differences.specs.Turns.{next_changed, Comes, ComesNext};

use crate::change::Change;
use json_ptr::Pointer;
use n32_values::{Doc, NoMemory, Node, NodeMap, Text, is_same_doc};
use policy_tables::Address;
use std::alloc::Global;
use std::cmp::Ordering;

fn at_name(alloc: Global, place: &Pointer, name: &Text) -> Result<Pointer, NoMemory>
    ensures { IfOk result (λ p. p ≡ place.now ++ name.now ∷ []) }
{
    let mut below = place.copy(alloc)?;
    below.push(name.copy(alloc)?)?;
    Ok(below)
}

fn fixed_name(
    alloc: Global,
    change: &Change<'_>,
    place: &Pointer,
    name: &Text,
) -> Result<Option<Address>, NoMemory>
    ensures { FirstFixed change.now result (map spec.body_at ((place.now ++ name.now ∷ []) ∷ [])) }
{
    let below = at_name(alloc, place, name)?;
    Ok(change.if_fixed(Address::Body(below)))
}

fn compare(one: &Text, other: &Text) -> Ordering
    ensures { result ≡ name_cmp one.now other.now }
{
    one.as_str().cmp(other.as_str())
}

// Which of two objects has the next name in byte order: `Less` for the earlier alone, `Equal` for both.
fn next_name(before: &NodeMap, i: usize, after: &NodeMap, j: usize) -> Option<Ordering>
    ensures next { ComesNext (field_list before.now) i (field_list after.now) j result }
    ensures few { (length (field_list before.now) < 2 ^ 64) × (length (field_list after.now) < 2 ^ 64) }
    ensures ascending { AreAscending (field_list before.now) × AreAscending (field_list after.now) }
{
    match (i < before.len(), j < after.len()) {
        (true, true) => Some(compare(before.entry(i).0, after.entry(j).0)),
        (true, false) => Some(Ordering::Less),
        (false, true) => Some(Ordering::Greater),
        (false, false) => None,
    }
}

// The place is copied for members that differ alone.
#[cycle(body)]
fn first_in_member(
    alloc: Global,
    change: &Change<'_>,
    place: &Pointer,
    name: &Text,
    before: &Node,
    after: &Node,
) -> Result<Option<Address>, NoMemory>
    requires ordered { IsTrue (is_ordered (tree_of before.now)) }
    ensures { FirstFixed change.now result (map spec.body_at (spec.changed_in (place.now ++ name.now ∷ []) (tree_of before.now) (Some (tree_of after.now)))) }
{
    if is_same_doc(before, after) {
        return Ok(None);
    }
    let below = at_name(alloc, place, name)?;
    first_in_node(alloc, change, &below, before, after)
}

#[cycle(body)]
fn fixed_at_next(
    alloc: Global,
    change: &Change<'_>,
    place: &Pointer,
    before: &NodeMap,
    i: usize,
    after: &NodeMap,
    j: usize,
    order: Ordering,
) -> Result<Option<Address>, NoMemory>
    requires ordered { IsTrue (are_members before.now) }
    requires comes { Comes (field_list before.now) i (field_list after.now) j order }
    ensures { FirstFixed change.now result (map spec.body_at (next_changed place.now (drop i (field_list before.now)) (drop j (field_list after.now)))) }
{
    match order {
        Ordering::Less => fixed_name(alloc, change, place, before.entry(i).0),
        Ordering::Greater => fixed_name(alloc, change, place, after.entry(j).0),
        Ordering::Equal => {
            let (name, one) = before.entry(i);
            let (_, other) = after.entry(j);
            first_in_member(alloc, change, place, name, one, other)
        }
    }
}

#[cycle(body)]
fn first_in_members(
    alloc: Global,
    change: &Change<'_>,
    place: &Pointer,
    before: &NodeMap,
    after: &NodeMap,
) -> Result<Option<Address>, NoMemory>
    requires ordered { IsTrue (are_members before.now) }
    ensures { FirstFixed change.now result (map spec.body_at (spec.members_changed place.now before.now after.now)) }
{
    let mut i = 0;
    let mut j = 0;
    'members: while let Some(order) = next_name(before, i, after, j) {
        let fixed = fixed_at_next(alloc, change, place, before, i, after, j, order)?;
        if let Some(address) = fixed {
            return Ok(Some(address));
        }
        let passed = usize::from(order.is_le());
        let added = usize::from(order.is_ge());
        i += passed;
        j += added;
    }
    Ok(None)
}

fn fixed_whole(
    alloc: Global,
    change: &Change<'_>,
    place: &Pointer,
    before: &Node,
    after: &Node,
) -> Result<Option<Address>, NoMemory>
    ensures { FirstFixed change.now result (map spec.body_at (spec.unless (same_tree (tree_of before.now) (tree_of after.now)) place.now)) }
{
    if is_same_doc(before, after) {
        return Ok(None);
    }
    Ok(change.if_fixed(Address::Body(place.copy(alloc)?)))
}

#[cycle(body)]
fn first_in_node(
    alloc: Global,
    change: &Change<'_>,
    place: &Pointer,
    before: &Node,
    after: &Node,
) -> Result<Option<Address>, NoMemory>
    requires ordered { IsTrue (is_ordered (tree_of before.now)) }
    ensures { FirstFixed change.now result (map spec.body_at (spec.changed_in place.now (tree_of before.now) (Some (tree_of after.now)))) }
{
    match (before, after) {
        (Node::Members(one), Node::Members(other)) => {
            first_in_members(alloc, change, place, one, other)
        }
        _ => fixed_whole(alloc, change, place, before, after),
    }
}

/// The first difference of two bodies that isn't modifiable. Nodes that are the same are passed by.
pub(crate) fn first_in_body(
    alloc: Global,
    change: &Change<'_>,
    before: &Option<Doc>,
    after: &Option<Doc>,
) -> Result<Option<Address>, NoMemory>
    ensures { FirstFixed change.now result (map spec.body_at (spec.body_changed before.now after.now)) }
{
    let root = Pointer::new(alloc);
    match (before, after) {
        (None, None) => Ok(None),
        (None, Some(_)) => Ok(change.if_fixed(Address::Body(root))),
        (Some(_), None) => Ok(change.if_fixed(Address::Body(root))),
        (Some(one), Some(other)) => first_in_node(alloc, change, &root, one.node(), other.node()),
    }
}
