// Where a token of a pointer leads in a list, and whether something can be added at a place.
ghost use Rattle.std.specs.Prelude.{◌≡◌, ◌<◌, Ok, Err, IfOk, MatchResult, length};
ghost use Rattle.spec_documents.specs.Tree.{items, trees};
ghost use Rattle.spec_documents.specs.Place.{child, at, front, is_beneath as stands_beneath};
ghost use Rattle.spec_documents.specs.Patch.{child_added, added};
ghost use Rattle.n32_values.specs.View.{tree_of};
ghost use Rattle.json_ptr.specs.Causes.{cause_of};
ghost use Rattle.json_patch6902.specs.Edits.{IsItemAt, GoesInAt, Takes};

use crate::fault::{EditFault, PatchFault};
use json_ptr::{FindFault, Pointer, capped_number, is_dash, is_index, is_prefix, step};
use n32_values::{Node, NodeList};

// The place of the item that a token names.
pub(crate) fn item_place(list: &NodeList, token: &str) -> Result<usize, FindFault>
    ensures { MatchResult result
        (λ i. IsItemAt token.now list.now i)
        (λ e. child token.now (items (trees list.now)) ≡ Err (cause_of e)) }
{
    let bytes = token.as_bytes();
    if is_index(bytes) {
        let i = capped_number(bytes);
        if i < list.len() {
            Ok(i)
        } else {
            Err(FindFault::NoPlace)
        }
    } else if is_dash(bytes) {
        Err(FindFault::NoPlace)
    } else {
        Err(FindFault::BadIndex)
    }
}

// The place before which an item goes in that is added at a token.
pub(crate) fn new_place(list: &NodeList, token: &str) -> Result<usize, EditFault>
    ensures place { IfOk result (λ i. GoesInAt token.now list.now i) }
    ensures takes { Takes (λ v. child_added token.now v (items (trees list.now))) result }
{
    let bytes = token.as_bytes();
    let end = list.len();
    if end == usize::MAX {
        return Err(EditFault::NoMemory);
    }
    if is_dash(bytes) {
        return Ok(end);
    }
    if !is_index(bytes) {
        return Err(EditFault::Cause(PatchFault::BadIndex));
    }
    let i = capped_number(bytes);
    if i <= end {
        Ok(i)
    } else {
        Err(EditFault::Cause(PatchFault::NoPlace))
    }
}

fn takes_child(node: &Node, token: &str) -> Result<(), EditFault>
    ensures { Takes (λ v. child_added token.now v (tree_of node.now)) result }
{
    match node {
        Node::Items(list) => {
            new_place(list, token)?;
            Ok(())
        }
        Node::Members(_) => Ok(()),
        _ => Err(EditFault::Cause(PatchFault::NoPlace)),
    }
}

// The node at which the last token of a pointer is looked up.
fn parent<'a>(node: &'a Node, path: &Pointer) -> Result<&'a Node, FindFault>
    requires { 0 < length path.now }
    ensures { MatchResult result
        (λ n. at (tree_of node.now) (front path.now) ≡ Ok (tree_of n.now))
        (λ e. at (tree_of node.now) (front path.now) ≡ Err (cause_of e)) }
{
    let mut place = node;
    for i in 0..path.len() - 1 {
        place = step(place, path.token(i).as_str())?;
    }
    Ok(place)
}

// Whether something can be added at a place, whatever it is.
pub(crate) fn takes_at(node: &Node, path: &Pointer) -> Result<(), EditFault>
    ensures { Takes (λ v. added path.now v (tree_of node.now)) result }
{
    if path.is_empty() {
        return Ok(());
    }
    let parent = parent(node, path)?;
    takes_child(parent, path.token(path.len() - 1).as_str())
}

// Whether a place stands strictly beneath another.
pub(crate) fn is_beneath(above: &Pointer, path: &Pointer) -> bool
    ensures { result ≡ stands_beneath above.now path.now }
{
    above.len() < path.len() && is_prefix(above, path)
}
