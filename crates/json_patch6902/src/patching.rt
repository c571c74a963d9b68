// Each operation on the node of a document, in place, and `apply`.
ghost use Rattle.std.specs.Prelude.{◌≡◌, ◌+◌, IfOk, OnOk, Ok, length, nat_lt, true};
ghost use Rattle.spec_documents.specs.Tree.{depth as nesting, is_tree};
ghost use Rattle.spec_documents.specs.Place.{at};
ghost use Rattle.spec_documents.specs.Patch as spec;
ghost use Rattle.spec_documents.specs.Patch.{added, removed, patched};
ghost use Rattle.n32_values.specs.View.{tree_of};
ghost use Rattle.json_patch6902.specs.Answers.{Applies};
ghost use Rattle.json_patch6902.specs.Edits.{Edits, ChecksAdd, CopiesFrom, IsDoc, HoldsTree, replaced};
ghost use Rattle.json_patch6902.specs.View.{op_view};

use crate::change::{Change, change_at};
use crate::fault::{ApplyFault, EditFault, PatchFault};
use crate::op::Op;
use crate::place::{is_beneath, takes_at};
use json_ptr::{Pointer, find};
use n32_values::{Doc, Node, copy_doc, depth, is_same_doc};
use std::alloc::Global;

const MAX_DEPTH: usize = 127;

// ---- the parts of an operation

fn add_at(alloc: Global, node: &mut Node, path: &Pointer, value: Node) -> Result<(), EditFault>
    ensures { Edits (tree_of node.old) (tree_of node.new) (added path.now (tree_of value) (tree_of node.old)) result }
{
    if path.is_empty() {
        *node = value;
        return Ok(());
    }
    change_at(alloc, node, path.tokens().as_slice(), Change::Add(value))?;
    Ok(())
}

fn take_at(alloc: Global, node: &mut Node, path: &Pointer) -> Result<Node, EditFault>
    ensures edit { Edits (tree_of node.old) (tree_of node.new) (removed path.now (tree_of node.old)) result }
    ensures taken { IfOk result (λ n. at (tree_of node.old) path.now ≡ Ok (tree_of n)) }
{
    match change_at(alloc, node, path.tokens().as_slice(), Change::Take)? {
        Some(taken) => Ok(taken),
        None => unreachable!(),
    }
}

fn replace_at(alloc: Global, node: &mut Node, path: &Pointer, value: Node) -> Result<(), EditFault>
    ensures { Edits (tree_of node.old) (tree_of node.new) (replaced path.now (tree_of value) (tree_of node.old)) result }
{
    if path.is_empty() {
        *node = value;
        return Ok(());
    }
    change_at(
        alloc,
        node,
        path.tokens().as_slice(),
        Change::Replace(value),
    )?;
    Ok(())
}

// Whether a value that stands at a place nests deeper than a document may.
fn is_too_deep(path: &Pointer, value: &Node) -> bool
    ensures deep { result ≡ nat_lt 127 (length path.now + nesting (tree_of value.now)) }
    ensures tree { is_tree (tree_of value.now) ≡ true }
{
    MAX_DEPTH < path.len().saturating_add(depth(value) as usize)
}

// Why a value can't be added at a place, by the place before the depth.
fn check_add(node: &Node, path: &Pointer, value: &Node) -> Result<(), EditFault>
    ensures { ChecksAdd path.now (tree_of value.now) (tree_of node.now) result }
{
    takes_at(node, path)?;
    if is_too_deep(path, value) {
        return Err(EditFault::Cause(PatchFault::TooDeep));
    }
    Ok(())
}

// ---- the operations

fn add(alloc: Global, node: &mut Node, path: &Pointer, value: &Node) -> Result<(), EditFault>
    requires { IsDoc (tree_of node.old) }
    ensures edit { Edits (tree_of node.old) (tree_of node.new) (patched (tree_of node.old) (spec.add path.now (tree_of value.now))) result }
    ensures tree { OnOk result (is_tree (tree_of value.now) ≡ true) }
{
    check_add(node, path, value)?;
    let copied = copy_doc(alloc, value)?;
    add_at(alloc, node, path, copied)
}

fn remove(alloc: Global, node: &mut Node, path: &Pointer) -> Result<(), EditFault>
    requires { IsDoc (tree_of node.old) }
    ensures { Edits (tree_of node.old) (tree_of node.new) (patched (tree_of node.old) (spec.remove path.now)) result }
{
    take_at(alloc, node, path)?;
    Ok(())
}

fn replace(alloc: Global, node: &mut Node, path: &Pointer, value: &Node) -> Result<(), EditFault>
    requires { IsDoc (tree_of node.old) }
    ensures edit { Edits (tree_of node.old) (tree_of node.new) (patched (tree_of node.old) (spec.replace path.now (tree_of value.now))) result }
    ensures tree { OnOk result (is_tree (tree_of value.now) ≡ true) }
{
    find(node, path)?;
    if is_too_deep(path, value) {
        return Err(EditFault::Cause(PatchFault::TooDeep));
    }
    let copied = copy_doc(alloc, value)?;
    replace_at(alloc, node, path, copied)
}

// The target is looked up when the node is taken out. A refused move puts it back.
fn move_node(
    alloc: Global,
    node: &mut Node,
    from: &Pointer,
    path: &Pointer,
) -> Result<(), EditFault>
    requires { IsDoc (tree_of node.old) }
    ensures { Edits (tree_of node.old) (tree_of node.new) (patched (tree_of node.old) (spec.move from.now path.now)) result }
{
    if is_beneath(from, path) {
        return Err(EditFault::Cause(PatchFault::IntoItself));
    }
    let taken = take_at(alloc, node, from)?;
    match check_add(node, path, &taken) {
        Ok(()) => add_at(alloc, node, path, taken),
        Err(why) => {
            add_at(alloc, node, from, taken)?;
            Err(why)
        }
    }
}

fn copied_from(
    alloc: Global,
    node: &Node,
    from: &Pointer,
    path: &Pointer,
) -> Result<Node, EditFault>
    ensures { CopiesFrom from.now path.now (tree_of node.now) result }
{
    let source = find(node, from)?;
    check_add(node, path, source)?;
    Ok(copy_doc(alloc, source)?)
}

fn copy(alloc: Global, node: &mut Node, from: &Pointer, path: &Pointer) -> Result<(), EditFault>
    requires { IsDoc (tree_of node.old) }
    ensures { Edits (tree_of node.old) (tree_of node.new) (patched (tree_of node.old) (spec.copy from.now path.now)) result }
{
    let copied = copied_from(alloc, node, from, path)?;
    add_at(alloc, node, path, copied)
}

fn test(node: &Node, path: &Pointer, value: &Node) -> Result<(), EditFault>
    requires { IsDoc (tree_of node.now) }
    ensures { Edits (tree_of node.now) (tree_of node.now) (patched (tree_of node.now) (spec.test path.now (tree_of value.now))) result }
{
    if is_same_doc(find(node, path)?, value) {
        Ok(())
    } else {
        Err(EditFault::Cause(PatchFault::TestFailed))
    }
}

fn edit(alloc: Global, node: &mut Node, op: &Op) -> Result<(), EditFault>
    requires { IsDoc (tree_of node.old) }
    ensures edit { Edits (tree_of node.old) (tree_of node.new) (patched (tree_of node.old) (op_view op.now)) result }
    ensures tree { OnOk result (HoldsTree (op_view op.now)) }
{
    match op {
        Op::Add { path, value } => add(alloc, node, path, value),
        Op::Remove { path } => remove(alloc, node, path),
        Op::Replace { path, value } => replace(alloc, node, path, value),
        Op::Move { from, path } => move_node(alloc, node, from, path),
        Op::Copy { from, path } => copy(alloc, node, from, path),
        Op::Test { path, value } => test(node, path, value),
    }
}

/// Applies an operation to a document, in place (RFC 6902, section 4). It costs what it touches: the
/// lists on the way, and the value that is copied, moved or compared.
///
/// # Errors
/// `Refused` with the document as it was given and the first cause: a move's own places, then `from`,
/// then `path`, which a move looks up when the node is taken out, then the depth.
pub fn apply(alloc: Global, doc: Doc, op: &Op) -> Result<Doc, ApplyFault>
    ensures { Applies doc (patched doc (op_view op.now)) result }
{
    let _known = doc.node();
    let mut node = doc.into_node();
    match edit(alloc, &mut node, op) {
        Ok(()) => Ok(Doc::of_shallow(node)),
        Err(EditFault::Cause(why)) => Err(ApplyFault::Refused {
            doc: Doc::of_shallow(node),
            why,
        }),
        Err(EditFault::NoMemory) => Err(ApplyFault::NoMemory),
    }
}
