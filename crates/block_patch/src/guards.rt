// Whether an operation has to do with holes.
ghost use Rattle.std.specs.Prelude.{◌≡◌, IfOk, Ok};
ghost use Rattle.std.specs.Result.{result_ok};
ghost use Rattle.spec_documents.specs.Patch as patch;
ghost use Rattle.spec_messages.specs.Entry as spec;
ghost use Rattle.n32_values.specs.View.{tree_of};
ghost use Rattle.json_patch6902.specs.View.{op_view};

use enc_index::{goes_beneath_hole, has_hole_spelling, holds_hole};
use json_patch6902::{ApplyFault, Op, apply};
use json_ptr::{Pointer, find};
use n32_values::{Doc, NoMemory, Node};
use std::alloc::Global;

pub(crate) fn has_spelling(op: &Op) -> bool
    ensures { result ≡ spec.has_spelling (op_view op.now) }
{
    match op {
        Op::Add { value, .. } => has_hole_spelling(value),
        Op::Replace { value, .. } => has_hole_spelling(value),
        Op::Test { value, .. } => has_hole_spelling(value),
        Op::Remove { .. } => false,
        Op::Move { .. } => false,
        Op::Copy { .. } => false,
    }
}

fn either_goes_beneath(
    alloc: Global,
    block: &Doc,
    from: &Pointer,
    path: &Pointer,
) -> Result<bool, NoMemory>
    ensures { IfOk result (λ b. b ≡ spec.goes_to_hole block.now (patch.move from.now path.now)) }
{
    if goes_beneath_hole(alloc, block, from)? {
        return Ok(true);
    }
    goes_beneath_hole(alloc, block, path)
}

// Whether a place that the operation names stands strictly beneath an object hole of the block.
pub(crate) fn goes_to_hole(alloc: Global, block: &Doc, op: &Op) -> Result<bool, NoMemory>
    ensures { IfOk result (λ b. b ≡ spec.goes_to_hole block.now (op_view op.now)) }
{
    match op {
        Op::Add { path, .. } => goes_beneath_hole(alloc, block, path),
        Op::Remove { path } => goes_beneath_hole(alloc, block, path),
        Op::Replace { path, .. } => goes_beneath_hole(alloc, block, path),
        Op::Move { from, path } => either_goes_beneath(alloc, block, from, path),
        Op::Copy { from, path } => either_goes_beneath(alloc, block, from, path),
        Op::Test { path, .. } => goes_beneath_hole(alloc, block, path),
    }
}

fn has_member(node: &Node, name: &str) -> bool
    ensures { result ≡ spec.is_member (Ok (tree_of node.now)) name.now }
{
    match node {
        Node::Members(map) => map.get(name).is_some(),
        _ => false,
    }
}

// Whether what is added at a place takes the place of the whole document, or of a member's value.
fn overwrites(alloc: Global, block: &Doc, path: &Pointer) -> Result<bool, NoMemory>
    ensures { IfOk result (λ b. b ≡ spec.overwrites block.now path.now) }
{
    let Some(last) = path.len().checked_sub(1) else {
        return Ok(true);
    };
    let mut front = path.copy(alloc)?;
    front.truncate(last);
    match find(block.node(), &front) {
        Ok(node) => Ok(has_member(node, path.token(last).as_str())),
        Err(_) => Ok(false),
    }
}

fn overwrites_hole(alloc: Global, block: &Doc, path: &Pointer) -> Result<bool, NoMemory>
    ensures { IfOk result (λ b. b ≡ spec.overwrites_hole block.now path.now) }
{
    if !overwrites(alloc, block, path)? {
        return Ok(false);
    }
    holds_hole(alloc, block, path)
}

fn removal(alloc: Global, from: &Pointer) -> Result<Op, NoMemory>
    ensures { IfOk result (λ op. op_view op ≡ patch.remove from.now) }
{
    Ok(Op::Remove {
        path: from.copy(alloc)?,
    })
}

// What an operation makes of a copy of the block, where it makes something.
fn made(alloc: Global, block: &Doc, op: &Op) -> Result<Option<Doc>, NoMemory>
    ensures { IfOk result (λ doc. doc ≡ result_ok (patch.patched block.now (op_view op.now))) }
{
    match apply(alloc, block.copy(alloc)?, op) {
        Ok(doc) => Ok(Some(doc)),
        Err(ApplyFault::Refused { .. }) => Ok(None),
        Err(ApplyFault::NoMemory) => Err(NoMemory),
    }
}

// The block without the node at a place, where one is there.
fn without(alloc: Global, block: &Doc, from: &Pointer) -> Result<Option<Doc>, NoMemory>
    ensures { IfOk result (λ doc. doc ≡ result_ok (patch.removed from.now block.now)) }
{
    let _known = block.node();
    match removal(alloc, from) {
        Ok(op) => made(alloc, block, &op),
        Err(refused) => Err(refused),
    }
}

fn overwrites_after(
    alloc: Global,
    block: &Doc,
    from: &Pointer,
    path: &Pointer,
) -> Result<bool, NoMemory>
    ensures { IfOk result (λ b. b ≡ spec.overwrites_after (patch.removed from.now block.now) path.now) }
{
    match without(alloc, block, from)? {
        Some(doc) => overwrites_hole(alloc, &doc, path),
        None => Ok(false),
    }
}

fn move_takes(alloc: Global, block: &Doc, from: &Pointer, path: &Pointer) -> Result<bool, NoMemory>
    ensures { IfOk result (λ b. b ≡ spec.takes_hole block.now (patch.move from.now path.now)) }
{
    if holds_hole(alloc, block, from)? {
        return Ok(true);
    }
    overwrites_after(alloc, block, from, path)
}

fn copy_takes(alloc: Global, block: &Doc, from: &Pointer, path: &Pointer) -> Result<bool, NoMemory>
    ensures { IfOk result (λ b. b ≡ spec.takes_hole block.now (patch.copy from.now path.now)) }
{
    if holds_hole(alloc, block, from)? {
        return Ok(true);
    }
    overwrites_hole(alloc, block, path)
}

// Whether a node that the operation removes, copies, moves or overwrites is a hole, holds one, or is a text
// that holds one.
pub(crate) fn takes_hole(alloc: Global, block: &Doc, op: &Op) -> Result<bool, NoMemory>
    ensures { IfOk result (λ b. b ≡ spec.takes_hole block.now (op_view op.now)) }
{
    match op {
        Op::Add { path, .. } => overwrites_hole(alloc, block, path),
        Op::Remove { path } => holds_hole(alloc, block, path),
        Op::Replace { path, .. } => holds_hole(alloc, block, path),
        Op::Move { from, path } => move_takes(alloc, block, from, path),
        Op::Copy { from, path } => copy_takes(alloc, block, from, path),
        Op::Test { .. } => Ok(false),
    }
}
