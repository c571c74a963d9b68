// What an operation makes of a block's document, before the result is read as a block.
ghost use Rattle.std.specs.Prelude.{◌≡◌, not, nat_le, length, option_map, codes};
ghost use Rattle.spec_documents.specs.Compact.{compact_text};
ghost use Rattle.spec_documents.specs.Tree.{get_member};
ghost use Rattle.spec_documents.specs.Patch.{patched};
ghost use Rattle.spec_messages.specs.Block.{members_of};
ghost use Rattle.spec_messages.specs.Entry as spec;
ghost use Rattle.n32_values.specs.View.{tree_of};
ghost use Rattle.json_patch6902.specs.View.{op_view};
ghost use Rattle.block_patch.specs.Answers.{Makes, Judges, Forbids};

use crate::fault::{OpWhy, StepFault};
use crate::guards::{goes_to_hole, has_spelling, takes_hole};
use json_patch6902::{ApplyFault, Op, apply};
use n32_values::{Doc, Node, is_longer, is_same_doc};
use std::alloc::Global;

const MAX_BLOCK_BYTES: u32 = 4_194_304;

fn is_too_large(doc: &Doc) -> bool
    ensures { result ≡ not (nat_le (length (compact_text doc.now)) 4_194_304) }
{
    is_longer(doc.node(), MAX_BLOCK_BYTES)
}

fn is_same_member(left: Option<&Node>, right: Option<&Node>) -> bool
    ensures { result ≡ spec.same_member (option_map (λ n. tree_of n.now) left.entry) (option_map (λ n. tree_of n.now) right.entry) }
{
    match (left, right) {
        (Some(left), Some(right)) => is_same_doc(left, right),
        (None, None) => true,
        (Some(_), None) => false,
        (None, Some(_)) => false,
    }
}

fn metadata(node: &Node) -> Option<&Node>
    ensures { option_map (λ n. tree_of n.now) result ≡ get_member (codes "metaData") (members_of (tree_of node.now)) }
{
    match node {
        Node::Members(map) => map.get("metaData"),
        _ => None,
    }
}

fn keeps_meta(block: &Doc, changed: &Doc) -> bool
    ensures { result ≡ spec.keeps_meta block.now changed.now }
{
    match changed.node() {
        Node::Members(map) => is_same_member(map.get("metaData"), metadata(block.node())),
        _ => false,
    }
}

// What may be said of an operation before it is made.
fn check_operation(alloc: Global, block: &Doc, op: &Op) -> Result<(), StepFault>
    ensures { Forbids (spec.has_spelling (op_view op.now)) (spec.goes_to_hole block.now (op_view op.now)) result }
{
    if has_spelling(op) {
        return Err(StepFault::Why(OpWhy::HoleValue));
    }
    if goes_to_hole(alloc, block, op)? {
        return Err(StepFault::Why(OpWhy::IntoHole));
    }
    Ok(())
}

fn applied(alloc: Global, block: &Doc, op: &Op) -> Result<Doc, StepFault>
    ensures { Makes (spec.with_cause (patched block.now (op_view op.now))) result }
{
    match apply(alloc, block.copy(alloc)?, op) {
        Ok(doc) => Ok(doc),
        Err(ApplyFault::Refused { why, .. }) => Err(StepFault::Why(OpWhy::Patch(why))),
        Err(ApplyFault::NoMemory) => Err(StepFault::NoMemory),
    }
}

fn check_result(alloc: Global, block: &Doc, op: &Op, changed: &Doc) -> Result<(), StepFault>
    ensures { Judges (spec.judged block.now (op_view op.now) changed.now) changed.now result }
{
    if takes_hole(alloc, block, op)? {
        return Err(StepFault::Why(OpWhy::HoleTaken));
    }
    if is_too_large(changed) {
        return Err(StepFault::Why(OpWhy::TooLarge));
    }
    if !keeps_meta(block, changed) {
        return Err(StepFault::Why(OpWhy::Meta));
    }
    Ok(())
}

fn judged(alloc: Global, block: &Doc, op: &Op, changed: Doc) -> Result<Doc, StepFault>
    ensures { Makes (spec.judged block.now (op_view op.now) changed) result }
{
    match check_result(alloc, block, op, &changed) {
        Ok(()) => Ok(changed),
        Err(fault) => Err(fault),
    }
}

// What the operation makes of the block, or the first reason against it that its own parts give.
pub(crate) fn outcome(alloc: Global, block: &Doc, op: &Op) -> Result<Doc, StepFault>
    ensures { Makes (spec.op_result block.now (op_view op.now)) result }
{
    check_operation(alloc, block, op)?;
    let changed = applied(alloc, block, op)?;
    judged(alloc, block, op, changed)
}
