// One operation of an entry: what it makes of a block and of the message that the block stands for.
ghost use Rattle.std.specs.Prelude.{◌≡◌, None, Ok, slice_get};
ghost use Rattle.spec_documents.specs.Hole.{places as places_of};
ghost use Rattle.spec_messages.specs.Entry as entries;
ghost use Rattle.spec_messages.specs.Fault.{block_fault};
ghost use Rattle.spec_messages.specs.Outcome as spec;
ghost use Rattle.http_message.specs.Reading.{message_view};
ghost use Rattle.enc_index.specs.Places.{place_view};
ghost use Rattle.json_patch6902.specs.View.{op_view};
ghost use Rattle.block_patch.specs.Answers.{Reads, Gives, keeps_holes, judged_again};
ghost use Rattle.block_patch.specs.Places.{same_place_option};

use crate::fault::{OpWhy, StepFault};
use crate::outcome::outcome;
use block_forms::{Block, BlockRead, BlockReading};
use enc_index::{Holes, Place};
use http_message::Message;
use json_patch6902::Op;
use json_ptr::{Pointer, is_prefix};
use message_differences::first_fixed;
use n32_values::{Doc, Text};
use policy_tables::Policy;
use spec_messages::blocks::{block_has_one_message, fault_decides};
use std::alloc::Global;

/// Who is to change the blocks, under which mapping of which policy, and how many holes they have.
#[derive(Clone, Copy)]
pub(crate) struct Rules<'a> {
    pub(crate) policy: &'a Policy,
    pub(crate) mapping: Option<u32>,
    pub(crate) ipx: &'a Text,
    pub(crate) holes: u32,
}

/// A block's document, and the message with holes that it stands for.
#[derive(Drop)]
pub(crate) struct Patched {
    pub(crate) doc: Doc,
    pub(crate) message: Message,
}

impl Patched {
    // Its block, which is moved.
    pub(crate) fn into_block(self, holes: u32) -> Block
        requires { block_fault self.doc holes ≡ None }
        ensures value { result ≡ self.doc }
        ensures holes { block_fault result holes ≡ None }
    {
        let Patched { doc, .. } = self;
        Block::of_doc(doc, holes)
    }
}

fn is_same_pointer(one: &Pointer, other: &Pointer) -> bool
    ensures { result ≡ spec.same_pointer one.now other.now }
{
    if one.len() != other.len() {
        return false;
    }
    is_prefix(one, other)
}

fn is_same_part(one: Option<usize>, other: Option<usize>) -> bool
    ensures { result ≡ spec.same_part one other }
{
    match (one, other) {
        (Some(one), Some(other)) => one == other,
        (None, None) => true,
        (Some(_), None) => false,
        (None, Some(_)) => false,
    }
}

fn is_same_place(one: &Place, other: &Place) -> bool
    ensures { result ≡ spec.same_place (place_view one.now) (place_view other.now) }
{
    is_same_pointer(&one.pointer, &other.pointer) && is_same_part(one.part, other.part)
}

fn is_same_place_at(one: &Holes, other: &Holes, i: usize) -> bool
    ensures { result ≡ same_place_option (slice_get one.now i) (slice_get other.now i) }
{
    match (one.get(i), other.get(i)) {
        (Some(one), Some(other)) => is_same_place(one, other),
        (None, None) => true,
        (Some(_), None) => false,
        (None, Some(_)) => false,
    }
}

fn has_same_places(one: &Holes, other: &Holes) -> bool
    ensures { result ≡ spec.same_place_list one.now other.now }
{
    if one.len() != other.len() {
        return false;
    }
    for i in 0..one.len() {
        if !is_same_place_at(one, other, i) {
            return false;
        }
    }
    true
}

fn message_of(alloc: Global, reading: BlockReading, holes: &Holes) -> Result<Message, StepFault>
    ensures { Reads (keeps_holes reading.1 holes.now reading.0) result }
{
    fault_decides();
    block_has_one_message();
    let _known = reading.doc().node();
    if !has_same_places(reading.holes(), holes) {
        return Err(StepFault::Why(OpWhy::HoleMoved));
    }
    match reading.into_message(alloc) {
        Ok(message) => Ok(message),
        Err(_) => Err(StepFault::NoMemory),
    }
}

// The message of a document that is a block whose holes stand where they stood.
fn read_again(alloc: Global, doc: &Doc, count: u32, holes: &Holes) -> Result<Message, StepFault>
    ensures { Reads (keeps_holes count holes.now doc.now) result }
{
    match BlockReading::read(alloc, doc.copy(alloc)?, count) {
        Ok(reading) => message_of(alloc, reading, holes),
        Err(BlockRead::Refused(_)) => Err(StepFault::Why(OpWhy::NotBlock)),
        Err(BlockRead::NoMemory) => Err(StepFault::NoMemory),
    }
}

fn compared(
    alloc: Global,
    rules: &Rules<'_>,
    before: &Message,
    doc: Doc,
    message: Message,
) -> Result<Patched, StepFault>
    ensures { Gives (spec.unless_fixed (entries.first_fixed rules.now.policy.now rules.now.mapping rules.now.ipx.now (message_view before.now) (message_view message)) (doc, message_view message)) result }
{
    match first_fixed(
        alloc,
        rules.policy,
        rules.mapping,
        before,
        &message,
        rules.ipx,
    ) {
        Ok(None) => Ok(Patched { doc, message }),
        Ok(Some(address)) => Err(StepFault::Why(OpWhy::NotModifiable(address))),
        Err(_) => Err(StepFault::NoMemory),
    }
}

fn judged(
    alloc: Global,
    rules: &Rules<'_>,
    holes: &Holes,
    before: &Message,
    doc: Doc,
) -> Result<Patched, StepFault>
    ensures { Gives (judged_again rules.now.policy.now rules.now.mapping rules.now.ipx.now rules.now.holes holes.now (message_view before.now) doc) result }
{
    match read_again(alloc, &doc, rules.holes, holes) {
        Ok(message) => compared(alloc, rules, before, doc, message),
        Err(fault) => Err(fault),
    }
}

// What an operation makes of a block with the holes, or the first reason against it.
pub(crate) fn step(
    alloc: Global,
    rules: &Rules<'_>,
    holes: &Holes,
    current: &Patched,
    op: &Op,
) -> Result<Patched, StepFault>
    requires { places_of current.now.doc rules.now.holes ≡ Ok holes.now }
    ensures { Gives (spec.operation_outcome rules.now.policy.now rules.now.mapping rules.now.ipx.now rules.now.holes current.now.doc (message_view current.now.message) (op_view op.now)) result }
{
    match outcome(alloc, &current.doc, op) {
        Ok(doc) => judged(alloc, rules, holes, &current.message, doc),
        Err(fault) => Err(fault),
    }
}
