// The first fault of a block.
ghost use Rattle.std.specs.Prelude.{◌≡◌, ◌≤◌, IfOk, MatchResult, [], None, Ok, length, option_map};
ghost use Rattle.std.specs.Option.{option_map_or};
ghost use Rattle.spec_documents.specs.Hole.{places as places_of};
ghost use Rattle.spec_messages.specs.Fault as spec;
ghost use Rattle.spec_messages.specs.Limits as limits;
ghost use Rattle.block_forms.specs.Faults.{IsFault, Refuses, later_fault, limit_of, limit_view, past_members, paths_fault, values_fault};
ghost use Rattle.block_forms.specs.Paths.{paths_of};
ghost use Rattle.block_forms.specs.Kept.{ReadsHead, ReadsParts, ReadsPayload, payload_of};

use crate::depths::is_deep;
use crate::overlaps::first_overlap;
use crate::parts::{MembersRead, list_at, read_members};
use crate::paths::{PathsRead, read_paths};
use enc_index::{Holes, HolesFault, Place, places};
use http_message::Head;
use json_ptr::Pointer;
use n32_values::{Doc, List, NoMemory, NodeList, Text};
use std::alloc::Global;

/// What there is too much of.
#[derive(Clone, Copy, Debug, PartialEq, Eq, Drop)]
pub enum LimitName {
    /// More than 256 headers.
    Headers,
    /// More than 4,096 items of a payload.
    Payload,
    /// More than 1,024 sealed values.
    Values,
    /// A block whose compact text has more than 4,194,304 bytes.
    Block,
    /// A document for a wire that holds 134,217,728 bytes or 1,000,000 documents.
    Wire,
    /// A document that an event made longer than 16,777,216 bytes.
    Alter,
    /// More than 1,048,576 records.
    Records,
}

/// Why a document is no block with so many values. The first that holds counts, in this order.
#[derive(Drop)]
pub enum BlockWhy {
    /// The member of this name is missing, unknown, or out of its form.
    Member(Text),
    /// There is too much of this: `Headers`, `Payload` or `Values`.
    Limit(LimitName),
    /// The item of this number, from 1, has no pointer as its path, or one with a token `encBlockIndex`.
    IePath(u32),
    /// The path of this item is above or beneath that of an earlier one, or the same.
    Overlap(u32),
    /// Here stands an object with a member `encBlockIndex` that is no hole, or a hole of an index at or past the count.
    BadHole(Place),
    /// The hole of this index stood before.
    Twice(u32),
    /// No hole has this index.
    Missing(u32),
    /// The body nests deeper than 64, where each hole counts as 0.
    Depth,
}

fn limit_fault(headers: usize, items: usize, values: u32) -> Option<LimitName>
    ensures { option_map limit_view result ≡ limit_of headers items values }
{
    if 256 < headers {
        Some(LimitName::Headers)
    } else if 4096 < items {
        Some(LimitName::Payload)
    } else if 1024 < values {
        Some(LimitName::Values)
    } else {
        None
    }
}

/// The name of what there is too much of, in an answer.
pub fn limit_name(limit: LimitName) -> &'static str
    ensures { result.now ≡ limits.limit_name (limit_view limit) }
{
    match limit {
        LimitName::Headers => "headers",
        LimitName::Payload => "payload",
        LimitName::Values => "values",
        LimitName::Block => "block",
        LimitName::Wire => "wire",
        LimitName::Alter => "alter",
        LimitName::Records => "records",
    }
}

/// Why a document isn't read to a block.
#[derive(Drop)]
pub enum BlockRead {
    /// The first fault of the document as a block with so many values.
    Refused(BlockWhy),
    /// Memory was refused.
    NoMemory,
}

impl From<NoMemory> for BlockRead {
    ghost use Rattle.std.specs.Prelude.{◌≡◌};
    ghost use Rattle.block_forms.specs.declared.fault.BlockRead.TheVariants.{NoMemory as refused_memory};

    ghost from_gives = { λ _ e. e ≡ refused_memory };

    fn from(_refused: NoMemory) -> BlockRead {
        BlockRead::NoMemory
    }
}

// The path of each item of a payload, and the places of the holes.
#[derive(Drop)]
pub(crate) struct Payload {
    pub(crate) paths: List<Pointer>,
    pub(crate) holes: Holes,
}

// What is read of a document that is a block.
#[derive(Drop)]
pub(crate) struct BlockParts {
    pub(crate) head: Head,
    pub(crate) payload: Payload,
}

fn read_holes(alloc: Global, doc: &Doc, count: u32) -> Result<Holes, BlockRead>
    ensures { MatchResult result
        (λ holes. places_of doc.now count ≡ Ok holes)
        (λ why. Refuses why (spec.as_fault spec.bad_holes (spec.hole_fault (places_of doc.now count)))) }
{
    match places(alloc, doc, count) {
        Ok(holes) => Ok(holes),
        Err(HolesFault::BadHole(place)) => Err(BlockRead::Refused(BlockWhy::BadHole(place))),
        Err(HolesFault::Twice(index)) => Err(BlockRead::Refused(BlockWhy::Twice(index))),
        Err(HolesFault::Missing(index)) => Err(BlockRead::Refused(BlockWhy::Missing(index))),
        Err(HolesFault::NoMemory) => Err(BlockRead::NoMemory),
    }
}

// The paths of items that stand apart from one another, or the first fault of the paths.
fn read_apart(alloc: Global, items: &NodeList) -> Result<List<Pointer>, BlockRead>
    requires { length items.now ≤ 4096 }
    ensures { MatchResult result
        (λ paths. (paths_fault items.now ≡ None) × (paths ≡ paths_of items.now))
        (λ why. Refuses why (paths_fault items.now)) }
{
    let paths = match read_paths(alloc, items) {
        Ok(paths) => paths,
        Err(PathsRead::Pathless(number)) => {
            return Err(BlockRead::Refused(BlockWhy::IePath(number)));
        }
        Err(PathsRead::NoMemory) => return Err(BlockRead::NoMemory),
    };
    match first_overlap(alloc, &paths) {
        Ok(None) => Ok(paths),
        Ok(Some(number)) => Err(BlockRead::Refused(BlockWhy::Overlap(number))),
        Err(NoMemory) => Err(BlockRead::NoMemory),
    }
}

// The holes of a block whose items have these paths, or the first fault of the holes and the depth.
fn read_filled(
    alloc: Global,
    doc: &Doc,
    items: &NodeList,
    paths: &List<Pointer>,
    count: u32,
) -> Result<Holes, BlockRead>
    requires { paths.now ≡ paths_of items.now }
    ensures { MatchResult result
        (λ holes. (values_fault items.now (places_of doc.now count) ≡ None) × (places_of doc.now count ≡ Ok holes))
        (λ why. Refuses why (values_fault items.now (places_of doc.now count))) }
{
    match read_holes(alloc, doc, count) {
        Ok(holes) => if is_deep(paths, items) {
            Err(BlockRead::Refused(BlockWhy::Depth))
        } else {
            Ok(holes)
        },
        Err(why) => Err(why),
    }
}

// The paths and the holes of items, or their first fault.
fn read_items(alloc: Global, doc: &Doc, items: &NodeList, count: u32) -> Result<Payload, BlockRead>
    requires { length items.now ≤ 4096 }
    ensures { MatchResult result
        (λ p. ReadsPayload p items.now (places_of doc.now count))
        (λ why. Refuses why (later_fault items.now (places_of doc.now count))) }
{
    let paths = read_apart(alloc, items)?;
    match read_filled(alloc, doc, items, &paths, count) {
        Ok(holes) => Ok(Payload { paths, holes }),
        Err(why) => Err(why),
    }
}

fn len_of(list: Option<&NodeList>) -> usize
    ensures { result ≡ length (option_map_or (λ l. l.now) list.entry []) }
{
    match list {
        Some(list) => list.len(),
        None => 0,
    }
}

// What is read of a payload that isn't there.
fn read_no_items(alloc: Global, doc: &Doc, count: u32) -> Result<Payload, BlockRead>
    ensures { MatchResult result
        (λ p. ReadsPayload p [] (places_of doc.now count))
        (λ why. Refuses why (later_fault [] (places_of doc.now count))) }
{
    match read_holes(alloc, doc, count) {
        Ok(holes) => Ok(Payload {
            paths: List::new(alloc),
            holes,
        }),
        Err(why) => Err(why),
    }
}

// The paths and the holes of a document whose members are right, or its first fault past these.
fn read_payload(alloc: Global, doc: &Doc, count: u32) -> Result<Payload, BlockRead>
    ensures { MatchResult result
        (λ p. (past_members doc.now count ≡ None) × ReadsPayload p (payload_of doc.now) (places_of doc.now count))
        (λ why. Refuses why (past_members doc.now count)) }
{
    let headers = len_of(list_at(doc.node(), "headers"));
    let payload = list_at(doc.node(), "payload");
    if let Some(which) = limit_fault(headers, len_of(payload), count) {
        return Err(BlockRead::Refused(BlockWhy::Limit(which)));
    }
    match payload {
        Some(items) => read_items(alloc, doc, items, count),
        None => read_no_items(alloc, doc, count),
    }
}

// The line of a document whose members are right, or the first of them that isn't.
fn read_head(alloc: Global, doc: &Doc) -> Result<Head, BlockRead>
    ensures { MatchResult result
        (λ head. (spec.member_fault doc.now ≡ None) × ReadsHead head doc.now)
        (λ why. Refuses why (spec.as_fault spec.bad_member (spec.member_fault doc.now))) }
{
    match read_members(alloc, doc.node()) {
        Ok(head) => Ok(head),
        Err(MembersRead::Member(name)) => {
            let name = Text::from_text(alloc, name)?;
            Err(BlockRead::Refused(BlockWhy::Member(name)))
        }
        Err(MembersRead::NoMemory) => Err(BlockRead::NoMemory),
    }
}

/// What is read of a document that is a block with so many values, or its first fault.
pub(crate) fn read_parts(alloc: Global, doc: &Doc, count: u32) -> Result<BlockParts, BlockRead>
    ensures { MatchResult result
        (λ p. (spec.block_fault doc.now count ≡ None) × ReadsParts p doc.now count)
        (λ why. Refuses why (spec.block_fault doc.now count)) }
{
    let head = read_head(alloc, doc)?;
    match read_payload(alloc, doc, count) {
        Ok(payload) => Ok(BlockParts { head, payload }),
        Err(why) => Err(why),
    }
}

/// The first fault of a document as a block with so many values, or `None` exactly where it is a block.
pub fn block_fault(alloc: Global, doc: &Doc, count: u32) -> Result<Option<BlockWhy>, NoMemory>
    ensures { IfOk result (λ why. IsFault why (spec.block_fault doc.now count)) }
{
    match read_parts(alloc, doc, count) {
        Ok(_) => Ok(None),
        Err(BlockRead::Refused(why)) => Ok(Some(why)),
        Err(BlockRead::NoMemory) => Err(NoMemory),
    }
}
