// Texts are read to records.
ghost use Rattle.std.specs.Prelude.{◌≡◌, Err, IfOk};
ghost use Rattle.n32_values.specs.View.{tree_of};
ghost use Rattle.spec_messages.specs.Message as spec;
ghost use Rattle.spec_records.specs.Records.{Record as spec_record, Offered, Closed};
ghost use Rattle.spec_records.specs.RecordDocument as document;
ghost use Rattle.context_records.specs.View.{record_view};
ghost use Rattle.context_records.specs.Reading.{Gives, IsMemory, ReadsRecord};

use crate::context::{Context, KeySet};
use crate::keys::read_key_pair;
use crate::record::Record;
use crate::words::{
    read_id, read_ipx, read_kind, read_mapping, read_network, read_node_name, read_number,
    read_policy_at, read_suite,
};
use doc_forms::{Grammar, text_at};
use n32_values::{DocFault, Hex64, NoMemory, Node, NodeMap, ReadingRoom, Text, read_doc_in};
use std::alloc::Global;

/// Why a text is read to no record.
#[derive(Clone, Copy, Debug, PartialEq, Eq, Drop)]
pub enum RecordRead {
    /// The text is of no record.
    Form,
    /// Memory was refused.
    NoMemory,
}

impl From<NoMemory> for RecordRead {
    ghost from_gives = { λ _ e. IsMemory e };

    fn from(_refused: NoMemory) -> RecordRead {
        RecordRead::NoMemory
    }
}

fn read_opened(alloc: Global, map: &NodeMap, node: Text, id: Hex64) -> Result<Record, RecordRead>
    ensures { Gives record_view result (document.opened_of node id.value map.now) }
{
    let peer_node = read_node_name(alloc, map, "peer_node")?;
    let peer = read_id(map.get("peer"))?;
    let plmn = read_network(alloc, map.get("plmn"))?;
    let suite = read_suite(map.get("suite"))?;
    let policy = read_policy_at(alloc, map.get("policy"))?;
    let own_ipx = read_ipx(alloc, map.get("own_ipx"))?;
    let peer_ipx = read_ipx(alloc, map.get("peer_ipx"))?;
    if map.len() != 10 {
        return Err(RecordRead::Form);
    }
    let context = Context {
        node,
        id,
        peer_node,
        peer,
        plmn,
        suite,
        policy,
        own_ipx,
        peer_ipx,
    };
    Ok(Record::of_context(alloc, context)?)
}

fn read_keyed(alloc: Global, map: &NodeMap, node: Text, id: Hex64) -> Result<Record, RecordRead>
    ensures { Gives record_view result (document.keyed_of node id.value map.now) }
{
    let first = read_number(map.get("first"))?;
    let (send_request, send_response) = read_key_pair(map.get("send"))?;
    let (receive_request, receive_response) = read_key_pair(map.get("receive"))?;
    if map.len() != 6 {
        return Err(RecordRead::Form);
    }
    let keys = KeySet {
        send_request,
        send_response,
        receive_request,
        receive_response,
        first,
    };
    Ok(Record::of_keys(alloc, node, id, keys)?)
}

fn read_sent(map: &NodeMap, node: Text, id: Hex64) -> Result<Record, RecordRead>
    ensures { Gives record_view result (document.sent_of node id.value map.now) }
{
    let kind = read_kind(map.get("kind"))?;
    let seq = read_number(map.get("seq"))?;
    let message = read_id(map.get("message"))?;
    let mapping = read_mapping(map.get("mapping"))?;
    if map.len() != 7 {
        return Err(RecordRead::Form);
    }
    Ok(Record::Sent {
        kind,
        seq,
        node,
        id,
        message,
        mapping,
    })
}

fn read_delivered(map: &NodeMap, node: Text, id: Hex64) -> Result<Record, RecordRead>
    ensures { Gives record_view result (document.delivered_of node id.value map.now) }
{
    let kind = read_kind(map.get("kind"))?;
    let message = read_id(map.get("message"))?;
    let mapping = read_mapping(map.get("mapping"))?;
    if map.len() != 6 {
        return Err(RecordRead::Form);
    }
    Ok(Record::Delivered {
        kind,
        node,
        id,
        message,
        mapping,
    })
}

fn read_offered(map: &NodeMap, node: Text, id: Hex64) -> Result<Record, RecordRead>
    ensures { Gives record_view result (document.if_counted 3 map.now (Offered node id.value)) }
{
    if map.len() != 3 {
        return Err(RecordRead::Form);
    }
    Ok(Record::Offered { node, id })
}

fn read_closed(map: &NodeMap, node: Text, id: Hex64) -> Result<Record, RecordRead>
    ensures { Gives record_view result (document.if_counted 3 map.now (Closed node id.value)) }
{
    if map.len() != 3 {
        return Err(RecordRead::Form);
    }
    Ok(Record::Closed { node, id })
}

// The record of an object, by the text of `is`.
fn read_named(
    alloc: Global,
    map: &NodeMap,
    is: &str,
    node: Text,
    id: Hex64,
) -> Result<Record, RecordRead>
    ensures { Gives record_view result (document.record_named is.now node id.value map.now) }
{
    if is == "offered" {
        read_offered(map, node, id)
    } else if is == "opened" {
        read_opened(alloc, map, node, id)
    } else if is == "keyed" {
        read_keyed(alloc, map, node, id)
    } else if is == "sent" {
        read_sent(map, node, id)
    } else if is == "delivered" {
        read_delivered(map, node, id)
    } else if is == "closed" {
        read_closed(map, node, id)
    } else {
        Err(RecordRead::Form)
    }
}

fn read_word<'a>(map: &'a NodeMap, name: &str) -> Result<&'a str, RecordRead>
    ensures { Gives (λ t. t.now) result (spec.wanted (spec.text_at spec.any_text name.now map.now) document.no_record) }
{
    match text_at(map, name, Grammar::Any) {
        Some(text) => Ok(text),
        None => Err(RecordRead::Form),
    }
}

fn read_object(alloc: Global, map: &NodeMap) -> Result<Record, RecordRead>
    ensures { Gives record_view result (document.record_with map.now) }
{
    let is = read_word(map, "is")?;
    let node = read_node_name(alloc, map, "node")?;
    let id = read_id(map.get("id"))?;
    read_named(alloc, map, is, node, id)
}

fn read_node(alloc: Global, node: &Node) -> Result<Record, RecordRead>
    ensures { Gives record_view result (document.record_of (tree_of node.now)) }
{
    match node {
        Node::Members(map) => read_object(alloc, map),
        _ => Err(RecordRead::Form),
    }
}

/// Reads the record that a text is of: one JSON object with the members of its kind of record, and no
/// others. Inside its policy and its keys other members are ignored. `Form` comes exactly where the text
/// is of no record.
pub fn read_record(alloc: Global, bytes: &[u8]) -> Result<Record, RecordRead>
    ensures ok { IfOk result (λ r. ReadsRecord bytes.now (record_view r)) }
    ensures form { result ≡ Err RecordRead.Form → (r : spec_record) → ReadsRecord bytes.now r → ⊥ }
{
    let mut room = ReadingRoom::new(alloc);
    read_record_in(alloc, bytes, &mut room)
}

/// Reads a record as `read_record` does, in room that is kept from one reading to the next.
pub fn read_record_in(
    alloc: Global,
    bytes: &[u8],
    room: &mut ReadingRoom,
) -> Result<Record, RecordRead>
    ensures ok { IfOk result (λ r. ReadsRecord bytes.now (record_view r)) }
    ensures form { result ≡ Err RecordRead.Form → (r : spec_record) → ReadsRecord bytes.now r → ⊥ }
{
    match read_doc_in(alloc, bytes, room) {
        Ok(doc) => read_node(alloc, doc.node()),
        Err(DocFault::Syntax) => Err(RecordRead::Form),
        Err(DocFault::Number) => Err(RecordRead::Form),
        Err(DocFault::NoMemory) => Err(RecordRead::NoMemory),
    }
}
