// Records are written as texts.
ghost use Rattle.std.specs.Prelude.{◌≡◌, ◌<◌, ◌^◌, pos, codes, IfOk, IsTrue};
ghost use Rattle.spec_documents.specs.Tree.{no_members, put_member, whole, words};
ghost use Rattle.spec_documents.specs.Ids.{id_text};
ghost use Rattle.n32_values.specs.View.{tree_of};
ghost use Rattle.spec_messages.specs.PolicyDocument.{list_of};
ghost use Rattle.spec_records.specs.Records as spec;
ghost use Rattle.spec_records.specs.RecordDocument as document;
ghost use Rattle.spec_records.specs.RecordDocument.{is_well_named};
ghost use Rattle.http_message.specs.Reading.{kind_view};
ghost use Rattle.context_records.specs.View.{context_view, key_set_view, record_view};
ghost use Rattle.context_records.specs.Reading.{ReadsRecord, written};

use crate::context::{Context, KeySet};
use crate::keys::key_pair_node;
use crate::record::Record;
use crate::words::{kind_word, suite_word};
use doc_forms::{put, put_text};
use http_message::Kind;
use n32_values::{
    Bytes, Hex64, NoMemory, Node, NodeList, NodeMap, Text, TextList, Whole, doc_text, hex64_text,
};
use policy_documents::policy_doc;
use spec_records::records::written_record_is_read;
use std::alloc::Global;

fn id_node(alloc: Global, id: Hex64) -> Result<Node, NoMemory>
    ensures node { IfOk result (λ n. tree_of n ≡ words (id_text id.value)) }
    ensures range { id.value < 2 ^ 64 }
{
    Ok(Node::Words(hex64_text(alloc, id)?))
}

fn number_node(number: u32) -> Node
    ensures node { tree_of result ≡ whole (pos number) }
    ensures range { number < 2 ^ 32 }
{
    Node::Whole(Whole::from_u64(u64::from(number)))
}

fn mapping_node(mapping: Option<u32>) -> Node
    ensures node { tree_of result ≡ document.mapping_tree mapping }
    ensures range { document.IsMapping mapping }
{
    match mapping {
        Some(number) => number_node(number),
        None => Node::Null,
    }
}

fn texts_node(alloc: Global, texts: &TextList) -> Result<Node, NoMemory>
    ensures { IfOk result (λ n. tree_of n ≡ list_of words texts.now) }
{
    let mut list = NodeList::new(alloc);
    for i in 0..texts.len() {
        list.push(Node::Words(texts.item(i).copy(alloc)?))?;
    }
    Ok(Node::Items(list))
}

// The object of these members and those that each record has.
fn with_name(
    alloc: Global,
    map: NodeMap,
    is: &str,
    node: &Text,
    id: Hex64,
) -> Result<Node, NoMemory>
    ensures node { IfOk result (λ n. tree_of n ≡ document.with_name is.now node.now id.value map) }
    ensures range { id.value < 2 ^ 64 }
{
    let mut map = map;
    put(alloc, &mut map, "id", id_node(alloc, id)?)?;
    put_text(alloc, &mut map, "node", node.as_str())?;
    put_text(alloc, &mut map, "is", is)?;
    Ok(Node::Members(map))
}

fn opened_node(alloc: Global, context: &Context) -> Result<Node, NoMemory>
    ensures node { IfOk result (λ n. tree_of n ≡ document.record_tree (spec.Opened (context_view context.now))) }
    ensures range { IfOk result (λ _. document.IsContext (context_view context.now)) }
{
    let _mappings = context.policy.len();
    let mut map = NodeMap::new(alloc);
    put(
        alloc,
        &mut map,
        "peer_ipx",
        texts_node(alloc, &context.peer_ipx)?,
    )?;
    put(
        alloc,
        &mut map,
        "own_ipx",
        texts_node(alloc, &context.own_ipx)?,
    )?;
    put(
        alloc,
        &mut map,
        "policy",
        policy_doc(alloc, &context.policy)?,
    )?;
    put_text(alloc, &mut map, "suite", suite_word(context.suite))?;
    put_text(alloc, &mut map, "plmn", context.plmn.as_str())?;
    put(alloc, &mut map, "peer", id_node(alloc, context.peer)?)?;
    put_text(alloc, &mut map, "peer_node", context.peer_node.as_str())?;
    with_name(alloc, map, "opened", &context.node, context.id)
}

fn keyed_node(alloc: Global, node: &Text, id: Hex64, keys: &KeySet) -> Result<Node, NoMemory>
    ensures node { IfOk result (λ n. tree_of n ≡ document.record_tree (spec.Keyed node.now id.value (key_set_view keys.now))) }
    ensures range { IfOk result (λ _. document.HasRange (spec.Keyed node.now id.value (key_set_view keys.now))) }
{
    let receive = key_pair_node(alloc, &keys.receive_request, &keys.receive_response)?;
    let send = key_pair_node(alloc, &keys.send_request, &keys.send_response)?;
    let mut map = NodeMap::new(alloc);
    put(alloc, &mut map, "receive", receive)?;
    put(alloc, &mut map, "send", send)?;
    put(alloc, &mut map, "first", number_node(keys.first))?;
    with_name(alloc, map, "keyed", node, id)
}

// The members of a message that was sent or delivered.
fn message_members(alloc: Global, message: Hex64, mapping: Option<u32>) -> Result<NodeMap, NoMemory>
    ensures range { IfOk result (λ _. (message.value < 2 ^ 64) × document.IsMapping mapping) }
    ensures members { IfOk result (λ m. m ≡ put_member (codes "message") (words (id_text message.value)) (put_member (codes "mapping") (document.mapping_tree mapping) no_members)) }
{
    let message = id_node(alloc, message)?;
    let mut map = NodeMap::new(alloc);
    put(alloc, &mut map, "mapping", mapping_node(mapping))?;
    put(alloc, &mut map, "message", message)?;
    Ok(map)
}

fn sent_node(
    alloc: Global,
    node: &Text,
    id: Hex64,
    kind: Kind,
    seq: u32,
    message: Hex64,
    mapping: Option<u32>,
) -> Result<Node, NoMemory>
    ensures node { IfOk result (λ n. tree_of n ≡ document.record_tree (spec.Sent node.now id.value (kind_view kind) seq message.value mapping)) }
    ensures range { IfOk result (λ _. document.HasRange (spec.Sent node.now id.value (kind_view kind) seq message.value mapping)) }
{
    let mut map = message_members(alloc, message, mapping)?;
    put(alloc, &mut map, "seq", number_node(seq))?;
    put_text(alloc, &mut map, "kind", kind_word(kind))?;
    with_name(alloc, map, "sent", node, id)
}

fn delivered_node(
    alloc: Global,
    node: &Text,
    id: Hex64,
    kind: Kind,
    message: Hex64,
    mapping: Option<u32>,
) -> Result<Node, NoMemory>
    ensures node { IfOk result (λ n. tree_of n ≡ document.record_tree (spec.Delivered node.now id.value (kind_view kind) message.value mapping)) }
    ensures range { IfOk result (λ _. document.HasRange (spec.Delivered node.now id.value (kind_view kind) message.value mapping)) }
{
    let mut map = message_members(alloc, message, mapping)?;
    put_text(alloc, &mut map, "kind", kind_word(kind))?;
    with_name(alloc, map, "delivered", node, id)
}

fn record_node(alloc: Global, item: &Record) -> Result<Node, NoMemory>
    ensures node { IfOk result (λ n. tree_of n ≡ document.record_tree (record_view item.now)) }
    ensures range { IfOk result (λ _. document.HasRange (record_view item.now)) }
{
    match item {
        Record::Offered { node, id } => {
            with_name(alloc, NodeMap::new(alloc), "offered", node, *id)
        }
        Record::Opened(context) => opened_node(alloc, context),
        Record::Keyed { node, id, keys } => keyed_node(alloc, node, *id, keys),
        Record::Sent {
            kind,
            seq,
            node,
            id,
            message,
            mapping,
        } => { sent_node(alloc, node, *id, *kind, *seq, *message, *mapping) }
        Record::Delivered {
            kind,
            node,
            id,
            message,
            mapping,
        } => { delivered_node(alloc, node, *id, *kind, *message, *mapping) }
        Record::Closed { node, id } => {
            with_name(alloc, NodeMap::new(alloc), "closed", node, *id)
        }
    }
}

/// The text of a record: the compact text of its document. It is read to the same record where the names of
/// nodes and intermediaries are in their grammar.
pub fn record_text(alloc: Global, item: &Record) -> Result<Bytes, NoMemory>
    ensures text { IfOk result (λ b. b ≡ written (record_view item.now)) }
    ensures reads_back { IfOk result (λ b. IsTrue (is_well_named (record_view item.now)) → ReadsRecord b (record_view item.now)) }
{
    written_record_is_read();
    let node = record_node(alloc, item)?;
    let text = doc_text(alloc, &node)?;
    Ok(text)
}
