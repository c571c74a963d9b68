// What a step of a handshake gives, and how a refusal of it is told.
ghost use Rattle.std.specs.Prelude.{IfSome, IsTrue};
ghost use Rattle.spec_records.specs.RecordDocument.{are_ipx};

use context_records::words::read_ipx;
use n32_values::{
    Doc, Hex64, Node, NodeList, NodeMap, PlmnId, Text, TextList, copy_doc, read_hex64, read_plmn,
};
use n32c_handshake::{HandFault, HandRefusal, Offer, read_capabilities, read_suites};
use policy_documents::{Policy, read_policy};
use std::alloc::Global;
use worked_rows::{fault_node, map_node, member_node, number_node, number_of, put_part};

/// What a step gives, each where it has it.
#[derive(Drop)]
pub struct Step {
    pub node: Option<Text>,
    pub peer: Option<Text>,
    pub plmn: Option<PlmnId>,
    pub document: Option<Doc>,
    pub id: Option<Hex64>,
}

fn text_of(alloc: Global, node: Option<&Node>) -> Option<Text> {
    match node {
        Some(Node::Words(text)) => text.copy(alloc).ok(),
        _ => None,
    }
}

fn plmn_of(alloc: Global, node: Option<&Node>) -> Option<PlmnId> {
    match node {
        Some(Node::Words(text)) => match read_plmn(alloc, text.as_str()) {
            Ok(plmn) => plmn,
            Err(_) => None,
        },
        _ => None,
    }
}

fn id_of(node: Option<&Node>) -> Option<Hex64> {
    match node {
        Some(Node::Words(text)) => read_hex64(text.as_str()),
        _ => None,
    }
}

// The document of that number.
fn wire_of<'a>(wires: &'a NodeList, node: &Node) -> Option<&'a Node> {
    match number_of(node) {
        Some(number) => wires.get(number as usize),
        None => None,
    }
}

fn doc_of(alloc: Global, node: &Node) -> Option<Doc> {
    match copy_doc(alloc, node) {
        Ok(node) => Doc::new(node).ok(),
        Err(_) => None,
    }
}

// The document of number `wire`, or `document` itself.
fn document_of(alloc: Global, wires: &NodeList, map: &NodeMap) -> Option<Doc> {
    match (map.get("wire"), map.get("document")) {
        (Some(number), None) => doc_of(alloc, wire_of(wires, number)?),
        (None, Some(document)) => doc_of(alloc, document),
        _ => None,
    }
}

/// What a step gives, over the documents that were made.
pub fn read_step(alloc: Global, map: &NodeMap, wires: &NodeList) -> Step {
    Step {
        node: text_of(alloc, map.get("node")),
        peer: text_of(alloc, map.get("peer")),
        plmn: plmn_of(alloc, map.get("plmn")),
        document: document_of(alloc, wires, map),
        id: id_of(map.get("id")),
    }
}

// ---- offers

// The intermediaries of an offer, in their form.
fn ipx_in(alloc: Global, map: &NodeMap) -> Option<TextList>
    ensures { IfSome result (λ ipx. IsTrue (are_ipx ipx)) }
{
    match read_ipx(alloc, map.get("ipx")) {
        Ok(ipx) => Some(ipx),
        Err(_) => None,
    }
}

fn policy_of(alloc: Global, map: &NodeMap) -> Option<Policy> {
    read_policy(alloc, map.get("policy")?).ok()
}

fn offer_of(alloc: Global, map: &NodeMap, id: Hex64, ipx: TextList) -> Option<Offer>
    requires { IsTrue (are_ipx ipx) }
    ensures { IfSome result (λ offer. IsTrue (are_ipx offer.ipx)) }
{
    let capabilities = read_capabilities(alloc, map.get("capabilities"));
    let suites = read_suites(alloc, map.get("suites"));
    match (capabilities, suites, policy_of(alloc, map)) {
        (Ok(capabilities), Ok(suites), Some(policy)) => Some(Offer {
            id,
            capabilities,
            suites,
            policy,
            ipx,
        }),
        _ => None,
    }
}

/// An offer, whose intermediaries have their form.
pub fn offer_in(alloc: Global, node: Option<&Node>) -> Option<Offer>
    ensures { IfSome result (λ offer. IsTrue (are_ipx offer.ipx)) }
{
    match node {
        Some(Node::Members(map)) => match (id_of(map.get("id")), ipx_in(alloc, map)) {
            (Some(id), Some(ipx)) => offer_of(alloc, map, id, ipx),
            _ => None,
        },
        _ => None,
    }
}

// ---- refusals

// One side of a difference, or null.
fn side_node(side: Option<Doc>) -> Node {
    match side {
        Some(doc) => doc.into_node(),
        None => Node::Null,
    }
}

fn put_mappings(
    alloc: Global,
    map: &mut NodeMap,
    number: u32,
    own: Option<Doc>,
    other: Option<Doc>,
) -> Option<()> {
    put_part(alloc, map, "mapping", Some(number_node(number)))?;
    put_part(alloc, map, "own", Some(side_node(own)))?;
    put_part(alloc, map, "other", Some(side_node(other)))
}

// As `{"mapping":0,"other":null,"own":{..}}`.
fn mappings_node(alloc: Global, number: u32, own: Option<Doc>, other: Option<Doc>) -> Option<Node> {
    let mut map = NodeMap::new(alloc);
    let done = put_mappings(alloc, &mut map, number, own, other);
    map_node(map, done)
}

// A refusal by its member, its mappings or `types`, and else by its name.
fn refused_node(alloc: Global, refusal: HandRefusal) -> Option<Node> {
    match refusal {
        HandRefusal::Form(member) => fault_node(alloc, member.name()),
        HandRefusal::MappingDiffers { number, own, other } => {
            mappings_node(alloc, number, own, other)
        }
        HandRefusal::TypesDiffer => member_node(alloc, "types", Node::Null),
        other => fault_node(alloc, other.name()),
    }
}

/// Why a call of a handshake gives nothing.
pub fn refusal_node(alloc: Global, fault: HandFault) -> Option<Node> {
    match fault {
        HandFault::Refused(refusal) => refused_node(alloc, refusal),
        HandFault::Journal(_) => fault_node(alloc, "JOURNAL"),
        HandFault::Keeper => fault_node(alloc, "KEEPER"),
        HandFault::NoMemory => None,
    }
}
