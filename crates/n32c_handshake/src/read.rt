// Documents are read.
ghost use Rattle.std.specs.Prelude.{◌≡◌, IfOk, map as list_map};
ghost use Rattle.spec_documents.specs.Gives.{Gives};
ghost use Rattle.n32_values.specs.View.{tree_of};
ghost use Rattle.spec_messages.specs.PolicyDocument.{chosen};
ghost use Rattle.spec_records.specs.RecordDocument as document;
ghost use Rattle.jwe_flat.specs.View.{suite_view};
ghost use Rattle.spec_documents.specs.Ids.{plmn_of};
ghost use Rattle.spec_handshake.specs.Documents as spec;
ghost use Rattle.spec_handshake.specs.Forms.{IsNamed};
ghost use Rattle.n32c_handshake.specs.Members.{member_name};
ghost use Rattle.n32c_handshake.specs.View.{capability_view, document_view};
ghost use Rattle.n32c_handshake.specs.Reading.{told, content_view, of_member as as_member};

use crate::capability::{Capability, CapabilityList, capability_of};
use crate::document::{Ask, HandDocument, Selection};
use crate::lists::{providers_at, read_capabilities, read_suites};
use crate::member::HandMember;
use crate::suites::SuiteList;
use context_records::RecordRead;
use context_records::words::{read_id, read_network, read_node_name, read_suite};
use doc_forms::{Grammar, text_at};
use jwe_flat::Suite;
use n32_values::{Hex64, NoMemory, Node, NodeMap, PlmnId, Text};
use policy_documents::{Policy, PolicyRead, read_policy};
use spec_handshake::documents::what_is_read_is_named;
use std::alloc::Global;

/// Why a document is read to nothing.
#[derive(Clone, Copy, Debug, PartialEq, Eq, Drop)]
pub(crate) enum DocumentRead {
    /// This is the first member that is missing or has not its form.
    Member(HandMember),
    /// Memory was refused.
    NoMemory,
}

impl From<NoMemory> for DocumentRead {
    ghost use Rattle.std.specs.Prelude.{◌≡◌};
    ghost use Rattle.n32c_handshake.specs.declared.read.DocumentRead.TheVariants.{NoMemory as refused_memory};

    ghost from_gives = { λ _ e. e ≡ refused_memory };

    fn from(_refused: NoMemory) -> DocumentRead {
        DocumentRead::NoMemory
    }
}

fn of_member<T>(read: Result<T, RecordRead>, member: HandMember) -> Result<T, DocumentRead>
    ensures { result ≡ as_member member read }
{
    match read {
        Ok(value) => Ok(value),
        Err(RecordRead::Form) => Err(DocumentRead::Member(member)),
        Err(RecordRead::NoMemory) => Err(DocumentRead::NoMemory),
    }
}

#[tactic(auto, using(crate::proofs::Told::told_member))]
fn id_at(map: &NodeMap, member: HandMember) -> Result<Hex64, DocumentRead>
    ensures { Gives told (λ id. id.value) result (spec.read_at spec.id_in (member_name member) map.now) }
{
    of_member(read_id(map.get(member.name())), member)
}

#[tactic(auto, using(crate::proofs::Told::told_member))]
fn sender_at(alloc: Global, map: &NodeMap, member: HandMember) -> Result<Text, DocumentRead>
    ensures { Gives told (λ t. t) result (spec.read_at spec.sender_in (member_name member) map.now) }
{
    of_member(read_node_name(alloc, map, member.name()), member)
}

#[tactic(auto, using(crate::proofs::Told::told_member))]
fn network_at(alloc: Global, map: &NodeMap, member: HandMember) -> Result<PlmnId, DocumentRead>
    ensures { Gives told (λ p. p) result (spec.read_at (chosen plmn_of) (member_name member) map.now) }
{
    of_member(read_network(alloc, map.get(member.name())), member)
}

#[tactic(auto, using(crate::proofs::Told::told_member))]
fn suite_at(map: &NodeMap, member: HandMember) -> Result<Suite, DocumentRead>
    ensures { Gives told suite_view result (spec.read_at (chosen document.suite_of) (member_name member) map.now) }
{
    of_member(read_suite(map.get(member.name())), member)
}

#[tactic(auto, using(crate::proofs::Told::told_member))]
fn capabilities_at(
    alloc: Global,
    map: &NodeMap,
    member: HandMember,
) -> Result<CapabilityList, DocumentRead>
    ensures { Gives told (list_map capability_view) result (spec.read_at (spec.words_in spec.capability_of) (member_name member) map.now) }
{
    of_member(read_capabilities(alloc, map.get(member.name())), member)
}

#[tactic(auto, using(crate::proofs::Told::told_member))]
fn suites_at(alloc: Global, map: &NodeMap, member: HandMember) -> Result<SuiteList, DocumentRead>
    ensures { Gives told (list_map suite_view) result (spec.read_at (spec.words_in document.suite_of) (member_name member) map.now) }
{
    of_member(read_suites(alloc, map.get(member.name())), member)
}

fn capability_at(map: &NodeMap, member: HandMember) -> Result<Capability, DocumentRead>
    ensures { Gives told capability_view result (spec.read_at (chosen spec.capability_of) (member_name member) map.now) }
{
    if let Some(Node::Words(text)) = map.get(member.name()) {
        if let Some(capability) = capability_of(text.as_str()) {
            return Ok(capability);
        }
    }
    Err(DocumentRead::Member(member))
}

fn policy_at(alloc: Global, map: &NodeMap, member: HandMember) -> Result<Policy, DocumentRead>
    ensures { Gives told (λ p. p) result (spec.read_at document.policy_in (member_name member) map.now) }
{
    let Some(node) = map.get(member.name()) else {
        return Err(DocumentRead::Member(member));
    };
    match read_policy(alloc, node) {
        Ok(policy) => Ok(policy),
        Err(PolicyRead::Form(_)) => Err(DocumentRead::Member(member)),
        Err(PolicyRead::NoMemory) => Err(DocumentRead::NoMemory),
    }
}

// ---- what documents carry

fn read_supports(alloc: Global, call: Hex64, map: &NodeMap) -> Result<HandDocument, DocumentRead>
    ensures { Gives told document_view result (spec.capability_document call.value (spec.Request map.now)) }
{
    let sender = sender_at(alloc, map, HandMember::Sender)?;
    let capabilities = capabilities_at(alloc, map, HandMember::Capabilities)?;
    Ok(HandDocument::Supports {
        call,
        sender,
        capabilities,
    })
}

fn read_chooses(alloc: Global, call: Hex64, map: &NodeMap) -> Result<HandDocument, DocumentRead>
    ensures { Gives told document_view result (spec.capability_document call.value (spec.Response map.now)) }
{
    let capability = capability_at(map, HandMember::Capability)?;
    let sender = sender_at(alloc, map, HandMember::Sender)?;
    Ok(HandDocument::Chooses {
        call,
        sender,
        capability,
    })
}

fn read_asks(alloc: Global, call: Hex64, map: &NodeMap) -> Result<HandDocument, DocumentRead>
    ensures { Gives told document_view result (spec.parameters_document call.value (spec.Request map.now)) }
{
    let ipx = providers_at(alloc, map, HandMember::Providers)?;
    let suites = suites_at(alloc, map, HandMember::Suites)?;
    let id = id_at(map, HandMember::Context)?;
    let plmn = network_at(alloc, map, HandMember::Plmn)?;
    let policy = policy_at(alloc, map, HandMember::Policy)?;
    let sender = sender_at(alloc, map, HandMember::Sender)?;
    Ok(HandDocument::Asks(Ask {
        call,
        sender,
        id,
        plmn,
        suites,
        policy,
        ipx,
    }))
}

fn read_selects(alloc: Global, call: Hex64, map: &NodeMap) -> Result<HandDocument, DocumentRead>
    ensures { Gives told document_view result (spec.parameters_document call.value (spec.Response map.now)) }
{
    let ipx = providers_at(alloc, map, HandMember::Providers)?;
    let id = id_at(map, HandMember::Context)?;
    let plmn = network_at(alloc, map, HandMember::Plmn)?;
    let policy = policy_at(alloc, map, HandMember::SelectedPolicy)?;
    let suite = suite_at(map, HandMember::Suite)?;
    let sender = sender_at(alloc, map, HandMember::Sender)?;
    Ok(HandDocument::Selects(Selection {
        call,
        sender,
        id,
        plmn,
        suite,
        policy,
        ipx,
    }))
}

// ---- the document of an object

// The parameters, and whether they are a request's. Exactly one of the two members is there.
fn content_in(map: &NodeMap) -> Result<(bool, &NodeMap), DocumentRead>
    ensures { Gives told (λ p. content_view p.0 p.1.now) result (spec.content_of map.now) }
{
    match (map.get("request"), map.get("response")) {
        (Some(Node::Members(parameters)), None) => Ok((true, parameters)),
        (None, Some(Node::Members(parameters))) => Ok((false, parameters)),
        (None, Some(_)) => Err(DocumentRead::Member(HandMember::Response)),
        _ => Err(DocumentRead::Member(HandMember::Request)),
    }
}

fn read_capability(alloc: Global, map: &NodeMap) -> Result<HandDocument, DocumentRead>
    ensures { Gives told document_view result (spec.called map.now spec.capability_document) }
{
    let call = id_at(map, HandMember::Call)?;
    match content_in(map)? {
        (true, parameters) => read_supports(alloc, call, parameters),
        (false, parameters) => read_chooses(alloc, call, parameters),
    }
}

fn read_parameters(alloc: Global, map: &NodeMap) -> Result<HandDocument, DocumentRead>
    ensures { Gives told document_view result (spec.called map.now spec.parameters_document) }
{
    let call = id_at(map, HandMember::Call)?;
    match content_in(map)? {
        (true, parameters) => read_asks(alloc, call, parameters),
        (false, parameters) => read_selects(alloc, call, parameters),
    }
}

fn read_termination(map: &NodeMap) -> Result<HandDocument, DocumentRead>
    ensures { Gives told document_view result (spec.termination_of map.now) }
{
    match content_in(map)? {
        (true, parameters) => {
            let id = id_at(parameters, HandMember::Context)?;
            Ok(HandDocument::Terminates(id))
        }
        (false, parameters) => {
            let id = id_at(parameters, HandMember::Context)?;
            Ok(HandDocument::Terminated(id))
        }
    }
}

fn read_object(alloc: Global, map: &NodeMap) -> Result<HandDocument, DocumentRead>
    ensures { Gives told document_view result (spec.document_with map.now) }
{
    let Some(api) = text_at(map, "api", Grammar::Any) else {
        return Err(DocumentRead::Member(HandMember::Api));
    };
    if api == "exchange-capability" {
        read_capability(alloc, map)
    } else if api == "exchange-params" {
        read_parameters(alloc, map)
    } else if api == "n32f-terminate" {
        read_termination(map)
    } else {
        Err(DocumentRead::Member(HandMember::Api))
    }
}

/// The document of the handshake that a node is, or the first member, in the order of its text, that is missing or
/// has not its form. Other members are ignored.
pub(crate) fn read_document(alloc: Global, node: &Node) -> Result<HandDocument, DocumentRead>
    ensures document { Gives told document_view result (spec.document_of (tree_of node.now)) }
    ensures named { IfOk result (λ d. IsNamed (document_view d)) }
{
    what_is_read_is_named();
    read_any(alloc, node)
}

fn read_any(alloc: Global, node: &Node) -> Result<HandDocument, DocumentRead>
    ensures { Gives told document_view result (spec.document_of (tree_of node.now)) }
{
    match node {
        Node::Members(map) => read_object(alloc, map),
        _ => Err(DocumentRead::Member(HandMember::Api)),
    }
}
