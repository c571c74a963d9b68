// Documents are made.
ghost use Rattle.std.specs.Prelude.{◌≡◌, map, codes, IfOk, OnOk};
ghost use Rattle.spec_documents.specs.Tree.{words, put_member};
ghost use Rattle.spec_documents.specs.Ids.{id_text};
ghost use Rattle.spec_messages.specs.PolicyDocument.{list_of};
ghost use Rattle.spec_sealing.specs.Suites.{suite_name};
ghost use Rattle.n32_values.specs.View.{tree_of};
ghost use Rattle.jwe_flat.specs.View.{suite_view};
ghost use Rattle.spec_handshake.specs.Documents as spec;
ghost use Rattle.n32c_handshake.specs.View.{capability_view, offer_view};
ghost use Rattle.spec_handshake.specs.Calls.{ask_of};

use crate::capability::{Capability, CapabilityList};
use crate::offer::Offer;
use crate::suites::SuiteList;
use doc_forms::{put, put_text};
use jwe_flat::Suite;
use n32_values::{
    Doc, Hex64, NoMemory, Node, NodeList, NodeMap, PlmnId, Text, TextList, hex64_text,
};
use policy_documents::policy_doc;
use spec_handshake::documents::written_document_is_read;
use std::alloc::Global;

fn id_node(alloc: Global, id: Hex64) -> Result<Node, NoMemory>
    ensures { IfOk result (λ n. tree_of n ≡ words (id_text id.value)) }
{
    Ok(Node::Words(hex64_text(alloc, id)?))
}

fn capabilities_node(alloc: Global, capabilities: &CapabilityList) -> Result<Node, NoMemory>
    ensures { IfOk result (λ n. tree_of n ≡ list_of (λ c. words (spec.capability_text c)) (map capability_view capabilities.now)) }
{
    let mut list = NodeList::new(alloc);
    for i in 0..capabilities.len() {
        let word = Text::from_text(alloc, capabilities.item(i).name())?;
        list.push(Node::Words(word))?;
    }
    Ok(Node::Items(list))
}

fn suites_node(alloc: Global, suites: &SuiteList) -> Result<Node, NoMemory>
    ensures { IfOk result (λ n. tree_of n ≡ list_of (λ s. words (suite_name s)) (map suite_view suites.now)) }
{
    let mut list = NodeList::new(alloc);
    for i in 0..suites.len() {
        let word = Text::from_text(alloc, suites.item(i).name())?;
        list.push(Node::Words(word))?;
    }
    Ok(Node::Items(list))
}

fn provider_node(alloc: Global, identity: &Text) -> Result<Node, NoMemory>
    ensures { IfOk result (λ n. tree_of n ≡ spec.provider_tree identity.now) }
{
    let mut map = NodeMap::new(alloc);
    put_text(alloc, &mut map, "ipxProviderId", identity.as_str())?;
    Ok(Node::Members(map))
}

fn providers_node(alloc: Global, identities: &TextList) -> Result<Node, NoMemory>
    ensures { IfOk result (λ n. tree_of n ≡ list_of spec.provider_tree identities.now) }
{
    let mut list = NodeList::new(alloc);
    for i in 0..identities.len() {
        let provider = provider_node(alloc, identities.item(i))?;
        list.push(provider)?;
    }
    Ok(Node::Items(list))
}

// The document of an exchange with these parameters.
fn exchange_node(
    alloc: Global,
    api: &str,
    call: Hex64,
    side: &str,
    parameters: NodeMap,
) -> Result<Node, NoMemory>
    ensures { IfOk result (λ n. tree_of n ≡ spec.exchange_tree api.now call.value side.now parameters) }
{
    let mut map = NodeMap::new(alloc);
    put(alloc, &mut map, side, Node::Members(parameters))?;
    put(alloc, &mut map, "call", id_node(alloc, call)?)?;
    put_text(alloc, &mut map, "api", api)?;
    Ok(Node::Members(map))
}

fn termination_node(alloc: Global, side: &str, id: Hex64) -> Result<Node, NoMemory>
    ensures { IfOk result (λ n. tree_of n ≡ spec.termination_tree side.now id.value) }
{
    let mut parameters = NodeMap::new(alloc);
    put(alloc, &mut parameters, "n32fContextId", id_node(alloc, id)?)?;
    let mut map = NodeMap::new(alloc);
    put(alloc, &mut map, side, Node::Members(parameters))?;
    put_text(alloc, &mut map, "api", "n32f-terminate")?;
    Ok(Node::Members(map))
}

fn supports_node(
    alloc: Global,
    call: Hex64,
    sender: &Text,
    capabilities: &CapabilityList,
) -> Result<Node, NoMemory>
    ensures { IfOk result (λ n. tree_of n ≡ spec.document_tree (spec.Supports call.value sender.now (map capability_view capabilities.now))) }
{
    let list = capabilities_node(alloc, capabilities)?;
    let mut map = NodeMap::new(alloc);
    put(alloc, &mut map, "supportedSecCapabilityList", list)?;
    put_text(alloc, &mut map, "sender", sender.as_str())?;
    exchange_node(alloc, "exchange-capability", call, "request", map)
}

/// The document that tells what capabilities the sender has.
pub(crate) fn supports_doc(
    alloc: Global,
    call: Hex64,
    sender: &Text,
    capabilities: &CapabilityList,
) -> Result<Doc, NoMemory>
    ensures { IfOk result (λ d. d ≡ spec.document_tree (spec.Supports call.value sender.now (map capability_view capabilities.now))) }
{
    written_document_is_read();
    let node = supports_node(alloc, call, sender, capabilities)?;
    Ok(Doc::from_shallow(node))
}

/// The document that tells which capability the sender has chosen.
pub(crate) fn chooses_doc(
    alloc: Global,
    call: Hex64,
    sender: &Text,
    capability: Capability,
) -> Result<Doc, NoMemory>
    ensures { IfOk result (λ d. d ≡ spec.document_tree (spec.Chooses call.value sender.now (capability_view capability))) }
{
    written_document_is_read();
    let mut map = NodeMap::new(alloc);
    put_text(alloc, &mut map, "sender", sender.as_str())?;
    put_text(alloc, &mut map, "selectedSecCapability", capability.name())?;
    let node = exchange_node(alloc, "exchange-capability", call, "response", map)?;
    Ok(Doc::from_shallow(node))
}

// The parameters that both documents of an exchange of parameters begin with, behind these.
fn put_parameters(
    alloc: Global,
    map: &mut NodeMap,
    plmn: &PlmnId,
    id: Hex64,
) -> Result<(), NoMemory>
    ensures { OnOk result (map.new ≡ put_member (codes "n32fContextId") (words (id_text id.value)) (put_member (codes "plmn") (words plmn.now) map.old)) }
{
    put_text(alloc, map, "plmn", plmn.as_str())?;
    put(alloc, map, "n32fContextId", id_node(alloc, id)?)?;
    Ok(())
}

fn asks_node(alloc: Global, node: &Text, plmn: &PlmnId, offer: &Offer) -> Result<Node, NoMemory>
    ensures { IfOk result (λ n. tree_of n ≡ spec.document_tree (spec.Asks (ask_of node.now plmn.now (offer_view offer.now)))) }
{
    let providers = providers_node(alloc, &offer.ipx)?;
    let suites = suites_node(alloc, &offer.suites)?;
    let policy = policy_doc(alloc, &offer.policy)?;
    let mut map = NodeMap::new(alloc);
    put_text(alloc, &mut map, "sender", node.as_str())?;
    put(alloc, &mut map, "protectionPolicyInfo", policy)?;
    put_parameters(alloc, &mut map, plmn, offer.id)?;
    put(alloc, &mut map, "jweCipherSuiteList", suites)?;
    put(alloc, &mut map, "ipxProviderSecInfoList", providers)?;
    exchange_node(alloc, "exchange-params", offer.id, "request", map)
}

/// The document that asks for an offer's parameters.
pub(crate) fn asks_doc(
    alloc: Global,
    node: &Text,
    plmn: &PlmnId,
    offer: &Offer,
) -> Result<Doc, NoMemory>
    ensures { IfOk result (λ d. d ≡ spec.document_tree (spec.Asks (ask_of node.now plmn.now (offer_view offer.now)))) }
{
    written_document_is_read();
    let document = asks_node(alloc, node, plmn, offer)?;
    Ok(Doc::from_shallow(document))
}

fn selects_node(
    alloc: Global,
    node: &Text,
    plmn: &PlmnId,
    offer: &Offer,
    call: Hex64,
    suite: Suite,
) -> Result<Node, NoMemory>
    ensures { IfOk result (λ n. tree_of n ≡ spec.document_tree (spec.Selects (record { call = call.value; sender = node.now; id = offer.now.id.value; plmn = plmn.now; suite = suite_view suite; policy = offer.now.policy; ipx = offer.now.ipx }))) }
{
    let providers = providers_node(alloc, &offer.ipx)?;
    let policy = policy_doc(alloc, &offer.policy)?;
    let mut map = NodeMap::new(alloc);
    put_text(alloc, &mut map, "sender", node.as_str())?;
    put_text(alloc, &mut map, "selectedJweCipherSuite", suite.name())?;
    put(alloc, &mut map, "selProtectionPolicyInfo", policy)?;
    put_parameters(alloc, &mut map, plmn, offer.id)?;
    put(alloc, &mut map, "ipxProviderSecInfoList", providers)?;
    exchange_node(alloc, "exchange-params", call, "response", map)
}

/// The document that selects parameters for the call of that id.
pub(crate) fn selects_doc(
    alloc: Global,
    node: &Text,
    plmn: &PlmnId,
    offer: &Offer,
    call: Hex64,
    suite: Suite,
) -> Result<Doc, NoMemory>
    ensures { IfOk result (λ d. d ≡ spec.document_tree (spec.Selects (record { call = call.value; sender = node.now; id = offer.now.id.value; plmn = plmn.now; suite = suite_view suite; policy = offer.now.policy; ipx = offer.now.ipx }))) }
{
    written_document_is_read();
    let document = selects_node(alloc, node, plmn, offer, call, suite)?;
    Ok(Doc::from_shallow(document))
}

/// The document that ends the peer's context of that id.
pub(crate) fn terminates_doc(alloc: Global, id: Hex64) -> Result<Doc, NoMemory>
    ensures { IfOk result (λ d. d ≡ spec.document_tree (spec.Terminates id.value)) }
{
    written_document_is_read();
    let node = termination_node(alloc, "request", id)?;
    Ok(Doc::from_shallow(node))
}

/// The document that tells the peer that its context of that id has ended.
pub(crate) fn terminated_doc(alloc: Global, id: Hex64) -> Result<Doc, NoMemory>
    ensures { IfOk result (λ d. d ≡ spec.document_tree (spec.Terminated id.value)) }
{
    written_document_is_read();
    let node = termination_node(alloc, "response", id)?;
    Ok(Doc::from_shallow(node))
}
