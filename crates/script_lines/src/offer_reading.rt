// Documents are read to offers.
ghost use Rattle.std.specs.Prelude.{◌≡◌, map as list_map, codes};
ghost use Rattle.n32_values.specs.View.{tree_of};
ghost use Rattle.context_records.specs.View.{suite_view};
ghost use Rattle.n32c_handshake.specs.View.{capability_view};
ghost use Rattle.spec_records.specs.RecordDocument as document;
ghost use Rattle.spec_handshake.specs.Documents as documents;
ghost use Rattle.spec_script.specs.Offers as spec;
ghost use Rattle.script_lines.specs.EventReading.{Gives};
ghost use Rattle.script_lines.specs.View.{offer_view};

use crate::event_fault::{EventRead, of_member};
use crate::event_member::EventMember;
use crate::offer::HandedOffer;
use context_records::words::{read_id, read_ipx};
use n32_values::{Hex64, Node, NodeMap, TextList};
use n32c_handshake::{CapabilityList, SuiteList, read_capabilities, read_suites};
use std::alloc::Global;

#[tactic(auto, using(crate::proofs::Told::told))]
fn offered_id(map: &NodeMap) -> Result<Hex64, EventRead>
    ensures { Gives (λ id. id.value) result (spec.offered_at documents.id_in (codes "id") map.now) }
{
    of_member(read_id(map.get("id")), EventMember::Offer)
}

#[tactic(auto, using(crate::proofs::Told::told))]
fn offered_capabilities(alloc: Global, map: &NodeMap) -> Result<CapabilityList, EventRead>
    ensures { Gives (list_map capability_view) result (spec.offered_at (documents.words_in documents.capability_of) (codes "capabilities") map.now) }
{
    of_member(
        read_capabilities(alloc, map.get("capabilities")),
        EventMember::Offer,
    )
}

#[tactic(auto, using(crate::proofs::Told::told))]
fn offered_suites(alloc: Global, map: &NodeMap) -> Result<SuiteList, EventRead>
    ensures { Gives (list_map suite_view) result (spec.offered_at (documents.words_in document.suite_of) (codes "suites") map.now) }
{
    of_member(read_suites(alloc, map.get("suites")), EventMember::Offer)
}

// A value of any form is there.
fn check_policy(map: &NodeMap) -> Result<&Node, EventRead>
    ensures { Gives (λ n. tree_of n.now) result (spec.offered_at spec.any_policy (codes "policy") map.now) }
{
    match map.get("policy") {
        Some(node) => Ok(node),
        None => Err(EventRead::Member(EventMember::Offer)),
    }
}

// The same, taken out.
fn take_policy(map: &mut NodeMap) -> Result<Node, EventRead>
    ensures { Gives tree_of result (spec.offered_at spec.any_policy (codes "policy") map.old) }
{
    match map.take("policy") {
        Some(node) => Ok(node),
        None => Err(EventRead::Member(EventMember::Offer)),
    }
}

#[tactic(auto, using(crate::proofs::Told::told))]
fn offered_ipx(alloc: Global, map: &NodeMap) -> Result<TextList, EventRead>
    ensures { Gives (λ ts. ts) result (spec.offered_at document.ipx_in (codes "ipx") map.now) }
{
    of_member(read_ipx(alloc, map.get("ipx")), EventMember::Offer)
}

fn read_offer(alloc: Global, map: NodeMap) -> Result<HandedOffer, EventRead>
    ensures { Gives offer_view result (spec.offer_with map) }
{
    let mut map = map;
    let id = offered_id(&map)?;
    let capabilities = offered_capabilities(alloc, &map)?;
    let suites = offered_suites(alloc, &map)?;
    let _ = check_policy(&map)?;
    let ipx = offered_ipx(alloc, &map)?;
    let policy = take_policy(&mut map)?;
    Ok(HandedOffer {
        id,
        capabilities,
        suites,
        policy,
        ipx,
    })
}

/// The offer of an event, taken out.
pub(crate) fn take_offer(alloc: Global, map: &mut NodeMap) -> Result<HandedOffer, EventRead>
    ensures { Gives offer_view result (spec.offer_in map.old) }
{
    match map.take(EventMember::Offer.name()) {
        Some(Node::Members(offer)) => read_offer(alloc, offer),
        _ => Err(EventRead::Member(EventMember::Offer)),
    }
}
