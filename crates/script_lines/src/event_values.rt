// The members of events.
ghost use Rattle.std.specs.Prelude.{◌≡◌, map as list_map, option_map};
ghost use Rattle.n32_values.specs.View.{tree_of};
ghost use Rattle.json_patch6902.specs.View.{op_view};
ghost use Rattle.context_records.specs.View.{suite_view, key_pair_view};
ghost use Rattle.spec_script.specs.Events as spec;
ghost use Rattle.spec_records.specs.RecordDocument as document;
ghost use Rattle.script_lines.specs.EventMembers.{member_name};
ghost use Rattle.script_lines.specs.EventReading.{Gives};

use crate::event_fault::{EventRead, of_member};
use crate::event_member::EventMember;
use context_records::OneKey;
use context_records::keys::read_key_pair;
use context_records::words::{
    number_of, read_id, read_ipx, read_network, read_node_name, read_suite,
};
use doc_forms::{Grammar, text_at};
use json_patch6902::{OpList, OpsRead, read_ops};
use jwe_flat::Suite;
use n32_values::{Hex64, Node, NodeList, NodeMap, PlmnId, Text, TextList, Whole, read_hex64};
use std::alloc::Global;

#[tactic(auto, using(crate::proofs::Told::told))]
pub(crate) fn name_at(alloc: Global, map: &NodeMap, member: EventMember) -> Result<Text, EventRead>
    ensures { Gives (λ t. t) result (spec.read_at spec.node_in (member_name member) map.now) }
{
    of_member(read_node_name(alloc, map, member.name()), member)
}

pub(crate) fn identity_at(
    alloc: Global,
    map: &NodeMap,
    member: EventMember,
) -> Result<Text, EventRead>
    ensures { Gives (λ t. t) result (spec.read_at spec.identity_in (member_name member) map.now) }
{
    match text_at(map, member.name(), Grammar::Identity) {
        Some(identity) => Ok(Text::from_text(alloc, identity)?),
        None => Err(EventRead::Member(member)),
    }
}

#[tactic(auto, using(crate::proofs::Told::told))]
pub(crate) fn id_at(map: &NodeMap, member: EventMember) -> Result<Hex64, EventRead>
    ensures { Gives (λ id. id.value) result (spec.read_at spec.id_in (member_name member) map.now) }
{
    of_member(read_id(map.get(member.name())), member)
}

#[tactic(auto, using(crate::proofs::Told::told))]
pub(crate) fn network_at(
    alloc: Global,
    map: &NodeMap,
    member: EventMember,
) -> Result<PlmnId, EventRead>
    ensures { Gives (λ p. p) result (spec.read_at spec.plmn_in (member_name member) map.now) }
{
    of_member(read_network(alloc, map.get(member.name())), member)
}

#[tactic(auto, using(crate::proofs::Told::told))]
pub(crate) fn suite_at(map: &NodeMap, member: EventMember) -> Result<Suite, EventRead>
    ensures { Gives suite_view result (spec.read_at spec.suite_in (member_name member) map.now) }
{
    of_member(read_suite(map.get(member.name())), member)
}

#[tactic(auto, using(crate::proofs::Told::told))]
pub(crate) fn ipx_at(
    alloc: Global,
    map: &NodeMap,
    member: EventMember,
) -> Result<TextList, EventRead>
    ensures { Gives (λ ts. ts) result (spec.read_at document.ipx_in (member_name member) map.now) }
{
    of_member(read_ipx(alloc, map.get(member.name())), member)
}

// The keys of a direction, for requests and for responses.
#[tactic(auto, using(crate::proofs::Told::told_pair))]
pub(crate) fn key_pair_at(map: &NodeMap, member: EventMember) -> Result<(OneKey, OneKey), EventRead>
    ensures { Gives key_pair_view result (spec.read_at spec.pair_in (member_name member) map.now) }
{
    of_member(read_key_pair(map.get(member.name())), member)
}

// The first sequence number, where it is given.
pub(crate) fn first_at(map: &NodeMap, member: EventMember) -> Result<Option<u32>, EventRead>
    ensures { Gives (λ n. n) result (spec.read_at spec.first_in (member_name member) map.now) }
{
    let Some(node) = map.get(member.name()) else {
        return Ok(None);
    };
    match number_of(node) {
        Some(number) => Ok(Some(number)),
        None => Err(EventRead::Member(member)),
    }
}

// The id of the request that a message answers, where it is given.
pub(crate) fn answers_at(map: &NodeMap, member: EventMember) -> Result<Option<Hex64>, EventRead>
    ensures { Gives (λ o. option_map (λ i. i.value) o) result (spec.read_at spec.answers_in (member_name member) map.now) }
{
    let Some(node) = map.get(member.name()) else {
        return Ok(None);
    };
    let Node::Words(text) = node else {
        return Err(EventRead::Member(member));
    };
    match read_hex64(text.as_str()) {
        Some(id) => Ok(Some(id)),
        None => Err(EventRead::Member(member)),
    }
}

pub(crate) fn whole_at(map: &NodeMap, member: EventMember) -> Result<Whole, EventRead>
    ensures { Gives (λ z. z) result (spec.read_at spec.whole_in (member_name member) map.now) }
{
    match map.get(member.name()) {
        Some(Node::Whole(number)) => Ok(*number),
        _ => Err(EventRead::Member(member)),
    }
}

// The node that a document on the wire reaches, and the document's number.
pub(crate) fn reached(alloc: Global, map: &NodeMap) -> Result<(Text, Whole), EventRead>
    ensures { Gives (λ r. (r.0, r.1)) result (spec.reached map.now) }
{
    let node = name_at(alloc, map, EventMember::Node)?;
    let wire = whole_at(map, EventMember::Wire)?;
    Ok((node, wire))
}

// The operations of a patch (RFC 6902).
pub(crate) fn ops_at(alloc: Global, map: &NodeMap, member: EventMember) -> Result<OpList, EventRead>
    ensures { Gives (λ ops. list_map op_view ops) result (spec.read_at spec.ops_in (member_name member) map.now) }
{
    let Some(node) = map.get(member.name()) else {
        return Err(EventRead::Member(member));
    };
    match read_ops(alloc, node) {
        Ok(operations) => Ok(operations),
        Err(OpsRead::Form(_)) => Err(EventRead::Member(member)),
        Err(OpsRead::NoMemory) => Err(EventRead::NoMemory),
    }
}

// A value of any form, taken out, or no operation where it is absent.
pub(crate) fn take_operations(
    alloc: Global,
    map: &mut NodeMap,
    member: EventMember,
) -> Result<Node, EventRead>
    ensures { Gives tree_of result (spec.read_at spec.passed_in (member_name member) map.old) }
{
    match map.take(member.name()) {
        Some(node) => Ok(node),
        None => Ok(Node::Items(NodeList::new(alloc))),
    }
}

// A value of any form.
pub(crate) fn value_at<'a>(map: &'a NodeMap, member: EventMember) -> Result<&'a Node, EventRead>
    ensures { Gives (λ n. tree_of n.now) result (spec.read_at spec.any_value (member_name member) map.now) }
{
    match map.get(member.name()) {
        Some(node) => Ok(node),
        None => Err(EventRead::Member(member)),
    }
}

// The same, taken out.
pub(crate) fn take(map: &mut NodeMap, member: EventMember) -> Result<Node, EventRead>
    ensures { Gives tree_of result (spec.read_at spec.any_value (member_name member) map.old) }
{
    match map.take(member.name()) {
        Some(node) => Ok(node),
        None => Err(EventRead::Member(member)),
    }
}
