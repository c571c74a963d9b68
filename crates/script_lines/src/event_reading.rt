// Documents are read to events.
ghost use Rattle.std.specs.Prelude.{◌≡◌};
ghost use Rattle.n32_values.specs.View.{tree_of};
ghost use Rattle.spec_script.specs.Events as spec;
ghost use Rattle.script_lines.specs.View.{event_view};
ghost use Rattle.script_lines.specs.EventReading.{Gives};

use crate::event::{Event, HandedContext};
use crate::event_fault::EventRead;
use crate::event_kind::{EventKind, kind_of};
use crate::event_member::EventMember;
use crate::event_values::{
    answers_at, first_at, id_at, identity_at, ipx_at, key_pair_at, name_at, network_at, ops_at,
    reached, suite_at, take, take_operations, value_at, whole_at,
};
use crate::hand_reading::{read_answer, read_ended, read_finish, read_start, read_terminate};
use context_records::KeySet;
use n32_values::{Doc, Node, NodeMap};
use std::alloc::Global;

fn read_added_node(alloc: Global, map: &NodeMap) -> Result<Event, EventRead>
    ensures { Gives event_view result (spec.node_event map.now) }
{
    let node = name_at(alloc, map, EventMember::Node)?;
    let plmn = network_at(alloc, map, EventMember::Plmn)?;
    Ok(Event::Node { node, plmn })
}

fn read_context(alloc: Global, map: NodeMap) -> Result<Event, EventRead>
    ensures { Gives event_view result (spec.context_event map) }
{
    let mut map = map;
    let node = name_at(alloc, &map, EventMember::Node)?;
    let id = id_at(&map, EventMember::Id)?;
    let peer_node = name_at(alloc, &map, EventMember::PeerNode)?;
    let peer = id_at(&map, EventMember::Peer)?;
    let plmn = network_at(alloc, &map, EventMember::Plmn)?;
    let suite = suite_at(&map, EventMember::Suite)?;
    let _ = value_at(&map, EventMember::Policy)?;
    let own_ipx = ipx_at(alloc, &map, EventMember::OwnIpx)?;
    let peer_ipx = ipx_at(alloc, &map, EventMember::PeerIpx)?;
    let policy = take(&mut map, EventMember::Policy)?;
    Ok(Event::Context(HandedContext {
        node,
        id,
        peer_node,
        peer,
        plmn,
        suite,
        policy,
        own_ipx,
        peer_ipx,
    }))
}

fn read_keys(alloc: Global, map: &NodeMap) -> Result<Event, EventRead>
    ensures { Gives event_view result (spec.keys_event map.now) }
{
    let node = name_at(alloc, map, EventMember::Node)?;
    let id = id_at(map, EventMember::Id)?;
    let (send_request, send_response) = key_pair_at(map, EventMember::Send)?;
    let (receive_request, receive_response) = key_pair_at(map, EventMember::Receive)?;
    let first = first_at(map, EventMember::First)?;
    let keys = KeySet {
        send_request,
        send_response,
        receive_request,
        receive_response,
        first: first.unwrap_or(0),
    };
    Ok(Event::Keys { node, id, keys })
}

fn read_send(alloc: Global, map: NodeMap) -> Result<Event, EventRead>
    ensures { Gives event_view result (spec.send_event map) }
{
    let mut map = map;
    let node = name_at(alloc, &map, EventMember::Node)?;
    let id = id_at(&map, EventMember::Id)?;
    let _ = value_at(&map, EventMember::Message)?;
    let answers = answers_at(&map, EventMember::Answers)?;
    let message = take(&mut map, EventMember::Message)?;
    Ok(Event::Send {
        node,
        id,
        message,
        answers,
    })
}

fn read_pass(alloc: Global, map: NodeMap) -> Result<Event, EventRead>
    ensures { Gives event_view result (spec.pass_event map) }
{
    let mut map = map;
    let ipx = identity_at(alloc, &map, EventMember::Ipx)?;
    let wire = whole_at(&map, EventMember::Wire)?;
    let operations = take_operations(alloc, &mut map, EventMember::Operations)?;
    Ok(Event::Pass {
        ipx,
        wire,
        operations,
    })
}

fn read_alter(alloc: Global, map: &NodeMap) -> Result<Event, EventRead>
    ensures { Gives event_view result (spec.alter_event map.now) }
{
    let wire = whole_at(map, EventMember::Wire)?;
    let operations = ops_at(alloc, map, EventMember::Operations)?;
    Ok(Event::Alter { wire, operations })
}

fn read_reported(alloc: Global, map: NodeMap) -> Result<Event, EventRead>
    ensures { Gives event_view result (spec.reported_event map) }
{
    let mut map = map;
    let node = name_at(alloc, &map, EventMember::Node)?;
    let document = take(&mut map, EventMember::Document)?;
    Ok(Event::Reported { node, document })
}

fn read_inject(map: NodeMap) -> Result<Event, EventRead>
    ensures { Gives event_view result (spec.inject_event map) }
{
    let mut map = map;
    let document = take(&mut map, EventMember::Document)?;
    Ok(Event::Inject { document })
}

fn read_deliver(alloc: Global, map: &NodeMap) -> Result<Event, EventRead>
    ensures { Gives event_view result (spec.deliver_event map.now) }
{
    let (node, wire) = reached(alloc, map)?;
    Ok(Event::Deliver { node, wire })
}

fn read_restart(alloc: Global, map: &NodeMap) -> Result<Event, EventRead>
    ensures { Gives event_view result (spec.restart_event map.now) }
{
    let node = name_at(alloc, map, EventMember::Node)?;
    Ok(Event::Restart { node })
}

#[tactic(auto, using(crate::proofs::EventNames::by_kind))]
fn read_object(alloc: Global, map: NodeMap) -> Result<Event, EventRead>
    ensures { Gives event_view result (spec.event_with map) }
{
    match kind_of(&map) {
        Some(EventKind::Node) => read_added_node(alloc, &map),
        Some(EventKind::Context) => read_context(alloc, map),
        Some(EventKind::Keys) => read_keys(alloc, &map),
        Some(EventKind::Send) => read_send(alloc, map),
        Some(EventKind::Inject) => read_inject(map),
        Some(EventKind::Deliver) => read_deliver(alloc, &map),
        Some(EventKind::Restart) => read_restart(alloc, &map),
        Some(EventKind::Pass) => read_pass(alloc, map),
        Some(EventKind::Alter) => read_alter(alloc, &map),
        Some(EventKind::Reported) => read_reported(alloc, map),
        Some(EventKind::Start) => read_start(alloc, map),
        Some(EventKind::Answer) => read_answer(alloc, map),
        Some(EventKind::Finish) => read_finish(alloc, &map),
        Some(EventKind::Terminate) => read_terminate(alloc, &map),
        Some(EventKind::Ended) => read_ended(alloc, &map),
        None => Err(EventRead::Member(EventMember::Do)),
    }
}

/// Reads the event that a line's document is of. `Member` names the first member, in the order of the event's
/// table, that is missing or has not its form, `do` first. Other members are ignored. A message, a policy, an
/// injected document, a report and the operations of `pass` are moved out of the line's, and their forms aren't judged
/// here.
pub fn read_event(alloc: Global, document: Doc) -> Result<Event, EventRead>
    ensures { Gives event_view result (spec.event_of document) }
{
    match document.into_node() {
        Node::Members(map) => read_object(alloc, map),
        _ => Err(EventRead::Member(EventMember::Do)),
    }
}
