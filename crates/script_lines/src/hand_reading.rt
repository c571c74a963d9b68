// Documents are read to the events of a handshake.
ghost use Rattle.spec_script.specs.Events as spec;
ghost use Rattle.script_lines.specs.View.{event_view};
ghost use Rattle.script_lines.specs.EventReading.{Gives};

use crate::event::Event;
use crate::event_fault::EventRead;
use crate::event_member::EventMember;
use crate::event_values::{id_at, name_at, reached};
use crate::offer_reading::take_offer;
use n32_values::NodeMap;
use std::alloc::Global;

pub(crate) fn read_start(alloc: Global, map: NodeMap) -> Result<Event, EventRead>
    ensures { Gives event_view result (spec.start_event map) }
{
    let mut map = map;
    let node = name_at(alloc, &map, EventMember::Node)?;
    let peer = name_at(alloc, &map, EventMember::Peer)?;
    let offer = take_offer(alloc, &mut map)?;
    Ok(Event::Start { node, peer, offer })
}

pub(crate) fn read_answer(alloc: Global, map: NodeMap) -> Result<Event, EventRead>
    ensures { Gives event_view result (spec.answer_event map) }
{
    let mut map = map;
    let (node, wire) = reached(alloc, &map)?;
    let offer = take_offer(alloc, &mut map)?;
    Ok(Event::Answer { node, wire, offer })
}

pub(crate) fn read_finish(alloc: Global, map: &NodeMap) -> Result<Event, EventRead>
    ensures { Gives event_view result (spec.finish_event map.now) }
{
    let (node, wire) = reached(alloc, map)?;
    Ok(Event::Finish { node, wire })
}

pub(crate) fn read_terminate(alloc: Global, map: &NodeMap) -> Result<Event, EventRead>
    ensures { Gives event_view result (spec.terminate_event map.now) }
{
    let node = name_at(alloc, map, EventMember::Node)?;
    let id = id_at(map, EventMember::Id)?;
    Ok(Event::Terminate { node, id })
}

pub(crate) fn read_ended(alloc: Global, map: &NodeMap) -> Result<Event, EventRead>
    ensures { Gives event_view result (spec.ended_event map.now) }
{
    let (node, wire) = reached(alloc, map)?;
    Ok(Event::Ended { node, wire })
}
