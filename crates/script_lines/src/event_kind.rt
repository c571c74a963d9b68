// The events by their names.
ghost use Rattle.std.specs.Prelude.{◌≡◌};
ghost use Rattle.script_lines.specs.EventKinds as kinds;

use crate::event_member::EventMember;
use doc_forms::{Grammar, text_at};
use n32_values::NodeMap;

#[derive(Clone, Copy, Drop)]
pub(crate) enum EventKind {
    Node,
    Context,
    Keys,
    Send,
    Inject,
    Deliver,
    Restart,
    Pass,
    Alter,
    Reported,
    Start,
    Answer,
    Finish,
    Terminate,
    Ended,
}

fn kind_named(name: &str) -> Option<EventKind>
    ensures { result ≡ kinds.kind_named name.now }
{
    if name == "node" {
        Some(EventKind::Node)
    } else if name == "context" {
        Some(EventKind::Context)
    } else if name == "keys" {
        Some(EventKind::Keys)
    } else if name == "send" {
        Some(EventKind::Send)
    } else if name == "inject" {
        Some(EventKind::Inject)
    } else if name == "deliver" {
        Some(EventKind::Deliver)
    } else if name == "restart" {
        Some(EventKind::Restart)
    } else if name == "pass" {
        Some(EventKind::Pass)
    } else if name == "alter" {
        Some(EventKind::Alter)
    } else if name == "reported" {
        Some(EventKind::Reported)
    } else if name == "start" {
        Some(EventKind::Start)
    } else if name == "answer" {
        Some(EventKind::Answer)
    } else if name == "finish" {
        Some(EventKind::Finish)
    } else if name == "terminate" {
        Some(EventKind::Terminate)
    } else if name == "ended" {
        Some(EventKind::Ended)
    } else {
        None
    }
}

// The kind of event that an object is of.
pub(crate) fn kind_of(map: &NodeMap) -> Option<EventKind>
    ensures { result ≡ kinds.kind_in map.now }
{
    match text_at(map, EventMember::Do.name(), Grammar::Any) {
        Some(name) => kind_named(name),
        None => None,
    }
}
