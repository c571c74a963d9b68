// A start that waits, and the starts of a list that a document or a node is for.
ghost use Rattle.std.specs.Prelude.{◌≡◌, map, find, bytes_eq, IfSome, None};
ghost use Rattle.spec_handshake.specs.Starts as spec;
ghost use Rattle.n32c_handshake.specs.View.{start_view, waiting_view};
ghost use Rattle.n32c_handshake.specs.Waiting.{IsFirst};

use crate::offer::Offer;
use n32_values::{Hex64, Text};

/// What a start waits for.
#[derive(Clone, Copy, Debug, PartialEq, Eq, Drop)]
pub(crate) enum Waiting {
    /// The choice of a capability.
    ForChoice,
    /// The selected parameters.
    ForSelection,
}

fn is_same_waiting(one: Waiting, other: Waiting) -> bool
    ensures { result ≡ spec.same_waiting (waiting_view one) (waiting_view other) }
{
    match one {
        Waiting::ForChoice => matches!(other, Waiting::ForChoice),
        Waiting::ForSelection => matches!(other, Waiting::ForSelection),
    }
}

/// A start that waits for a document of its peer.
#[derive(Drop)]
pub(crate) struct Start {
    pub(crate) node: Text,
    pub(crate) peer: Text,
    pub(crate) offer: Offer,
    pub(crate) waiting: Waiting,
}

impl Start {
    fn is_of(&self, node: &Text) -> bool
        ensures { result ≡ bytes_eq (start_view self.now).node node.now }
    {
        self.node.as_str() == node.as_str()
    }

    fn waits(&self, node: &Text, call: Hex64, sender: &Text, waiting: Waiting) -> bool
        ensures { result ≡ spec.waits node.now call.value sender.now (waiting_view waiting) (start_view self.now) }
    {
        self.is_of(node)
            && self.offer.id.value == call.value
            && self.peer.as_str() == sender.as_str()
            && is_same_waiting(self.waiting, waiting)
    }
}

/// The place of the first start of this node and call that waits for this from the sender.
pub(crate) fn first_in(
    starts: &[Start],
    node: &Text,
    call: Hex64,
    sender: &Text,
    waiting: Waiting,
) -> Option<usize>
    ensures first { IfSome result (λ i. IsFirst (spec.waits node.now call.value sender.now (waiting_view waiting)) (map start_view starts.now) i) }
    ensures none { result ≡ None → find (spec.waits node.now call.value sender.now (waiting_view waiting)) (map start_view starts.now) ≡ None }
{
    for i in 0..starts.len() {
        if starts[i].waits(node, call, sender, waiting) {
            return Some(i);
        }
    }
    None
}

/// Takes a node's starts out.
pub(crate) fn drop_of(starts: &mut Vec<Start>, node: &Text)
    ensures { map start_view starts.new.items ≡ spec.without_node node.now (map start_view starts.old.items) }
{
    let mut i = 0;
    while i < starts.len() {
        if starts[i].is_of(node) {
            let _gone = starts.remove(i);
        } else {
            i += 1;
        }
    }
}
