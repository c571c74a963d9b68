// The starts that wait.
ghost use Rattle.std.specs.Prelude.{◌≡◌, [], ◌∷◌, ◌++◌, ◌<◌, length, map, take, slice_get, slice_set, find, IsTrue, IfSome, OnOk, OnErr, Some, None};
ghost use Rattle.std.specs.List.{remove as without};
ghost use Rattle.spec_handshake.specs.Starts as spec;
ghost use Rattle.n32c_handshake.specs.View.{start_view, waiting_view};
ghost use Rattle.n32c_handshake.specs.Waiting.{is_named, IsFirst};

use crate::starts::{Start, Waiting, drop_of, first_in};
use n32_values::{Hex64, NoMemory, Text};
use std::alloc::Global;
use std::marker::Model;

/// The starts that wait, in the order in which they began. Contracts see their list.
#[derive(Drop)]
pub struct Hands {
    starts: Vec<Start>,
}

impl Model for Hands {
    ghost use Rattle.std.specs.Prelude.{List, map, IsTrue};
    ghost use Rattle.std.specs.List.{list_all};
    ghost use Rattle.spec_handshake.specs.Starts.{Start};
    ghost use Rattle.n32c_handshake.specs.View.{start_view};
    ghost use Rattle.n32c_handshake.specs.Waiting.{is_named};

    ghost Value = { List Start };

    ghost view = { λ h. map start_view h.starts.items };

    ghost invariant = { λ h. IsTrue (list_all is_named (map start_view h.starts.items)) };
}

impl Hands {
    /// The empty list. It takes no memory.
    pub fn new(alloc: Global) -> Hands
        ensures { result ≡ [] }
    {
        Hands {
            starts: Vec::new(alloc),
        }
    }

    /// Takes a node's starts out, as its restart does.
    pub fn drop_node(&mut self, node: &Text)
        ensures { self.new ≡ spec.without_node node.now self.old }
    {
        drop_of(&mut self.starts, node);
    }

    pub(crate) fn len(&self) -> usize
        ensures { result ≡ length self.now }
    {
        self.starts.len()
    }

    /// Adds a start at the end. A refused push leaves the list as it was.
    pub(crate) fn push(&mut self, start: Start) -> Result<(), NoMemory>
        requires { IsTrue (is_named (start_view start)) }
        ensures ok { OnOk result (self.new ≡ self.old ++ start_view start ∷ []) }
        ensures err { OnErr result (self.new ≡ self.old) }
    {
        let Ok(()) = self.starts.push(start) else {
            return Err(NoMemory);
        };
        Ok(())
    }

    /// Lets the starts go that stand past the first `count`.
    pub(crate) fn truncate(&mut self, count: usize)
        ensures { self.new ≡ take count self.old }
    {
        self.starts.truncate(count)
    }

    /// The place of the first start of this node and call that waits for this from the sender.
    pub(crate) fn first(
        &self,
        node: &Text,
        call: Hex64,
        sender: &Text,
        waiting: Waiting,
    ) -> Option<usize>
        ensures first { IfSome result (λ i. IsFirst (spec.waits node.now call.value sender.now (waiting_view waiting)) self.now i) }
        ensures none { result ≡ None → find (spec.waits node.now call.value sender.now (waiting_view waiting)) self.now ≡ None }
    {
        first_in(&self.starts, node, call, sender, waiting)
    }

    /// The start at a place that is there.
    pub(crate) fn start(&self, i: usize) -> &Start
        requires { i < length self.now }
        ensures start { slice_get self.now i ≡ Some (start_view result.now) }
        ensures named { IsTrue (is_named (start_view result.now)) }
    {
        &self.starts[i]
    }

    /// Takes the start at a place out.
    pub(crate) fn remove(&mut self, i: usize)
        requires { i < length self.old }
        ensures { self.new ≡ without self.old i }
    {
        let _gone = self.starts.remove(i);
    }

    /// The start at a place goes on to wait for parameters.
    pub(crate) fn go_on(&mut self, i: usize)
        requires { i < length self.old }
        ensures { IfSome (slice_get self.old i) (λ s. self.new ≡ slice_set self.old i (spec.goes_on s)) }
    {
        self.starts[i].waiting = Waiting::ForSelection;
    }
}
