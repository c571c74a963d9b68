//! What the lines ask for.

ghost use Rattle.std.specs.Prelude.{◌≡◌};
ghost use Rattle.spec_exercise.specs.Documents as spec;
ghost use Rattle.exercise_script.specs.View.{sepp_view};

/// The two SEPPs of the script.
#[derive(Clone, Copy, Debug, PartialEq, Eq, Drop)]
pub enum Sepp {
    /// `A`, which sends.
    Sender,
    /// `B`, to which is delivered.
    Receiver,
}

impl Sepp {
    /// The other one.
    pub(crate) fn peer(self) -> Sepp
        ensures { sepp_view result ≡ spec.peer (sepp_view self) }
    {
        match self {
            Sepp::Sender => Sepp::Receiver,
            Sepp::Receiver => Sepp::Sender,
        }
    }

    /// The name of its node.
    pub(crate) fn name(self) -> &'static str
        ensures { result.now ≡ spec.name_of (sepp_view self) }
    {
        match self {
            Sepp::Sender => "A",
            Sepp::Receiver => "B",
        }
    }

    /// The PLMN id of its network.
    pub(crate) fn plmn(self) -> &'static str
        ensures { result.now ≡ spec.plmn_of (sepp_view self) }
    {
        match self {
            Sepp::Sender => "00101",
            Sepp::Receiver => "00102",
        }
    }

    /// The id of its context.
    pub(crate) fn context(self) -> &'static str
        ensures { result.now ≡ spec.context_of (sepp_view self) }
    {
        match self {
            Sepp::Sender => "00000000000000a1",
            Sepp::Receiver => "00000000000000b1",
        }
    }

    /// The identity of its intermediary.
    pub(crate) fn ipx(self) -> &'static str
        ensures { result.now ≡ spec.ipx_of (sepp_view self) }
    {
        match self {
            Sepp::Sender => "ipx-a",
            Sepp::Receiver => "ipx-b",
        }
    }
}

/// A line of the script.
#[derive(Clone, Copy, Debug, PartialEq, Eq, Drop)]
pub enum Line {
    /// The SEPP's node.
    AddNode(Sepp),
    /// The SEPP's context.
    AddContext(Sepp),
    /// The keys of the SEPP's context.
    AddKeys(Sepp),
    /// The request of a turn.
    Send {
        /// The turn's number, from 0.
        turn: u32,
        /// The number that is drawn for it.
        drawn: u16,
    },
    /// The sender's intermediary counts the number in a document one up.
    Pass {
        /// The document's number on the wire, from 1.
        wire: u64,
        /// The number that was drawn for it.
        drawn: u16,
    },
    /// A document reaches the receiver.
    Deliver {
        /// Its number on the wire, from 1.
        wire: u64,
    },
}
