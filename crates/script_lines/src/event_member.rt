ghost use Rattle.std.specs.Prelude.{◌≡◌};
ghost use Rattle.script_lines.specs.EventMembers.{member_name};

/// A member of an event's document.
#[derive(Clone, Copy, Debug, PartialEq, Eq, Drop)]
pub enum EventMember {
    /// `do`
    Do,
    /// `node`
    Node,
    /// `plmn`
    Plmn,
    /// `id`
    Id,
    /// `peer_node`
    PeerNode,
    /// `peer`
    Peer,
    /// `suite`
    Suite,
    /// `policy`
    Policy,
    /// `own_ipx`
    OwnIpx,
    /// `peer_ipx`
    PeerIpx,
    /// `send`
    Send,
    /// `receive`
    Receive,
    /// `first`
    First,
    /// `message`
    Message,
    /// `answers`
    Answers,
    /// `document`
    Document,
    /// `wire`
    Wire,
    /// `ipx`
    Ipx,
    /// `operations`
    Operations,
    /// `offer`
    Offer,
}

impl EventMember {
    /// Its name.
    pub fn name(self) -> &'static str
        ensures { result.now ≡ member_name self }
    {
        match self {
            EventMember::Do => "do",
            EventMember::Node => "node",
            EventMember::Plmn => "plmn",
            EventMember::Id => "id",
            EventMember::PeerNode => "peer_node",
            EventMember::Peer => "peer",
            EventMember::Suite => "suite",
            EventMember::Policy => "policy",
            EventMember::OwnIpx => "own_ipx",
            EventMember::PeerIpx => "peer_ipx",
            EventMember::Send => "send",
            EventMember::Receive => "receive",
            EventMember::First => "first",
            EventMember::Message => "message",
            EventMember::Answers => "answers",
            EventMember::Document => "document",
            EventMember::Wire => "wire",
            EventMember::Ipx => "ipx",
            EventMember::Operations => "operations",
            EventMember::Offer => "offer",
        }
    }
}
