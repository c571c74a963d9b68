// What a message is sent as.
ghost use Rattle.std.specs.Prelude.{◌≡◌};
ghost use Rattle.http_message.specs.Reading.{kind_view};
ghost use Rattle.spec_exchange.specs.Calls as spec;
ghost use Rattle.sending_sepp.specs.Outgoings.{outgoing_view};

use http_message::Kind;
use n32_values::Hex64;

/// A request, or the response to a request.
#[derive(Clone, Copy, Drop)]
pub(crate) enum Outgoing {
    /// A request, whose message id is its sequence number.
    Asks,
    /// The response to the request of this message id, which it shares.
    Replies(Hex64),
}

impl Outgoing {
    /// Whether it is a request or a response.
    pub(crate) fn kind(self) -> Kind
        ensures { kind_view result ≡ spec.kind_of_outgoing (outgoing_view self) }
    {
        match self {
            Outgoing::Asks => Kind::Request,
            Outgoing::Replies(_) => Kind::Response,
        }
    }

    /// The message id of what is sent with a sequence number.
    pub(crate) fn message_id(self, seq: u32) -> Hex64
        ensures { result.value ≡ spec.message_id (outgoing_view self) seq }
    {
        match self {
            Outgoing::Asks => Hex64 {
                value: u64::from(seq),
            },
            Outgoing::Replies(to) => to,
        }
    }
}
