// Rules on messages.
ghost use Rattle.std.specs.Prelude.{◌≡◌, bytes_eq};
ghost use Rattle.std.specs.List.{list_any, list_all};
ghost use Rattle.spec_messages.specs.Message.{is_text};
ghost use Rattle.spec_exchange.specs.Screens as spec;
ghost use Rattle.http_message.specs.Reading.{header_view, message_view, part_view};

use http_message::{Header, HeaderList, Message, Part};
use n32_values::{PlmnId, TextList};

/// A rule on the messages that a SEPP hands on. It has no calls: its meaning is what a screen's test answers.
pub trait ScreenRule {
    ghost use Rattle.spec_exchange.specs.Screens.{Passes};

    /// Whether a message of a peer in the network of a PLMN id is handed on.
    ghost passes: { Self → Passes };
}

/// Each header `x-n32-plmn` names the network of the peer.
#[derive(Clone, Copy, Debug, PartialEq, Eq, Drop)]
pub struct OriginRule;

impl ScreenRule for OriginRule {
    ghost use Rattle.spec_exchange.specs.Screens.{origin_passes};

    ghost passes = { λ _. origin_passes };
}

impl OriginRule {
    ghost use Rattle.spec_exchange.specs.Screens.{origin_passes};

    /// Whether the rule passes a message of a peer in the network. It takes no memory.
    pub fn passes(message: &Message, plmn: &PlmnId) -> bool
        ensures { result ≡ origin_passes (message_view message.now) plmn.now }
    {
        all_name(message.headers(), plmn.as_str())
    }
}

/// The method of a request is one of these. Responses pass.
#[derive(Drop)]
pub struct MethodRule {
    /// The methods (RFC 9110, section 9). With none of them no request passes.
    pub methods: TextList,
}

impl ScreenRule for MethodRule {
    ghost use Rattle.spec_exchange.specs.Screens.{method_passes};

    ghost passes = { λ r. method_passes r.methods };
}

impl MethodRule {
    ghost use Rattle.spec_exchange.specs.Screens.{method_is_listed};

    /// Whether the rule of these methods passes a message, in whatever network its peer is. It takes no memory.
    pub fn passes(methods: &TextList, message: &Message) -> bool
        ensures { result ≡ method_is_listed methods.now (message_view message.now).head }
    {
        match message {
            Message::Request(request) => is_listed(methods, request.method.as_str()),
            Message::Response(_) => true,
        }
    }
}

fn is_listed(methods: &TextList, method: &str) -> bool
    ensures { result ≡ list_any (bytes_eq method.now) methods.now }
{
    methods
        .as_slice()
        .iter()
        .any(|text| method == text.as_str())
}

fn all_name(headers: &HeaderList, plmn: &str) -> bool
    ensures { result ≡ list_all (λ h. spec.names_network plmn.now (header_view h)) headers.now }
{
    headers
        .as_slice()
        .iter()
        .all(|header| names_network(plmn, header))
}

// A header of another name, or one with these digits.
fn names_network(plmn: &str, header: &Header) -> bool
    ensures { result ≡ spec.names_network plmn.now (header_view header.now) }
{
    header.name.as_str() != "x-n32-plmn" || is_value(plmn, &header.value)
}

fn is_value(plmn: &str, value: &Part) -> bool
    ensures { result ≡ is_text (bytes_eq plmn.now) (part_view value.now) }
{
    match value {
        Part::Clear(text) => plmn == text.as_str(),
        Part::Hole(_) => false,
    }
}
