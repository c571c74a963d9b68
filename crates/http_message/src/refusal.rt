// Why a document isn't read.
ghost use Rattle.std.specs.Prelude.{◌≡◌, Option};
ghost use Rattle.spec_messages.specs.Message as spec;
ghost use Rattle.doc_forms.specs.Grammars.{test_of};
ghost use Rattle.http_message.specs.Reading.{Gives, IsMemory, member_view};

use doc_forms::{Grammar, text_at};
use n32_values::{NoMemory, NodeMap};
use thiserror::Error;

/// The members of a message's document that a reading may refuse, in the order in which they are
/// read.
#[derive(Clone, Copy, Debug, PartialEq, Eq, Drop)]
pub enum MessageMember {
    /// The document is no object.
    Whole,
    /// `requestLine` is no object, or neither line is there.
    RequestLine,
    /// `statusLine` isn't a text of three digits from 100 to 999, or both lines are there, of which
    /// `requestLine` is an object.
    StatusLine,
    /// `method` is no token of 1 to 15 bytes (RFC 9110, section 9).
    Method,
    /// `scheme` is neither `http` nor `https`.
    Scheme,
    /// `authority` is empty, or has another byte than those of a URI and square brackets.
    Authority,
    /// `path` isn't one or more times `/` and a segment (RFC 3986, section 3.3).
    Path,
    /// `protocolVersion` isn't 1 to 16 visible ASCII bytes.
    ProtocolVersion,
    /// `queryFragment` is there and isn't pairs joined by `&` (RFC 3986, section 3.4).
    QueryFragment,
    /// `headers` is there and isn't a list of objects with a `header` and a `value` (RFC 9110,
    /// section 5).
    Headers,
}

impl MessageMember {
    /// The name by which a refusal tells it: a member's, or `message` where the document is no object.
    pub fn name(self) -> &'static str
        ensures { result.now ≡ spec.member_name (member_view self) }
    {
        match self {
            MessageMember::Whole => "message",
            MessageMember::RequestLine => "requestLine",
            MessageMember::StatusLine => "statusLine",
            MessageMember::Method => "method",
            MessageMember::Scheme => "scheme",
            MessageMember::Authority => "authority",
            MessageMember::Path => "path",
            MessageMember::ProtocolVersion => "protocolVersion",
            MessageMember::QueryFragment => "queryFragment",
            MessageMember::Headers => "headers",
        }
    }
}

/// Why a document isn't read to a message.
#[derive(Clone, Copy, Debug, PartialEq, Eq, Drop, Error)]
pub enum MessageRead {
    /// The first member that is wrong.
    #[error("the first wrong member is {0:?}")]
    Member(MessageMember),
    /// All members are right, and the body nests deeper than 64.
    #[error("the body nests deeper than 64")]
    Depth,
    /// Memory was refused.
    #[error("out of memory")]
    NoMemory,
}

impl From<NoMemory> for MessageRead {
    ghost from_gives = { λ _ e. IsMemory e };

    fn from(_error: NoMemory) -> MessageRead {
        MessageRead::NoMemory
    }
}

// The member of a name, which must be a text of the grammar.
pub(crate) fn wanted<'a>(
    map: &'a NodeMap,
    name: &str,
    grammar: Grammar,
    member: MessageMember,
) -> Result<&'a str, MessageRead>
    ensures { Gives (λ t. t.now) result (spec.wanted (spec.text_at (test_of grammar) name.now map.now) (member_view member)) }
{
    match text_at(map, name, grammar) {
        Some(text) => Ok(text),
        None => Err(MessageRead::Member(member)),
    }
}
