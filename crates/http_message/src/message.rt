// HTTP messages.
use n32_values::{Doc, List, Text};

/// A text, or a hole that stands for a value of a list, by its number from 0.
#[derive(Drop)]
pub enum Part {
    /// The text itself.
    Clear(Text),
    /// The number of the value.
    Hole(u32),
}

/// A list of parts, as the segments of a path.
pub type PartList = List<Part>;

/// A pair of a query: a name, and perhaps `=` and a value.
#[derive(Drop)]
pub struct Pair {
    /// The name, which may be empty.
    pub name: Text,
    /// The value, which may be empty too.
    pub value: Option<Part>,
}

/// The pairs of a query, in their order.
pub type PairList = List<Pair>;

/// A header (RFC 9110, section 5).
#[derive(Drop)]
pub struct Header {
    /// The name, in lower case where it was read from a document.
    pub name: Text,
    /// The value.
    pub value: Part,
}

/// The headers of a message, in their order.
pub type HeaderList = List<Header>;

/// A request. Its URI (RFC 3986, section 3) is kept as its components.
#[derive(Drop)]
pub struct Request {
    /// The method (RFC 9110, section 9), of at most 15 bytes.
    pub method: Text,
    /// `http` or `https`.
    pub scheme: Text,
    /// The authority of the URI.
    pub authority: Text,
    /// The version of the protocol, as `HTTP/2`.
    pub version: Text,
    /// The segments of the path, of which there is at least one.
    pub segments: PartList,
    /// The pairs of the query. No pair means no query.
    pub query: PairList,
    /// The headers.
    pub headers: HeaderList,
    /// The body, if there is one.
    pub body: Option<Doc>,
}

/// A response.
#[derive(Drop)]
pub struct Response {
    /// The status code (RFC 9110, section 15), from 100 to 999.
    pub status: u16,
    /// The headers.
    pub headers: HeaderList,
    /// The body, if there is one.
    pub body: Option<Doc>,
}

/// A message.
#[derive(Drop)]
pub enum Message {
    /// A request.
    Request(Request),
    /// A response.
    Response(Response),
}

impl Message {
    ghost use Rattle.std.specs.Prelude.{◌≡◌, map as list_map};
    ghost use Rattle.spec_messages.specs.Message.{kind_of};
    ghost use Rattle.http_message.specs.Reading.{header_view, kind_view, message_view};

    /// Whether it is a request or a response.
    pub fn kind(&self) -> Kind
        ensures { kind_view result ≡ kind_of (message_view self.now) }
    {
        match self {
            Message::Request(_) => Kind::Request,
            Message::Response(_) => Kind::Response,
        }
    }

    /// The headers.
    pub fn headers(&self) -> &HeaderList
        ensures { list_map header_view result.now ≡ (message_view self.now).headers }
    {
        match self {
            Message::Request(request) => &request.headers,
            Message::Response(response) => &response.headers,
        }
    }

    /// The body, if there is one.
    pub fn body(&self) -> &Option<Doc>
        ensures { result.now ≡ (message_view self.now).body }
    {
        match self {
            Message::Request(request) => &request.body,
            Message::Response(response) => &response.body,
        }
    }
}

/// Whether a message is a request or a response.
#[derive(Clone, Copy, Debug, PartialEq, Eq, Drop)]
pub enum Kind {
    /// It is a request.
    Request,
    /// It is a response.
    Response,
}
