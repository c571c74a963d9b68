// The grammars of texts.
ghost use Rattle.std.specs.Prelude.{◌≡◌, ◌&&◌, ◌||◌, nat_lt, length, codes};
ghost use Rattle.std.specs.List.{list_all};
ghost use Rattle.spec_documents.specs.Text as spec;

fn is_within(low: usize, high: usize, number: usize) -> bool
    ensures { result ≡ spec.is_within low high number }
{
    low <= number && number <= high
}

fn is_one_of(set: &str, byte: u8) -> bool
    ensures { result ≡ spec.is_one_of set.now byte }
{
    set.as_bytes().iter().any(|c| *c == byte)
}

fn is_alphanumeric(byte: u8) -> bool
    ensures { result ≡ spec.is_alphanumeric byte }
{
    byte.is_ascii_digit() || (b'A' <= byte && byte <= b'Z') || (b'a' <= byte && byte <= b'z')
}

fn is_uri_byte(byte: u8) -> bool
    ensures { result ≡ spec.is_uri_byte byte }
{
    is_alphanumeric(byte) || is_one_of("-._~!$&'()*+,;=:@%", byte)
}

fn is_query_byte(byte: u8) -> bool
    ensures { result ≡ spec.is_query_byte byte }
{
    (is_uri_byte(byte) || is_one_of("/?", byte)) && byte != b'&'
}

fn is_hex_digit(byte: u8) -> bool
    ensures { result ≡ spec.is_hex_digit byte }
{
    byte.is_ascii_digit() || (b'A' <= byte && byte <= b'F') || (b'a' <= byte && byte <= b'f')
}

fn are_authority_bytes(text: &str) -> bool
    ensures { result ≡ list_all (λ b. spec.is_uri_byte b || spec.is_one_of (codes "[]") b) text.now }
{
    text.as_bytes()
        .iter()
        .all(|byte| is_uri_byte(*byte) || is_one_of("[]", *byte))
}

fn are_visible(text: &str) -> bool
    ensures { result ≡ list_all spec.is_visible text.now }
{
    text.as_bytes()
        .iter()
        .all(|byte| 33 <= *byte && *byte <= 126)
}

fn are_hex_digits(text: &str) -> bool
    ensures { result ≡ list_all spec.is_hex_digit text.now }
{
    text.as_bytes().iter().all(|byte| is_hex_digit(*byte))
}

/// A segment of a path (RFC 3986, section 3.3): any number of the bytes of `pchar`, percent signs among them.
pub fn is_segment(text: &str) -> bool
    ensures { result ≡ spec.is_segment text.now }
{
    text.as_bytes().iter().all(|byte| is_uri_byte(*byte))
}

/// The name of a pair in a query (RFC 3986, section 3.4): bytes of a query but `&` and `=`.
pub fn is_query_name(text: &str) -> bool
    ensures { result ≡ spec.is_query_name text.now }
{
    text.as_bytes()
        .iter()
        .all(|byte| is_query_byte(*byte) && *byte != b'=')
}

/// The value of a pair in a query (RFC 3986, section 3.4): bytes of a query but `&`.
pub fn is_query_value(text: &str) -> bool
    ensures { result ≡ spec.is_query_value text.now }
{
    text.as_bytes().iter().all(|byte| is_query_byte(*byte))
}

/// A token (RFC 9110, section 5.6.2): one or more letters, digits and marks.
pub fn is_token(text: &str) -> bool
    ensures { result ≡ (nat_lt 0 (length text.now) && list_all spec.is_token_byte text.now) }
{
    http_header::is_token(text.as_bytes())
}

/// The name of a header (RFC 9110, section 5.1): a token of 1 to 255 bytes.
#[tactic(auto, using(crate::proofs::Tokens::limited_token))]
pub fn is_header_name(text: &str) -> bool
    ensures { result ≡ spec.is_header_name text.now }
{
    text.len() <= 255 && is_token(text)
}

/// The value of a header (RFC 9110, section 5.5): visible ASCII bytes, spaces and tabs.
pub fn is_header_value(text: &str) -> bool
    ensures { result ≡ spec.is_header_value text.now }
{
    text.as_bytes()
        .iter()
        .all(|byte| (32 <= *byte && *byte <= 126) || *byte == 9)
}

/// A scheme (RFC 9110, section 4.2): `http` or `https`.
pub fn is_scheme(text: &str) -> bool
    ensures { result ≡ spec.is_scheme text.now }
{
    text == "http" || text == "https"
}

/// An authority (RFC 3986, section 3.2): one or more bytes of a URI, square brackets among them.
pub fn is_authority(text: &str) -> bool
    ensures { result ≡ spec.is_authority text.now }
{
    0 < text.len() && are_authority_bytes(text)
}

/// The version of a protocol, as `HTTP/2`: 1 to 16 visible ASCII bytes.
pub fn is_version(text: &str) -> bool
    ensures { result ≡ spec.is_version text.now }
{
    is_within(1, 16, text.len()) && are_visible(text)
}

/// An identity of an intermediary: 1 to 255 visible ASCII bytes, and not the text `null`.
pub fn is_identity(text: &str) -> bool
    ensures { result ≡ spec.is_identity text.now }
{
    (is_within(1, 255, text.len()) && are_visible(text)) && text != "null"
}

/// The name of a node: an identity, or `null`.
pub fn is_node_name(text: &str) -> bool
    ensures { result ≡ spec.is_node_name text.now }
{
    is_identity(text) || text == "null"
}

/// An id of a context or of a message: 16 hexadecimal digits in either case.
pub fn is_id(text: &str) -> bool
    ensures { result ≡ spec.is_id text.now }
{
    text.len() == 16 && are_hex_digits(text)
}

/// The grammar of a text.
#[derive(Clone, Copy, Debug, PartialEq, Eq, Drop)]
pub enum Grammar {
    /// Any text.
    Any,
    /// A segment of a path.
    Segment,
    /// The name of a pair in a query.
    QueryName,
    /// The value of a pair in a query.
    QueryValue,
    /// `http` or `https`.
    Scheme,
    /// The authority of a URI.
    Authority,
    /// The version of a protocol.
    Version,
    /// The name of a header, in either case.
    HeaderName,
    /// The value of a header.
    HeaderValue,
    /// The identity of an intermediary.
    Identity,
    /// An identity, or `null`.
    NodeName,
    /// 16 hexadecimal digits.
    Id,
}

impl Grammar {
    ghost use Rattle.doc_forms.specs.Grammars.{test_of};

    /// Whether a text is of the grammar.
    pub fn fits(self, text: &str) -> bool
        ensures { result ≡ test_of self text.now }
    {
        match self {
            Grammar::Any => true,
            Grammar::Segment => is_segment(text),
            Grammar::QueryName => is_query_name(text),
            Grammar::QueryValue => is_query_value(text),
            Grammar::Scheme => is_scheme(text),
            Grammar::Authority => is_authority(text),
            Grammar::Version => is_version(text),
            Grammar::HeaderName => is_header_name(text),
            Grammar::HeaderValue => is_header_value(text),
            Grammar::Identity => is_identity(text),
            Grammar::NodeName => is_node_name(text),
            Grammar::Id => is_id(text),
        }
    }
}
