// The addresses of the parts of a message.
ghost use Rattle.std.specs.Prelude.{◌≡◌, ◌++◌, IfOk};
ghost use Rattle.spec_messages.specs.AddressText as texts;
ghost use Rattle.policy_tables.specs.View.{line_view, address_view, site_view};

use json_ptr::{Pointer, pointer_text};
use n32_values::{NoMemory, Text};
use std::alloc::Global;

/// A part of a message's line, or of its form, that no intermediary may modify.
#[derive(Clone, Copy, Debug, PartialEq, Eq, Drop)]
pub enum LinePart {
    /// Whether it is a request or a response.
    Kind,
    /// The method.
    Method,
    /// The scheme.
    Scheme,
    /// The authority.
    Authority,
    /// The version of the protocol.
    Version,
    /// The number of segments, and those that are no variable.
    Path,
    /// The order of the query's pairs.
    QueryOrder,
    /// The order of the headers.
    HeaderOrder,
    /// The status code.
    Status,
}

/// The address of a part of a message, by which a policy speaks of it.
#[derive(Drop)]
pub enum Address {
    /// A part of the line.
    Line(LinePart),
    /// The segment at a variable of the path template, by the variable's name.
    PathVar(Text),
    /// All pairs of the query with a name.
    Query(Text),
    /// All headers with a name, in lower case.
    Header(Text),
    /// A node of the body.
    Body(Pointer),
}

/// An address whose name is borrowed.
#[derive(Clone, Copy)]
pub(crate) enum Site<'a> {
    Line(LinePart),
    PathVar(&'a Text),
    Query(&'a Text),
    Header(&'a Text),
    Body(&'a Pointer),
}

impl Address {
    pub(crate) fn site(&self) -> Site<'_>
        ensures { site_view result ≡ address_view self.now }
    {
        match self {
            Address::Line(part) => Site::Line(*part),
            Address::PathVar(name) => Site::PathVar(name),
            Address::Query(name) => Site::Query(name),
            Address::Header(name) => Site::Header(name),
            Address::Body(pointer) => Site::Body(pointer),
        }
    }
}

impl LinePart {
    fn as_str(self) -> &'static str
        ensures { result.now ≡ texts.line_word (line_view self) }
    {
        match self {
            LinePart::Kind => "kind",
            LinePart::Method => "method",
            LinePart::Scheme => "scheme",
            LinePart::Authority => "authority",
            LinePart::Version => "version",
            LinePart::Path => "path",
            LinePart::QueryOrder => "query-order",
            LinePart::HeaderOrder => "header-order",
            LinePart::Status => "status",
        }
    }
}

fn text_after(alloc: Global, front: &str, rest: &str) -> Result<Text, NoMemory>
    ensures { IfOk result (λ t. t ≡ front.now ++ rest.now) }
{
    let mut out = String::new(alloc);
    out.push_str(front)?;
    out.push_str(rest)?;
    Ok(Text::from_string(out))
}

/// The text of an address, as `line:method`, `path:supi`, `query:name`, `header:accept` or `body:/a/0`;
/// the root of the body is `body:`.
pub fn address_text(alloc: Global, address: &Address) -> Result<Text, NoMemory>
    ensures { IfOk result (λ t. t ≡ texts.address_text (address_view address.now)) }
{
    match address {
        Address::Line(part) => text_after(alloc, "line:", part.as_str()),
        Address::PathVar(name) => text_after(alloc, "path:", name.as_str()),
        Address::Query(name) => text_after(alloc, "query:", name.as_str()),
        Address::Header(name) => text_after(alloc, "header:", name.as_str()),
        Address::Body(pointer) => {
            let pointer = pointer_text(alloc, pointer)?;
            text_after(alloc, "body:", pointer.as_str())
        }
    }
}
