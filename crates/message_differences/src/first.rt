// The first difference that isn't modifiable.
ghost use Rattle.std.specs.Prelude.{◌≡◌, ◌==◌, [], ◌++◌, IfOk, option_map, map};
ghost use Rattle.spec_messages.specs.Entry as entries;
ghost use Rattle.spec_messages.specs.Policy as spec;
ghost use Rattle.http_message.specs.Reading.{message_view, header_view, request_line};
ghost use Rattle.policy_tables.specs.View.{address_view};
ghost use Rattle.message_differences.specs.Fixed.{FirstFixed};

use crate::body::first_in_body;
use crate::change::Change;
use crate::line::first_in_line;
use crate::named::named_headers;
use crate::names::{Place, first_named};
use http_message::{HeaderList, Message, Request, Response};
use n32_values::{NoMemory, Text};
use policy_tables::{Address, LinePart, Policy};
use std::alloc::Global;

fn first_in_headers(
    alloc: Global,
    change: &Change<'_>,
    before: &HeaderList,
    after: &HeaderList,
) -> Result<Option<Address>, NoMemory>
    ensures { FirstFixed change.now result (spec.named_changed spec.header_at spec.line_header_order (spec.headers_named (map header_view before.now)) (spec.headers_named (map header_view after.now))) }
{
    let before = named_headers(alloc, before)?;
    let after = named_headers(alloc, after)?;
    first_named(alloc, change, Place::Headers, &before, &after)
}

fn first_in_request(
    alloc: Global,
    change: &Change<'_>,
    before: &Request,
    after: &Request,
) -> Result<Option<Address>, NoMemory>
    ensures { FirstFixed change.now result (spec.line_changed change.now.policy.now change.now.mapping (request_line before.now) (request_line after.now) ++ spec.rest_changed [] (message_view (Message.Request before.now)) (message_view (Message.Request after.now))) }
{
    let in_line = first_in_line(alloc, change, before, after)?;
    if let Some(address) = in_line {
        return Ok(Some(address));
    }
    let in_headers = first_in_headers(alloc, change, &before.headers, &after.headers)?;
    if let Some(address) = in_headers {
        return Ok(Some(address));
    }
    first_in_body(alloc, change, &before.body, &after.body)
}

fn is_same_status(one: &Response, other: &Response) -> bool
    ensures { result ≡ (one.now.status == other.now.status) }
{
    one.status == other.status
}

fn first_in_response(
    alloc: Global,
    change: &Change<'_>,
    one: &Response,
    other: &Response,
) -> Result<Option<Address>, NoMemory>
    ensures { FirstFixed change.now result (spec.rest_changed (spec.unless (one.now.status == other.now.status) (spec.line spec.line_status)) (message_view (Message.Response one.now)) (message_view (Message.Response other.now))) }
{
    let in_headers = first_in_headers(alloc, change, &one.headers, &other.headers)?;
    if let Some(address) = in_headers {
        return Ok(Some(address));
    }
    if !is_same_status(one, other) {
        return Ok(Some(Address::Line(LinePart::Status)));
    }
    first_in_body(alloc, change, &one.body, &other.body)
}

/// The first difference of two messages that an intermediary may not make, or `None` exactly where
/// all differences are modifiable (own). Differences are taken in this order: the kind, which then is
/// the only one; method, scheme, authority, version and path of a request, the variables of the
/// mapping's template, the names of the query and the order of its pairs; the names of the headers
/// and their order; the status of a response; the body, objects member by member in byte order and
/// all else as a whole.
///
/// The policy is asked once for each difference up to the answer. Names of query and headers are looked
/// up in maps, and the members of an object are compared once for each level above them. Memory is taken
/// for the names of a query or of headers that differ, and for the addresses that are asked for.
pub fn first_fixed(
    alloc: Global,
    policy: &Policy,
    mapping: Option<u32>,
    before: &Message,
    after: &Message,
    ipx: &Text,
) -> Result<Option<Address>, NoMemory>
    ensures { IfOk result (λ found. option_map address_view found ≡ entries.first_fixed policy.now mapping ipx.now (message_view before.now) (message_view after.now)) }
{
    let change = Change {
        policy,
        mapping,
        before,
        after,
        ipx,
    };
    match (before, after) {
        (Message::Request(one), Message::Request(other)) => {
            first_in_request(alloc, &change, one, other)
        }
        (Message::Response(one), Message::Response(other)) => {
            first_in_response(alloc, &change, one, other)
        }
        (Message::Request(_), Message::Response(_)) => Ok(Some(Address::Line(LinePart::Kind))),
        (Message::Response(_), Message::Request(_)) => Ok(Some(Address::Line(LinePart::Kind))),
    }
}
