// Which parts of a message are secret, and whether an address is.
ghost use Rattle.std.specs.Prelude.{◌≡◌, ◌&&◌, map, bytes_eq, IsTrue};
ghost use Rattle.spec_messages.specs.Block.{is_ordered_body};
ghost use Rattle.spec_messages.specs.Message.{request as request_head};
ghost use Rattle.spec_messages.specs.Policy as spec;
ghost use Rattle.http_message.specs.Reading.{part_view, pair_view, header_view, message_view, request_line, kind_view};
ghost use Rattle.n32_values.specs.View.{tree_of};
ghost use Rattle.policy_tables.specs.View.{line_view, address_view, site_view};
ghost use Rattle.policy_tables.specs.Secrecy as secrecy;

use crate::address::{Address, LinePart, Site};
use crate::body::{is_body_secret, is_marked};
use crate::covering::{is_body_covered, is_covered};
use crate::mapping::mapping_at;
use http_message::{Header, HeaderList, Kind, Message, Pair, PairList, Part, PartList, Request};
use json_ptr::{Pointer, is_prefix};
use n32_values::{Doc, Node, Text};
use policy_documents::{Pattern, Policy};

fn is_secret_part(covered: bool, part: &Part) -> bool
    ensures { result ≡ spec.is_secret_part covered (part_view part.now) }
{
    match part {
        Part::Clear(_) => covered,
        Part::Hole(_) => true,
    }
}

fn is_secret_value(covered: bool, pair: &Pair) -> bool
    ensures { result ≡ spec.is_secret_value covered (pair_view pair.now).value }
{
    match &pair.value {
        Some(part) => is_secret_part(covered, part),
        None => false,
    }
}

// The address of a segment: its variable's, where the template has one there.
fn segment_site(policy: &Policy, mapping: Option<u32>, i: usize) -> Site<'_>
    ensures { site_view result ≡ spec.segment_address (spec.patterns_of (spec.mapping_at policy.now mapping)) i }
{
    match mapping_at(policy, mapping) {
        Some(mapping) => match mapping.patterns.get(i) {
            Some(Pattern::Variable(name)) => Site::PathVar(name),
            Some(Pattern::Fixed(_)) => Site::Line(LinePart::Path),
            None => Site::Line(LinePart::Path),
        },
        None => Site::Line(LinePart::Path),
    }
}

/// Whether segment `i` of the path is secret under the mapping of that number: it is a hole, or its
/// variable is covered by a sensitive element.
pub fn is_secret_segment(
    policy: &Policy,
    mapping: Option<u32>,
    kind: Kind,
    i: usize,
    part: &Part,
) -> bool
    ensures { result ≡ spec.is_secret_segment policy.now mapping (kind_view kind) i (part_view part.now) }
{
    let covered = is_covered(policy, mapping, kind, segment_site(policy, mapping, i));
    is_secret_part(covered, part)
}

/// Whether a pair of the query is secret: its value is a hole, or it has a value and its name is
/// covered by a sensitive element.
pub fn is_secret_pair(policy: &Policy, mapping: Option<u32>, kind: Kind, pair: &Pair) -> bool
    ensures { result ≡ spec.is_secret_pair policy.now mapping (kind_view kind) (pair_view pair.now) }
{
    let covered = is_covered(policy, mapping, kind, Site::Query(&pair.name));
    is_secret_value(covered, pair)
}

/// Whether a header is secret: its value is a hole, or its name is covered by a sensitive element.
pub fn is_secret_header(policy: &Policy, mapping: Option<u32>, kind: Kind, header: &Header) -> bool
    ensures { result ≡ spec.is_secret_header policy.now mapping (kind_view kind) (header_view header.now) }
{
    let covered = is_covered(policy, mapping, kind, Site::Header(&header.name));
    is_secret_part(covered, &header.value)
}

/// Whether the node of a body at a pointer is secret: it is covered by a sensitive element, or is an
/// object with a member `encBlockIndex`. Of secret nodes only the outermost are secret places.
pub fn is_secret_node(
    policy: &Policy,
    mapping: Option<u32>,
    kind: Kind,
    body: &Node,
    pointer: &Pointer,
    node: &Node,
) -> bool
    ensures { result ≡ spec.is_secret_node policy.now mapping (kind_view kind) (tree_of body.now) pointer.now (tree_of node.now) }
{
    is_body_covered(policy, mapping, kind, body, pointer) || is_marked(node)
}

// ---- addresses

fn is_path(part: LinePart) -> bool
    ensures { result ≡ secrecy.is_path (line_view part) }
{
    match part {
        LinePart::Path => true,
        LinePart::Kind => false,
        LinePart::Method => false,
        LinePart::Scheme => false,
        LinePart::Authority => false,
        LinePart::Version => false,
        LinePart::QueryOrder => false,
        LinePart::HeaderOrder => false,
        LinePart::Status => false,
    }
}

#[tactic(auto, using(crate::proofs::TouchLemmas::lines_touch))]
fn touch_lines(one: LinePart, other: LinePart) -> bool
    ensures { result ≡ spec.touches (spec.line (line_view one)) (spec.line (line_view other)) }
{
    is_path(one) && is_path(other)
}

fn is_same(one: &Text, other: &Text) -> bool
    ensures { result ≡ bytes_eq one.now other.now }
{
    one.as_str() == other.as_str()
}

// Whether one of the two stands at or above the other.
fn touches(site: Site<'_>, address: &Address) -> bool
    ensures { result ≡ spec.touches (site_view site.entry) (address_view address.now) }
{
    match site {
        Site::Line(one) => match address {
            Address::Line(other) => touch_lines(one, *other),
            Address::PathVar(_) => false,
            Address::Query(_) => false,
            Address::Header(_) => false,
            Address::Body(_) => false,
        },
        Site::PathVar(one) => match address {
            Address::PathVar(other) => is_same(one, other),
            Address::Line(_) => false,
            Address::Query(_) => false,
            Address::Header(_) => false,
            Address::Body(_) => false,
        },
        Site::Query(one) => match address {
            Address::Query(other) => is_same(one, other),
            Address::Line(_) => false,
            Address::PathVar(_) => false,
            Address::Header(_) => false,
            Address::Body(_) => false,
        },
        Site::Header(one) => match address {
            Address::Header(other) => is_same(one, other),
            Address::Line(_) => false,
            Address::PathVar(_) => false,
            Address::Query(_) => false,
            Address::Body(_) => false,
        },
        Site::Body(one) => match address {
            Address::Body(other) => is_prefix(one, other) || is_prefix(other, one),
            Address::Line(_) => false,
            Address::PathVar(_) => false,
            Address::Query(_) => false,
            Address::Header(_) => false,
        },
    }
}

fn is_segment_at(
    policy: &Policy,
    mapping: Option<u32>,
    covered: bool,
    address: &Address,
    i: usize,
    part: &Part,
) -> bool
    ensures { result ≡ (spec.touches (spec.segment_address (spec.patterns_of (spec.mapping_at policy.now mapping)) i) (address_view address.now) && spec.is_secret_part covered (part_view part.now)) }
{
    touches(segment_site(policy, mapping, i), address) && is_secret_part(covered, part)
}

fn any_segment(
    policy: &Policy,
    mapping: Option<u32>,
    covered: bool,
    address: &Address,
    parts: &PartList,
) -> bool
    ensures { result ≡ secrecy.secret_segment (spec.patterns_of (spec.mapping_at policy.now mapping)) (address_view address.now) covered 0 (map part_view parts.now) }
{
    for i in 0..parts.len() {
        if is_segment_at(policy, mapping, covered, address, i, parts.item(i)) {
            return true;
        }
    }
    false
}

fn is_pair_at(covered: bool, address: &Address, pair: &Pair) -> bool
    ensures { result ≡ (spec.touches (spec.query (pair_view pair.now).name) (address_view address.now) && spec.is_secret_value covered (pair_view pair.now).value) }
{
    touches(Site::Query(&pair.name), address) && is_secret_value(covered, pair)
}

fn any_pair(covered: bool, address: &Address, pairs: &PairList) -> bool
    ensures { result ≡ secrecy.secret_pair (address_view address.now) covered (map pair_view pairs.now) }
{
    for i in 0..pairs.len() {
        if is_pair_at(covered, address, pairs.item(i)) {
            return true;
        }
    }
    false
}

fn is_header_at(covered: bool, address: &Address, header: &Header) -> bool
    ensures { result ≡ (spec.touches (spec.header_at (header_view header.now).name) (address_view address.now) && spec.is_secret_part covered (header_view header.now).value) }
{
    touches(Site::Header(&header.name), address) && is_secret_part(covered, &header.value)
}

fn any_header(covered: bool, address: &Address, headers: &HeaderList) -> bool
    ensures { result ≡ secrecy.secret_header (address_view address.now) covered (map header_view headers.now) }
{
    for i in 0..headers.len() {
        if is_header_at(covered, address, headers.item(i)) {
            return true;
        }
    }
    false
}

fn is_in_line(
    policy: &Policy,
    mapping: Option<u32>,
    covered: bool,
    address: &Address,
    request: &Request,
) -> bool
    ensures { result ≡ secrecy.line_secret policy.now mapping covered (address_view address.now) (request_head (request_line request.now)) }
{
    any_segment(policy, mapping, covered, address, &request.segments)
        || any_pair(covered, address, &request.query)
}

fn is_in_body(
    policy: &Policy,
    mapping: Option<u32>,
    kind: Kind,
    address: &Address,
    body: &Option<Doc>,
) -> bool
    ensures value { result ≡ secrecy.body_secret policy.now mapping (kind_view kind) (address_view address.now) body.now }
    ensures ordered { IsTrue (is_ordered_body body.now) }
{
    let Some(doc) = body else {
        return false;
    };
    let node = doc.node();
    match address {
        Address::Body(pointer) => is_body_secret(policy, mapping, kind, node, pointer),
        Address::Line(_) => false,
        Address::PathVar(_) => false,
        Address::Query(_) => false,
        Address::Header(_) => false,
    }
}

fn is_found(policy: &Policy, mapping: Option<u32>, message: &Message, address: &Address) -> bool
    ensures value { result ≡ secrecy.found_secret policy.now mapping (message_view message.now) (address_view address.now) }
    ensures ordered { IsTrue (is_ordered_body (message_view message.now).body) }
{
    match message {
        Message::Request(request) => {
            let covered = is_covered(policy, mapping, Kind::Request, address.site());
            let in_body = is_in_body(policy, mapping, Kind::Request, address, &request.body);
            is_in_line(policy, mapping, covered, address, request)
                || (any_header(covered, address, &request.headers) || in_body)
        }
        Message::Response(response) => {
            let covered = is_covered(policy, mapping, Kind::Response, address.site());
            let in_body = is_in_body(policy, mapping, Kind::Response, address, &response.body);
            any_header(covered, address, &response.headers) || in_body
        }
    }
}

/// Whether an address is secret in a message: a secret place stands at, above or beneath it. It takes
/// no memory, and goes once over the mapping's elements and over the parts that the address names.
pub fn is_secret(
    policy: &Policy,
    mapping: Option<u32>,
    message: &Message,
    address: &Address,
) -> bool
    ensures { result ≡ spec.is_secret policy.now mapping (message_view message.now) (address_view address.now) }
{
    is_found(policy, mapping, message, address)
}
