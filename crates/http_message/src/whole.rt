// Whether a message is whole: no hole but in the body, and all but the body in the grammar.
ghost use Rattle.std.specs.Prelude.{◌≡◌, ◌&&◌, not, option_map, bytes_eq, nat_lt, length};
ghost use Rattle.std.specs.List.{list_all};
ghost use Rattle.spec_messages.specs.Message as spec;
ghost use Rattle.spec_documents.specs.Text as texts;
ghost use Rattle.http_message.specs.Reading.{part_view, pair_view, header_view, message_view, request_line};

use crate::message::{Header, HeaderList, Message, Pair, PairList, Part, PartList, Request};
use crate::protocol::{is_method, is_status};

fn is_segment(part: &Part) -> bool
    ensures { result ≡ spec.is_text texts.is_segment (part_view part.now) }
{
    match part {
        Part::Clear(text) => doc_forms::is_segment(text.as_str()),
        Part::Hole(_) => false,
    }
}

fn are_segments(parts: &PartList) -> bool
    ensures { result ≡ list_all (λ p. spec.is_text texts.is_segment (part_view p)) parts.now }
{
    parts.as_slice().iter().all(|part| is_segment(part))
}

fn is_query_value(value: &Option<Part>) -> bool
    ensures { result ≡ spec.is_value (option_map part_view value.now) }
{
    match value {
        None => true,
        Some(Part::Clear(text)) => doc_forms::is_query_value(text.as_str()),
        Some(Part::Hole(_)) => false,
    }
}

fn is_pair(pair: &Pair) -> bool
    ensures { result ≡ (texts.is_query_name pair.now.name && spec.is_value (option_map part_view pair.now.value)) }
{
    doc_forms::is_query_name(pair.name.as_str()) && is_query_value(&pair.value)
}

fn are_pairs(pairs: &PairList) -> bool
    ensures { result ≡ list_all (λ p. texts.is_query_name p.name && spec.is_value (option_map part_view p.value)) pairs.now }
{
    pairs.as_slice().iter().all(|pair| is_pair(pair))
}

fn is_upper(byte: u8) -> bool
    ensures { result ≡ texts.is_within 65 90 byte }
{
    b'A' <= byte && byte <= b'Z'
}

#[tactic(auto, using(spec_messages::proofs::WholeRead::lower_same))]
fn is_lower(text: &str) -> bool
    ensures { result ≡ bytes_eq (texts.lower text.now) text.now }
{
    has_no_upper(text)
}

fn has_no_upper(text: &str) -> bool
    ensures { result ≡ list_all (λ b. not (texts.is_within 65 90 b)) text.now }
{
    text.as_bytes().iter().all(|byte| !is_upper(*byte))
}

fn is_header_value(part: &Part) -> bool
    ensures { result ≡ spec.is_text texts.is_header_value (part_view part.now) }
{
    match part {
        Part::Clear(text) => doc_forms::is_header_value(text.as_str()),
        Part::Hole(_) => false,
    }
}

fn is_header(header: &Header) -> bool
    ensures { result ≡ spec.is_whole_header (header_view header.now) }
{
    let name = header.name.as_str();
    doc_forms::is_header_name(name) && is_lower(name) && is_header_value(&header.value)
}

fn are_headers(headers: &HeaderList) -> bool
    ensures { result ≡ list_all (λ h. spec.is_whole_header (header_view h)) headers.now }
{
    headers.as_slice().iter().all(|header| is_header(header))
}

fn has_words(request: &Request) -> bool
    ensures { result ≡ (texts.is_method request.now.method && (texts.is_scheme request.now.scheme
        && (texts.is_authority request.now.authority && texts.is_version request.now.version))) }
{
    is_method(request.method.as_str())
        && doc_forms::is_scheme(request.scheme.as_str())
        && doc_forms::is_authority(request.authority.as_str())
        && doc_forms::is_version(request.version.as_str())
}

fn has_segments(parts: &PartList) -> bool
    ensures { result ≡ (nat_lt 0 (length parts.now) && list_all (λ p. spec.is_text texts.is_segment (part_view p)) parts.now) }
{
    0 < parts.len() && are_segments(parts)
}

#[tactic(auto, using(crate::proofs::Wholes::all_map, crate::proofs::Wholes::length_map))]
fn is_whole_line(request: &Request) -> bool
    ensures { result ≡ spec.is_whole_line (request_line request.now) }
{
    has_words(request) && (has_segments(&request.segments) && are_pairs(&request.query))
}

/// Whether a message is whole: no part is a hole, and all but the body is in the grammar, with at
/// least one segment and header names in lower case.
#[tactic(auto, using(crate::proofs::Wholes::all_map))]
pub fn is_whole(message: &Message) -> bool
    ensures { result ≡ spec.is_whole (message_view message.now) }
{
    match message {
        Message::Request(request) => is_whole_line(request) && are_headers(&request.headers),
        Message::Response(response) => {
            is_status(response.status) && are_headers(&response.headers)
        }
    }
}
