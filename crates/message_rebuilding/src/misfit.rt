// The least index whose value fills a part of a message and is no text of its grammar.
ghost use Rattle.std.specs.Prelude.{◌≡◌, map as list_map, option_map};
ghost use Rattle.spec_documents.specs.Hole.{is_words, value_at};
ghost use Rattle.spec_messages.specs.Rebuilt as spec;
ghost use Rattle.doc_forms.specs.Grammars.{test_of};
ghost use Rattle.http_message.specs.Reading.{part_view, pair_view, header_view, message_view, request_line};
ghost use Rattle.spec_messages.specs.Message.{request};

use doc_forms::Grammar;
use http_message::{HeaderList, Message, Pair, PairList, Part, PartList, Request};
use n32_values::{Node, NodeList};

fn lesser(left: Option<u32>, right: Option<u32>) -> Option<u32>
    ensures { result ≡ spec.lesser left right }
{
    match (left, right) {
        (Some(left), Some(right)) => Some(left.min(right)),
        (Some(left), None) => Some(left),
        (None, right) => right,
    }
}

#[tactic(auto, using(crate::proofs::Values::value_none))]
fn fits(grammar: Grammar, values: &NodeList, index: u32) -> bool
    ensures { result ≡ is_words (test_of grammar) (value_at values.now index) }
{
    match values.get(index as usize) {
        Some(Node::Words(text)) => grammar.fits(text.as_str()),
        _ => false,
    }
}

fn misfit(grammar: Grammar, values: &NodeList, part: &Part) -> Option<u32>
    ensures { result ≡ spec.misfit (test_of grammar) values.now (part_view part.now) }
{
    match part {
        Part::Clear(_) => None,
        Part::Hole(index) => {
            if fits(grammar, values, *index) {
                None
            } else {
                Some(*index)
            }
        }
    }
}

fn pair_misfit(values: &NodeList, pair: &Pair) -> Option<u32>
    ensures { result ≡ spec.value_misfit values.now (option_map part_view pair.now.value) }
{
    match &pair.value {
        Some(value) => misfit(Grammar::QueryValue, values, value),
        None => None,
    }
}

fn segments_misfit(values: &NodeList, parts: &PartList) -> Option<u32>
    ensures { result ≡ spec.segments_misfit values.now (list_map part_view parts.now) }
{
    let mut least = None;
    for i in 0..parts.len() {
        least = lesser(least, misfit(Grammar::Segment, values, parts.item(i)));
    }
    least
}

fn query_misfit(values: &NodeList, pairs: &PairList) -> Option<u32>
    ensures { result ≡ spec.query_misfit values.now (list_map pair_view pairs.now) }
{
    let mut least = None;
    for i in 0..pairs.len() {
        least = lesser(least, pair_misfit(values, pairs.item(i)));
    }
    least
}

fn headers_misfit(values: &NodeList, headers: &HeaderList) -> Option<u32>
    ensures { result ≡ spec.headers_misfit values.now (list_map header_view headers.now) }
{
    let mut least = None;
    for i in 0..headers.len() {
        least = lesser(
            least,
            misfit(Grammar::HeaderValue, values, &headers.item(i).value),
        );
    }
    least
}

fn line_misfit(values: &NodeList, line: &Request) -> Option<u32>
    ensures { result ≡ spec.head_misfit values.now (request (request_line line.now)) }
{
    lesser(
        segments_misfit(values, &line.segments),
        query_misfit(values, &line.query),
    )
}

pub(crate) fn text_misfit(values: &NodeList, message: &Message) -> Option<u32>
    ensures { result ≡ spec.text_misfit values.now (message_view message.now) }
{
    match message {
        Message::Request(request) => lesser(
            line_misfit(values, request),
            headers_misfit(values, &request.headers),
        ),
        Message::Response(response) => headers_misfit(values, &response.headers),
    }
}
