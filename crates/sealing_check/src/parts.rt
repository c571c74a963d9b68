// Segments, pairs and headers that stand in clear.
ghost use Rattle.std.specs.Prelude.{◌≡◌, IfOk, map, option_map, false};
ghost use Rattle.std.specs.Option.{option_map_or};
ghost use Rattle.spec_messages.specs.Policy as spec;
ghost use Rattle.spec_exchange.specs.Rebuilding.{is_hidden, is_hole as is_hole_part};
ghost use Rattle.http_message.specs.Reading.{part_view, pair_view, header_view, message_view};
ghost use Rattle.policy_tables.specs.View.{address_view};
ghost use Rattle.sealing_check.specs.Rules.{segment_test, segment_site, pair_test, header_test};
ghost use Rattle.sealing_check.specs.Found.{first_address, pair_site, header_site};

use http_message::{Header, HeaderList, Message, Pair, PairList, Part, PartList};
use n32_values::NoMemory;
use policy_tables::{Address, LinePart, Pattern, Rules};
use std::alloc::Global;

/// The rules, and the message with holes.
#[derive(Clone, Copy, Drop)]
pub(crate) struct Sealed<'a> {
    pub(crate) rules: &'a Rules<'a>,
    pub(crate) holed: &'a Message,
}

fn is_hole(part: &Part) -> bool
    ensures { result ≡ is_hole_part (part_view part.now) }
{
    match part {
        Part::Clear(_) => false,
        Part::Hole(_) => true,
    }
}

// ---- segments

fn is_segment_hidden(holed: &Message, i: usize) -> bool
    ensures { result ≡ is_hidden (message_view holed.now) (spec.segment_spot i) }
{
    match holed {
        Message::Request(request) => match request.segments.get(i) {
            Some(part) => is_hole(part),
            None => false,
        },
        Message::Response(_) => false,
    }
}

fn is_segment_clear(sealed: &Sealed<'_>, i: usize, part: &Part) -> bool
    ensures { result ≡ segment_test sealed.now i (part_view part.now) }
{
    sealed.rules.is_secret_segment(i, part) && !is_segment_hidden(sealed.holed, i)
}

// The address of segment `i`: its variable's, where the template has one there.
fn segment_address(alloc: Global, rules: &Rules<'_>, i: usize) -> Result<Address, NoMemory>
    ensures { IfOk result (λ a. address_view a ≡ spec.segment_address (spec.patterns_of (spec.mapping_at rules.now.policy rules.now.mapping)) i) }
{
    match rules.mapping() {
        Some(mapping) => match mapping.patterns.get(i) {
            Some(Pattern::Variable(name)) => Ok(Address::PathVar(name.copy(alloc)?)),
            Some(Pattern::Fixed(_)) => Ok(Address::Line(LinePart::Path)),
            None => Ok(Address::Line(LinePart::Path)),
        },
        None => Ok(Address::Line(LinePart::Path)),
    }
}

/// The address of the first segment in clear.
pub(crate) fn clear_segment(
    alloc: Global,
    sealed: &Sealed<'_>,
    parts: &PartList,
) -> Result<Option<Address>, NoMemory>
    ensures { IfOk result (λ a. option_map address_view a ≡ first_address (segment_test sealed.now) (segment_site sealed.now) 0 (map part_view parts.now)) }
{
    for i in 0..parts.len() {
        if is_segment_clear(sealed, i, parts.item(i)) {
            let address = segment_address(alloc, sealed.rules, i)?;
            return Ok(Some(address));
        }
    }
    Ok(None)
}

// ---- pairs of the query

fn is_value_hole(pair: &Pair) -> bool
    ensures { result ≡ option_map_or is_hole_part (pair_view pair.now).value false }
{
    match &pair.value {
        Some(part) => is_hole(part),
        None => false,
    }
}

fn is_pair_hidden(holed: &Message, i: usize) -> bool
    ensures { result ≡ is_hidden (message_view holed.now) (spec.pair_spot i) }
{
    match holed {
        Message::Request(request) => match request.query.get(i) {
            Some(pair) => is_value_hole(pair),
            None => false,
        },
        Message::Response(_) => false,
    }
}

fn is_pair_clear(sealed: &Sealed<'_>, i: usize, pair: &Pair) -> bool
    ensures { result ≡ pair_test sealed.now i (pair_view pair.now) }
{
    sealed.rules.is_secret_pair(pair) && !is_pair_hidden(sealed.holed, i)
}

/// The address of the first pair in clear.
pub(crate) fn clear_pair(
    alloc: Global,
    sealed: &Sealed<'_>,
    pairs: &PairList,
) -> Result<Option<Address>, NoMemory>
    ensures { IfOk result (λ a. option_map address_view a ≡ first_address (pair_test sealed.now) pair_site 0 (map pair_view pairs.now)) }
{
    for i in 0..pairs.len() {
        let pair = pairs.item(i);
        if is_pair_clear(sealed, i, pair) {
            let name = pair.name.copy(alloc)?;
            return Ok(Some(Address::Query(name)));
        }
    }
    Ok(None)
}

// ---- headers

fn is_header_hidden(holed: &Message, i: usize) -> bool
    ensures { result ≡ is_hidden (message_view holed.now) (spec.header_spot i) }
{
    match holed.headers().get(i) {
        Some(header) => is_hole(&header.value),
        None => false,
    }
}

fn is_header_clear(sealed: &Sealed<'_>, i: usize, header: &Header) -> bool
    ensures { result ≡ header_test sealed.now i (header_view header.now) }
{
    sealed.rules.is_secret_header(header) && !is_header_hidden(sealed.holed, i)
}

/// The address of the first header in clear.
pub(crate) fn clear_header(
    alloc: Global,
    sealed: &Sealed<'_>,
    headers: &HeaderList,
) -> Result<Option<Address>, NoMemory>
    ensures { IfOk result (λ a. option_map address_view a ≡ first_address (header_test sealed.now) header_site 0 (map header_view headers.now)) }
{
    for i in 0..headers.len() {
        let header = headers.item(i);
        if is_header_clear(sealed, i, header) {
            let name = header.name.copy(alloc)?;
            return Ok(Some(Address::Header(name)));
        }
    }
    Ok(None)
}
