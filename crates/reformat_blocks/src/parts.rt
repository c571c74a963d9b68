// The parts of a line and of headers, with a hole in the place of each that is secret.
ghost use Rattle.std.specs.Prelude.{◌≡◌, ◌++◌, ◌∷◌, [], IfOk, OnOk, map as list_map, length, if◌then◌else◌};
ghost use Rattle.spec_messages.specs.Message.{hole_part, Part as SpecPart};
ghost use Rattle.spec_messages.specs.Policy.{numbered, segment_spot, pair_spot, header_spot, part_value as value_of, value_or_null};
ghost use Rattle.spec_messages.specs.Split.{hide_each, hide_part, hide_pair, hide_header};
ghost use Rattle.n32_values.specs.View.{tree_of};
ghost use Rattle.http_message.specs.Reading.{part_view, pair_view, header_view};
ghost use Rattle.reformat_blocks.specs.Rules.{segment_test, pair_test, header_test};

use doc_forms::hole_node;
use http_message::{Header, HeaderList, Pair, PairList, Part, PartList};
use n32_values::{NoMemory, Node, NodeList};
use policy_tables::Rules;
use std::alloc::Global;

/// The number of the hole that stands for the next value. More values than a `u32` counts fit no memory.
pub(crate) fn next_index(values: &NodeList) -> Result<u32, NoMemory>
    ensures { IfOk result (λ n. n ≡ length values.now) }
{
    match u32::try_from(values.len()) {
        Ok(index) => Ok(index),
        Err(_) => Err(NoMemory),
    }
}

fn copy_part(alloc: Global, part: &Part) -> Result<Part, NoMemory>
    ensures { IfOk result (λ p. part_view p ≡ part_view part.now) }
{
    match part {
        Part::Clear(text) => Ok(Part::Clear(text.copy(alloc)?)),
        Part::Hole(index) => Ok(Part::Hole(*index)),
    }
}

fn part_value(alloc: Global, part: &Part) -> Result<Node, NoMemory>
    ensures { IfOk result (λ n. tree_of n ≡ value_of (part_view part.now)) }
{
    match part {
        Part::Clear(text) => Ok(Node::Words(text.copy(alloc)?)),
        Part::Hole(index) => hole_node(alloc, *index),
    }
}

// The part itself, or the next hole, whose value is then the part.
fn hidden_part(
    alloc: Global,
    is_secret: bool,
    part: &Part,
    values: &mut NodeList,
) -> Result<Part, NoMemory>
    ensures part { IfOk result (λ p. part_view p ≡ (if is_secret then hole_part (length values.old) else part_view part.now)) }
    ensures values { OnOk result (values.new ≡ values.old ++ (if is_secret then value_of (part_view part.now) ∷ [] else [])) }
{
    if !is_secret {
        return copy_part(alloc, part);
    }
    let index = next_index(values)?;
    values.push(part_value(alloc, part)?)?;
    Ok(Part::Hole(index))
}

fn hidden_segment(
    alloc: Global,
    rules: &Rules<'_>,
    i: usize,
    part: &Part,
    values: &mut NodeList,
) -> Result<Part, NoMemory>
    ensures part { IfOk result (λ p. part_view p ≡ (if segment_test rules.now i (part_view part.now) then hide_part (length values.old) (part_view part.now) else part_view part.now)) }
    ensures values { OnOk result (values.new ≡ values.old ++ (if segment_test rules.now i (part_view part.now) then value_of (part_view part.now) ∷ [] else [])) }
{
    let is_secret = rules.is_secret_segment(i, part);
    hidden_part(alloc, is_secret, part, values)
}

pub(crate) fn hidden_segments(
    alloc: Global,
    rules: &Rules<'_>,
    parts: &PartList,
    values: &mut NodeList,
) -> Result<PartList, NoMemory>
    ensures parts { IfOk result (λ ps. list_map part_view ps ≡ hide_each (segment_test rules.now) hide_part 0 (length values.old) (list_map part_view parts.now)) }
    ensures values { OnOk result (values.new ≡ values.old ++ list_map (λ s. s.1) (numbered (segment_test rules.now) segment_spot value_of 0 (list_map part_view parts.now))) }
{
    let mut hidden = PartList::with_capacity(alloc, parts.len())?;
    for i in 0..parts.len() {
        hidden.push(hidden_segment(alloc, rules, i, parts.item(i), values)?)?;
    }
    Ok(hidden)
}

fn hidden_pair(
    alloc: Global,
    rules: &Rules<'_>,
    pair: &Pair,
    values: &mut NodeList,
) -> Result<Pair, NoMemory>
    ensures pair { IfOk result (λ p. pair_view p ≡ (if pair_test rules.now 0 (pair_view pair.now) then hide_pair (length values.old) (pair_view pair.now) else pair_view pair.now)) }
    ensures values { OnOk result (values.new ≡ values.old ++ (if pair_test rules.now 0 (pair_view pair.now) then value_or_null (pair_view pair.now).value ∷ [] else [])) }
{
    let is_secret = rules.is_secret_pair(pair);
    let name = pair.name.copy(alloc)?;
    match &pair.value {
        Some(value) => Ok(Pair {
            name,
            value: Some(hidden_part(alloc, is_secret, value, values)?),
        }),
        None => Ok(Pair { name, value: None }),
    }
}

pub(crate) fn hidden_pairs(
    alloc: Global,
    rules: &Rules<'_>,
    pairs: &PairList,
    values: &mut NodeList,
) -> Result<PairList, NoMemory>
    ensures pairs { IfOk result (λ ps. list_map pair_view ps ≡ hide_each (pair_test rules.now) hide_pair 0 (length values.old) (list_map pair_view pairs.now)) }
    ensures values { OnOk result (values.new ≡ values.old ++ list_map (λ s. s.1) (numbered (pair_test rules.now) pair_spot (λ p. value_or_null p.value) 0 (list_map pair_view pairs.now))) }
{
    let mut hidden = PairList::new(alloc);
    for i in 0..pairs.len() {
        hidden.push(hidden_pair(alloc, rules, pairs.item(i), values)?)?;
    }
    Ok(hidden)
}

fn hidden_header(
    alloc: Global,
    rules: &Rules<'_>,
    header: &Header,
    values: &mut NodeList,
) -> Result<Header, NoMemory>
    ensures header { IfOk result (λ h. header_view h ≡ (if header_test rules.now 0 (header_view header.now) then hide_header (length values.old) (header_view header.now) else header_view header.now)) }
    ensures values { OnOk result (values.new ≡ values.old ++ (if header_test rules.now 0 (header_view header.now) then value_of (header_view header.now).value ∷ [] else [])) }
{
    let is_secret = rules.is_secret_header(header);
    Ok(Header {
        name: header.name.copy(alloc)?,
        value: hidden_part(alloc, is_secret, &header.value, values)?,
    })
}

pub(crate) fn hidden_headers(
    alloc: Global,
    rules: &Rules<'_>,
    headers: &HeaderList,
    values: &mut NodeList,
) -> Result<HeaderList, NoMemory>
    ensures headers { IfOk result (λ hs. list_map header_view hs ≡ hide_each (header_test rules.now) hide_header 0 (length values.old) (list_map header_view headers.now)) }
    ensures values { OnOk result (values.new ≡ values.old ++ list_map (λ s. s.1) (numbered (header_test rules.now) header_spot (λ h. value_of h.value) 0 (list_map header_view headers.now))) }
{
    let mut hidden = HeaderList::with_capacity(alloc, headers.len())?;
    for i in 0..headers.len() {
        hidden.push(hidden_header(alloc, rules, headers.item(i), values)?)?;
    }
    Ok(hidden)
}
