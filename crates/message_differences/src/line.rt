// The lines of two requests: their parts, the variables of the path, and the query.
ghost use Rattle.std.specs.Prelude.{◌≡◌, ◌||◌, map, slice_get, option_map, bytes_eq};
ghost use Rattle.spec_messages.specs.Policy as spec;
ghost use Rattle.http_message.specs.Reading.{part_view, pair_view, request_line};
ghost use Rattle.policy_documents.specs.View.{pattern_view};
ghost use Rattle.policy_tables.specs.View.{line_view};
ghost use Rattle.message_differences.specs.Fixed.{FirstFixed, Begins, parts_then, variable_changed};

use crate::change::Change;
use crate::named::{is_same_part, is_same_value, named_pairs};
use crate::names::{Place, first_named};
use http_message::{PairList, Part, PartList, Request};
use n32_values::{NoMemory, Text};
use policy_tables::{Address, LinePart, Pattern};
use std::alloc::Global;

fn is_free(patterns: &[Pattern], i: usize) -> bool
    ensures { result ≡ spec.is_free (slice_get (map pattern_view patterns.now) i) }
{
    match patterns.get(i) {
        Some(Pattern::Variable(_)) => true,
        Some(Pattern::Fixed(_)) => false,
        None => false,
    }
}

fn is_same_segment(patterns: &[Pattern], i: usize, one: &Part, other: &Part) -> bool
    ensures { result ≡ (spec.is_free (slice_get (map pattern_view patterns.now) i) || spec.same_part (part_view one.now) (part_view other.now)) }
{
    is_free(patterns, i) || is_same_part(one, other)
}

// As many segments, each the same but at a variable.
fn is_same_path(patterns: &[Pattern], before: &PartList, after: &PartList) -> bool
    ensures { result ≡ spec.same_path (map pattern_view patterns.now) 0 (map part_view before.now) (map part_view after.now) }
{
    if before.len() != after.len() {
        return false;
    }
    for i in 0..before.len() {
        if !is_same_segment(patterns, i, before.item(i), after.item(i)) {
            return false;
        }
    }
    true
}

fn is_same_text(one: &Text, other: &Text) -> bool
    ensures { result ≡ bytes_eq one.now other.now }
{
    one.as_str() == other.as_str()
}

// The first part of the line that differs, variables and query apart.
fn differing_part(patterns: &[Pattern], before: &Request, after: &Request) -> Option<LinePart>
    ensures { Begins (option_map line_view result) (parts_then (map pattern_view patterns.now) (request_line before.now) (request_line after.now)) }
{
    if !is_same_text(&before.method, &after.method) {
        return Some(LinePart::Method);
    }
    if !is_same_text(&before.scheme, &after.scheme) {
        return Some(LinePart::Scheme);
    }
    if !is_same_text(&before.authority, &after.authority) {
        return Some(LinePart::Authority);
    }
    if !is_same_text(&before.version, &after.version) {
        return Some(LinePart::Version);
    }
    if !is_same_path(patterns, &before.segments, &after.segments) {
        return Some(LinePart::Path);
    }
    None
}

// The address of a variable whose segments differ, where it isn't modifiable.
fn fixed_variable(
    alloc: Global,
    change: &Change<'_>,
    pattern: &Pattern,
    before: Option<&Part>,
    after: Option<&Part>,
) -> Result<Option<Address>, NoMemory>
    ensures { FirstFixed change.now result (variable_changed (pattern_view pattern.now) (option_map (λ p. part_view p.now) before.entry) (option_map (λ p. part_view p.now) after.entry)) }
{
    let Pattern::Variable(name) = pattern else {
        return Ok(None);
    };
    if is_same_value(before, after) {
        return Ok(None);
    }
    Ok(change.if_fixed(Address::PathVar(name.copy(alloc)?)))
}

fn first_variable(
    alloc: Global,
    change: &Change<'_>,
    patterns: &[Pattern],
    before: &PartList,
    after: &PartList,
) -> Result<Option<Address>, NoMemory>
    ensures { FirstFixed change.now result (spec.variables_changed (map pattern_view patterns.now) 0 (map part_view before.now) (map part_view after.now)) }
{
    for i in 0..patterns.len() {
        let fixed = fixed_variable(alloc, change, &patterns[i], before.get(i), after.get(i))?;
        if let Some(address) = fixed {
            return Ok(Some(address));
        }
    }
    Ok(None)
}

fn first_in_query(
    alloc: Global,
    change: &Change<'_>,
    before: &PairList,
    after: &PairList,
) -> Result<Option<Address>, NoMemory>
    ensures { FirstFixed change.now result (spec.named_changed spec.query spec.line_query_order (spec.pairs_named (map pair_view before.now)) (spec.pairs_named (map pair_view after.now))) }
{
    let before = named_pairs(alloc, before)?;
    let after = named_pairs(alloc, after)?;
    first_named(alloc, change, Place::Query, &before, &after)
}

/// The first difference of the lines of two requests that isn't modifiable. No part of a line but the
/// variables of its path and the values of its query is.
pub(crate) fn first_in_line(
    alloc: Global,
    change: &Change<'_>,
    before: &Request,
    after: &Request,
) -> Result<Option<Address>, NoMemory>
    ensures { FirstFixed change.now result (spec.line_changed change.now.policy.now change.now.mapping (request_line before.now) (request_line after.now)) }
{
    let patterns = change.patterns();
    if let Some(part) = differing_part(patterns, before, after) {
        return Ok(Some(Address::Line(part)));
    }
    let variable = first_variable(alloc, change, patterns, &before.segments, &after.segments)?;
    if let Some(address) = variable {
        return Ok(Some(address));
    }
    first_in_query(alloc, change, &before.query, &after.query)
}
