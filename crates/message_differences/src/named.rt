// The pairs of a query, or headers: each a name and perhaps a value.
ghost use Rattle.std.specs.Prelude.{◌≡◌, Some, [], ◌∷◌, ◌++◌, map, bytes_eq, IfOk, OnOk, ℕ, List, option_map, if◌then◌else◌};
ghost use Rattle.std.specs.Option.{option_map_or};
ghost use Rattle.spec_messages.specs.Policy as spec;
ghost use Rattle.http_message.specs.Reading.{part_view, pair_view, header_view};
ghost use Rattle.message_differences.specs.Named.{named_view, items_of, group, differ};

use http_message::{Header, HeaderList, Pair, PairList, Part};
use n32_values::Text;
use std::alloc::{AllocError, Global};
use std::collections::BTreeMap;

/// A pair of a query or a header.
#[derive(Clone, Copy)]
pub(crate) struct Named<'a> {
    pub(crate) name: &'a Text,
    pub(crate) value: Option<&'a Part>,
}

fn named_pair(pair: &Pair) -> Named<'_>
    ensures { named_view result ≡ ((pair_view pair.now).name, (pair_view pair.now).value) }
{
    match &pair.value {
        Some(value) => Named {
            name: &pair.name,
            value: Some(value),
        },
        None => Named {
            name: &pair.name,
            value: None,
        },
    }
}

fn named_header(header: &Header) -> Named<'_>
    ensures { named_view result ≡ ((header_view header.now).name, Some (header_view header.now).value) }
{
    Named {
        name: &header.name,
        value: Some(&header.value),
    }
}

/// The pairs of a query.
pub(crate) fn named_pairs(alloc: Global, pairs: &PairList) -> Result<Vec<Named<'_>>, AllocError>
    ensures { IfOk result (λ list. map named_view list.items ≡ spec.pairs_named (map pair_view pairs.now)) }
{
    let mut list = Vec::new(alloc);
    for i in 0..pairs.len() {
        list.push(named_pair(pairs.item(i)))?;
    }
    Ok(list)
}

/// Headers.
pub(crate) fn named_headers(
    alloc: Global,
    headers: &HeaderList,
) -> Result<Vec<Named<'_>>, AllocError>
    ensures { IfOk result (λ list. map named_view list.items ≡ spec.headers_named (map header_view headers.now)) }
{
    let mut list = Vec::new(alloc);
    for i in 0..headers.len() {
        list.push(named_header(headers.item(i)))?;
    }
    Ok(list)
}

/// Whether two parts are the same text or the same hole.
pub(crate) fn is_same_part(one: &Part, other: &Part) -> bool
    ensures { result ≡ spec.same_part (part_view one.now) (part_view other.now) }
{
    match (one, other) {
        (Part::Clear(one), Part::Clear(other)) => one.as_str() == other.as_str(),
        (Part::Hole(one), Part::Hole(other)) => one == other,
        (Part::Clear(_), Part::Hole(_)) => false,
        (Part::Hole(_), Part::Clear(_)) => false,
    }
}

/// Whether two values are the same, or both absent.
pub(crate) fn is_same_value(one: Option<&Part>, other: Option<&Part>) -> bool
    ensures { result ≡ spec.same_option spec.same_part (option_map (λ p. part_view p.now) one.entry) (option_map (λ p. part_view p.now) other.entry) }
{
    match (one, other) {
        (None, None) => true,
        (Some(one), Some(other)) => is_same_part(one, other),
        (Some(_), None) => false,
        (None, Some(_)) => false,
    }
}

fn is_same_named(one: Named<'_>, other: Named<'_>) -> bool
    ensures { result ≡ spec.same_named (named_view one.entry) (named_view other.entry) }
{
    one.name.as_str() == other.name.as_str() && is_same_value(one.value, other.value)
}

/// Whether two lists have the same names and values in the same order.
pub(crate) fn is_same_list(one: &[Named<'_>], other: &[Named<'_>]) -> bool
    ensures { result ≡ spec.same_list spec.same_named (map named_view one.now) (map named_view other.now) }
{
    if one.len() != other.len() {
        return false;
    }
    for i in 0..one.len() {
        if !is_same_named(one[i], other[i]) {
            return false;
        }
    }
    true
}

/// The named of each name, in their order.
pub(crate) type Groups<'a> = BTreeMap<&'a str, Vec<Named<'a>>>;

// Takes a group out; a group that isn't there is empty.
fn taken<'a>(alloc: Global, groups: &mut Groups<'a>, name: &str) -> Vec<Named<'a>>
    ensures items { result.items ≡ items_of name.now groups.old }
    ensures others { (q : List ℕ) → items_of q groups.new ≡ (if bytes_eq name.now q then [] else items_of q groups.old) }
{
    match groups.remove(name) {
        Some(group) => group,
        None => Vec::new(alloc),
    }
}

fn add<'a>(
    alloc: Global,
    groups: &mut Groups<'a>,
    name: &'a str,
    named: Named<'a>,
) -> Result<(), AllocError>
    ensures { OnOk result ((q : List ℕ) → items_of q groups.new ≡ (if bytes_eq q name.now then items_of q groups.old ++ named.entry ∷ [] else items_of q groups.old)) }
{
    let mut group = taken(alloc, groups, name);
    group.push(named)?;
    groups.insert(name, group)?;
    Ok(())
}

/// Groups a list by its names, each looked up in a map.
pub(crate) fn grouped<'a>(alloc: Global, list: &[Named<'a>]) -> Result<Groups<'a>, AllocError>
    ensures { IfOk result (λ groups. (q : List ℕ) → group q groups ≡ spec.of_name q (map named_view list.now)) }
{
    let mut groups: Groups<'a> = BTreeMap::new(alloc);
    for named in list {
        add(alloc, &mut groups, named.name.as_str(), *named)?;
    }
    Ok(groups)
}

// Whether two groups, of which each may be absent, have the same values in the same order.
fn is_same_group(one: Option<&Vec<Named<'_>>>, other: Option<&Vec<Named<'_>>>) -> bool
    ensures { result ≡ spec.same_list spec.same_named (option_map_or (λ g. map named_view g.now.items) one.entry []) (option_map_or (λ g. map named_view g.now.items) other.entry []) }
{
    match (one, other) {
        (None, None) => true,
        (Some(one), Some(other)) => is_same_list(one, other),
        (Some(one), None) => one.is_empty(),
        (None, Some(other)) => other.is_empty(),
    }
}

/// Whether the values of a name differ.
pub(crate) fn is_changed(before: &Groups<'_>, after: &Groups<'_>, name: &str) -> bool
    ensures { result ≡ differ before.now after.now name.now }
{
    !is_same_group(before.get(name), after.get(name))
}
