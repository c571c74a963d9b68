// The first name whose list of values differs and isn't modifiable, and the order of all others.
ghost use Rattle.std.specs.Prelude.{◌≡◌, [], ◌∷◌, ◌++◌, map, filter, IfOk, None, Some, ℕ, List, bytes_eq, OnOk, if◌then◌else◌};
ghost use Rattle.spec_messages.specs.Policy as spec;
ghost use Rattle.policy_tables.specs.View.{line_view, address_view};
ghost use Rattle.message_differences.specs.Fixed.{FirstFixed};
ghost use Rattle.message_differences.specs.Named.{named_view, verdict, differ, stays, address_of, order_of, Known};

use crate::change::Change;
use crate::named::{Groups, Named, grouped, is_changed, is_same_list};
use n32_values::{NoMemory, Text};
use policy_tables::{Address, LinePart};
use std::alloc::{AllocError, Global};
use std::collections::BTreeMap;

/// Where named things stand.
#[derive(Clone, Copy)]
pub(crate) enum Place {
    /// They are the pairs of the query.
    Query,
    /// They are the headers.
    Headers,
}

impl Place {
    fn address(self, name: Text) -> Address
        ensures { address_view result ≡ address_of self name }
    {
        match self {
            Place::Query => Address::Query(name),
            Place::Headers => Address::Header(name),
        }
    }

    fn order(self) -> LinePart
        ensures { line_view result ≡ order_of self }
    {
        match self {
            Place::Query => LinePart::QueryOrder,
            Place::Headers => LinePart::HeaderOrder,
        }
    }
}

// Whether the values of a name differ, for the names that were looked at.
type Verdicts<'a> = BTreeMap<&'a str, bool>;

fn note<'a>(verdicts: &mut Verdicts<'a>, name: &'a str, changed: bool) -> Result<(), AllocError>
    ensures { OnOk result ((q : List ℕ) → verdict q verdicts.new ≡ (if bytes_eq name.now q then Some changed else verdict q verdicts.old)) }
{
    verdicts.insert(name, changed)?;
    Ok(())
}

fn fixed_name(
    alloc: Global,
    change: &Change<'_>,
    place: Place,
    name: &Text,
    changed: bool,
) -> Result<Option<Address>, NoMemory>
    ensures { FirstFixed change.now result (if changed then address_of place name.now ∷ [] else []) }
{
    if !changed {
        return Ok(None);
    }
    Ok(change.if_fixed(place.address(name.copy(alloc)?)))
}

fn first_name<'a>(
    alloc: Global,
    change: &Change<'_>,
    place: Place,
    names: &[&'a Text],
    before: &Groups<'a>,
    after: &Groups<'a>,
    verdicts: &mut Verdicts<'a>,
) -> Result<Option<Address>, NoMemory>
    requires { (q : List ℕ) → verdict q verdicts.old ≡ None }
    ensures found { FirstFixed change.now result (map (address_of place) (filter (differ before.now after.now) (spec.once_each [] (map (λ n. n.now) names.now)))) }
    ensures known { IfOk result (λ f. f ≡ None → Known (differ before.now after.now) (map (λ n. n.now) names.now) verdicts.new) }
{
    for i in 0..names.len() {
        let name = names[i];
        if verdicts.contains_key(name.as_str()) {
            continue;
        }
        let changed = is_changed(before, after, name.as_str());
        note(verdicts, name.as_str(), changed)?;
        let fixed = fixed_name(alloc, change, place, name, changed)?;
        if let Some(address) = fixed {
            return Ok(Some(address));
        }
    }
    Ok(None)
}

fn names_of<'a>(
    alloc: Global,
    before: &[Named<'a>],
    after: &[Named<'a>],
) -> Result<Vec<&'a Text>, AllocError>
    ensures { IfOk result (λ names. map (λ n. n.now) names.items ≡ map (λ a. a.0) (map named_view before.now ++ map named_view after.now)) }
{
    let mut names = Vec::new(alloc);
    for named in before {
        names.push(named.name)?;
    }
    for named in after {
        names.push(named.name)?;
    }
    Ok(names)
}

fn is_unchanged(verdicts: &Verdicts<'_>, name: &str) -> bool
    ensures { result ≡ stays verdicts.now name.now }
{
    match verdicts.get(name) {
        Some(changed) => !*changed,
        None => true,
    }
}

// Those whose names' values don't differ.
fn unchanged<'a>(
    alloc: Global,
    verdicts: &Verdicts<'_>,
    list: &[Named<'a>],
) -> Result<Vec<Named<'a>>, AllocError>
    ensures { IfOk result (λ kept. map named_view kept.items ≡ filter (λ a. stays verdicts.now a.0) (map named_view list.now)) }
{
    let mut kept = Vec::new(alloc);
    for named in list {
        if is_unchanged(verdicts, named.name.as_str()) {
            kept.push(*named)?;
        }
    }
    Ok(kept)
}

fn is_same_order(
    alloc: Global,
    verdicts: &Verdicts<'_>,
    before: &[Named<'_>],
    after: &[Named<'_>],
) -> Result<bool, AllocError>
    ensures { IfOk result (λ same. same ≡ spec.same_list spec.same_named (filter (λ a. stays verdicts.now a.0) (map named_view before.now)) (filter (λ a. stays verdicts.now a.0) (map named_view after.now))) }
{
    let before = unchanged(alloc, verdicts, before)?;
    let after = unchanged(alloc, verdicts, after)?;
    Ok(is_same_list(&before, &after))
}

/// The first difference of two lists of named things that isn't modifiable. Each name is looked up in
/// a map, so that the time grows with the lists' length times its logarithm. Lists that are the same
/// take no memory.
pub(crate) fn first_named(
    alloc: Global,
    change: &Change<'_>,
    place: Place,
    before: &[Named<'_>],
    after: &[Named<'_>],
) -> Result<Option<Address>, NoMemory>
    ensures { FirstFixed change.now result (spec.named_changed (address_of place) (order_of place) (map named_view before.now) (map named_view after.now)) }
{
    if is_same_list(before, after) {
        return Ok(None);
    }
    let names = names_of(alloc, before, after)?;
    let own = grouped(alloc, before)?;
    let other = grouped(alloc, after)?;
    let mut verdicts = BTreeMap::new(alloc);
    let found = first_name(alloc, change, place, &names, &own, &other, &mut verdicts)?;
    if let Some(address) = found {
        return Ok(Some(address));
    }
    let same = is_same_order(alloc, &verdicts, before, after)?;
    if same {
        return Ok(None);
    }
    Ok(Some(Address::Line(place.order())))
}
