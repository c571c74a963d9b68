// The place of each index, from what is found in walking order.
ghost use Rattle.std.specs.Prelude.{◌≡◌, ◌<◌, ◌++◌, ◌∷◌, [], Ok, Some, None, true, false, List as ListOf, MatchResult, MatchOption, OnOk, map};
ghost use Rattle.spec_documents.specs.Hole.{Mark, first_bad, is_bad_index, gathered as gathered_of};
ghost use Rattle.enc_index.specs.Places.{place_view};
ghost use Rattle.enc_index.specs.Marks.{mark_view, places_of_marks};
ghost use Rattle.enc_index.specs.Faults.{Tells};
ghost use Rattle.enc_index.specs.Tables.{HasFirst, Enters};

use crate::holes::{Holes, HolesFault, Place};
use crate::walk::Found;
use n32_values::{List, NoMemory};
use std::alloc::Global;
use std::collections::BTreeMap;

// The first place of each index, and the first index that stood before.
#[derive(Drop)]
struct Table {
    first: BTreeMap<u32, Place>,
    twice: Option<u32>,
}

pub(crate) fn settled(alloc: Global, found: List<Found>, count: u32) -> Result<Holes, HolesFault>
    ensures { MatchResult result
        (λ holes. places_of_marks (map mark_view found) count ≡ Ok holes)
        (λ fault. Tells fault (places_of_marks (map mark_view found) count)) }
{
    let Table { first, twice } = table_of(alloc, found, count)?;
    if let Some(index) = twice {
        return Err(HolesFault::Twice(index));
    }
    gathered(alloc, first, count)
}

// A mark without an index below the count is told at once.
fn table_of(alloc: Global, found: List<Found>, count: u32) -> Result<Table, HolesFault>
    ensures { MatchResult result
        (λ table. (first_bad count (map mark_view found) ≡ None) × Enters table (map mark_view found))
        (λ fault. Tells fault (places_of_marks (map mark_view found) count)) }
{
    let mut table = Table {
        first: BTreeMap::new(alloc),
        twice: None,
    };
    for mark in found.into_vec() {
        let Found { place, index } = mark;
        match below(index, count) {
            Some(index) => enter(&mut table, index, place)?,
            None => return Err(HolesFault::BadHole(place)),
        }
    }
    Ok(table)
}

fn below(index: Option<u32>, count: u32) -> Option<u32>
    ensures { MatchOption result
        (is_bad_index count index ≡ true)
        (λ i. (index ≡ Some i) × (is_bad_index count index ≡ false)) }
{
    match index {
        Some(index) if index < count => Some(index),
        _ => None,
    }
}

fn enter(table: &mut Table, index: u32, place: Place) -> Result<(), NoMemory>
    ensures { OnOk result ((ms : ListOf Mark) → Enters table.old ms
        → Enters table.new (ms ++ (record { place = place_view place; index = Some index }) ∷ [])) }
{
    if table.first.contains_key(&index) {
        table.twice = table.twice.or(Some(index));
        return Ok(());
    }
    match table.first.insert(index, place) {
        Ok(_) => Ok(()),
        Err(_) => Err(NoMemory),
    }
}

// The places of the indexes below the count, or the first that has none.
fn gathered(alloc: Global, first: BTreeMap<u32, Place>, count: u32) -> Result<Holes, HolesFault>
    ensures { (ms : ListOf Mark) → HasFirst first ms → MatchResult result
        (λ holes. gathered_of ms count 0 ≡ Ok holes)
        (λ fault. Tells fault (gathered_of ms count 0)) }
{
    let mut first = first;
    let mut places = List::new(alloc);
    for index in 0..count {
        match first.remove(&index) {
            Some(place) => places.push(place)?,
            None => return Err(HolesFault::Missing(index)),
        }
    }
    Ok(Holes::of_places(places))
}
