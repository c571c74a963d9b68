// Whether holes stand about a place.
ghost use Rattle.std.specs.Prelude.{◌≡◌, ◌&&◌, IfOk, map, not, is_some};
ghost use Rattle.std.specs.List.{list_any};
ghost use Rattle.spec_documents.specs.Hole.{all_marks, object_marks};
ghost use Rattle.spec_documents.specs.Place.{is_prefix as begins_with, is_beneath as goes_beneath};
ghost use Rattle.enc_index.specs.Marks.{mark_view};
ghost use Rattle.enc_index.specs.Places.{place_view};
ghost use Rattle.enc_index.specs.About.{is_object_above};

use crate::holes::Place;
use crate::walk::{Found, found_in};
use json_ptr::{Pointer, is_prefix};
use n32_values::{Doc, List, NoMemory};
use std::alloc::Global;

/// Whether a hole stands at a place or beneath it, or in the text there; and so for an object that has a
/// member `encBlockIndex` and is no hole. Every document is walked, as `places` does.
pub fn holds_hole(alloc: Global, block: &Doc, place: &Pointer) -> Result<bool, NoMemory>
    ensures { IfOk result (λ holds. holds ≡ list_any (λ m. begins_with place.now m.place.pointer) (all_marks block.now)) }
{
    let found = found_in(alloc, block.node())?;
    Ok(is_any_within(&found, place))
}

fn is_any_within(found: &List<Found>, place: &Pointer) -> bool
    ensures { result ≡ list_any (λ m. begins_with place.now m.place.pointer) (map mark_view found.now) }
{
    for i in 0..found.len() {
        if is_prefix(place, &found.item(i).place.pointer) {
            return true;
        }
    }
    false
}

/// Whether a place stands strictly beneath an object hole, or an object that has a member `encBlockIndex`
/// and is no hole.
pub fn goes_beneath_hole(alloc: Global, block: &Doc, place: &Pointer) -> Result<bool, NoMemory>
    ensures { IfOk result (λ goes. goes ≡ list_any (λ m. goes_beneath m.0 place.now) (object_marks block.now)) }
{
    let found = found_in(alloc, block.node())?;
    Ok(is_any_above(&found, place))
}

fn is_any_above(found: &List<Found>, place: &Pointer) -> bool
    ensures { result ≡ list_any (is_object_above place.now) (map mark_view found.now) }
{
    for i in 0..found.len() {
        if is_above(&found.item(i).place, place) {
            return true;
        }
    }
    false
}

// Whether a place stands strictly beneath another.
fn is_beneath(above: &Pointer, place: &Pointer) -> bool
    ensures { result ≡ goes_beneath above.now place.now }
{
    if above.len() < place.len() {
        return is_prefix(above, place);
    }
    false
}

fn is_above(hole: &Place, place: &Pointer) -> bool
    ensures { result ≡ not (is_some hole.now.part) && goes_beneath hole.now.pointer place.now }
{
    hole.part.is_none() && is_beneath(&hole.pointer, place)
}
