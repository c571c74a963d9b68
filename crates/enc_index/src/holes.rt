ghost use Rattle.std.specs.Prelude.{◌≡◌, ◌<◌, ◌^◌, Ok, length, slice_get, option_map, OnSome, MatchResult, map};
ghost use Rattle.spec_documents.specs.Hole.{places as places_of};
ghost use Rattle.enc_index.specs.Places.{place_view};
ghost use Rattle.enc_index.specs.Faults.{Tells};

use crate::settle::settled;
use crate::walk::found_in;
use json_ptr::Pointer;
use n32_values::{Doc, List, NoMemory};
use std::alloc::Global;
use std::marker::Model;

/// Where a hole stands: the pointer of its object. For a text hole it is the pointer of the path or of the query,
/// and the number of its segment or pair, from 0.
#[derive(Drop)]
pub struct Place {
    pub pointer: Pointer,
    pub part: Option<usize>,
}

/// The places of a block's holes, which contracts see as the list of places by index.
#[derive(Drop)]
pub struct Holes {
    places: List<Place>,
}

impl Model for Holes {
    ghost use Rattle.std.specs.Prelude.{List, map, length, ◌<◌, ◌^◌};
    ghost use Rattle.spec_documents.specs.Hole.{HolePlace};

    ghost Value = { List HolePlace };

    ghost use Rattle.enc_index.specs.Places.{place_view};

    ghost view = { λ h. map place_view h.places };

    ghost invariant = { λ h. length h.places < 2 ^ 32 };
}

impl Holes {
    /// How many holes there are.
    pub fn len(&self) -> usize
        ensures value { result ≡ length self.now }
        ensures small { result < 2 ^ 32 }
    {
        self.places.len()
    }

    /// The place of the hole with index `i`, or `None` exactly at or past the number of holes.
    pub fn get(&self, i: usize) -> Option<&Place>
        ensures value { option_map (λ p. place_view p.now) result ≡ slice_get self.now i }
        ensures within { OnSome result (i < length self.now) }
    {
        self.places.get(i)
    }

    // The place of a hole that is there.
    pub(crate) fn item(&self, i: usize) -> &Place
        requires { i < length self.now }
        ensures { slice_get self.now i ≡ Some (place_view result.now) }
    {
        self.places.item(i)
    }

    pub(crate) fn of_places(places: List<Place>) -> Holes
        requires { length places < 2 ^ 32 }
        ensures { result ≡ map place_view places }
    {
        Holes { places }
    }
}

/// Why a block doesn't have each of so many holes once: the first `BadHole` in walking order, else the first `Twice` in
/// walking order, else the least `Missing`.
#[derive(Drop)]
pub enum HolesFault {
    /// Here stands an object with a member `encBlockIndex` that is no hole, or a hole whose index isn't below the count.
    BadHole(Place),
    /// The hole with this index stood before.
    Twice(u32),
    /// There is no hole with this index.
    Missing(u32),
    NoMemory,
}

impl From<NoMemory> for HolesFault {
    ghost use Rattle.enc_index.specs.declared.holes.HolesFault.TheVariants.{NoMemory as no_memory};
    ghost use Rattle.std.specs.Prelude.{◌≡◌};

    ghost from_gives = { λ _ e. e ≡ no_memory };

    fn from(_refused: NoMemory) -> HolesFault {
        HolesFault::NoMemory
    }
}

/// The places of a block's holes, whose indexes are those below `count`, each once. Every document is walked: path
/// segments, query pairs, the values of `headers`, and all at or beneath the values of `payload`, nodes before their
/// members. What has another form is passed over.
pub fn places(alloc: Global, block: &Doc, count: u32) -> Result<Holes, HolesFault>
    ensures { MatchResult result
        (λ holes. places_of block.now count ≡ Ok holes)
        (λ fault. Tells fault (places_of block.now count)) }
{
    let found = found_in(alloc, block.node())?;
    settled(alloc, found, count)
}
