// Paths that stand above or beneath one another.
ghost use Rattle.std.specs.Prelude.{◌≡◌, ◌≤◌, [], List as ListOf, IfOk, length, map as list_map, Some};
ghost use Rattle.std.specs.List.Sorted.{IsPermutation};
ghost use Rattle.spec_documents.specs.Place.{Pointer as Path};
ghost use Rattle.block_forms.specs.Paths.{path_cmp, overlap_from};
ghost use Rattle.block_forms.specs.Numbered.{number_view, numbered, IsFirst, with_number, AreInOrder, AreOnce};

use json_ptr::{Pointer, is_prefix};
use n32_values::{List, NoMemory};
use std::alloc::{AllocError, Global};
use std::cmp::Ordering;

// The path of an item, and the item's number from 1.
#[derive(Clone, Copy, Drop)]
struct Numbered<'a> {
    number: u32,
    path: &'a Pointer,
}

// Orders paths by their first tokens that differ. A path comes before those beneath it.
fn compare(left: &Pointer, right: &Pointer) -> Ordering
    ensures { result ≡ path_cmp left.now right.now }
{
    let shared = left.len().min(right.len());
    for i in 0..shared {
        match left.token(i).as_str().cmp(right.token(i).as_str()) {
            Ordering::Equal => {}
            order => return order,
        }
    }
    left.len().cmp(&right.len())
}

fn with_numbers(alloc: Global, paths: &List<Pointer>) -> Result<Vec<Numbered<'_>>, AllocError>
    requires { length paths.now ≤ 4096 }
    ensures { IfOk result (λ items. list_map number_view items.items ≡ numbered 1 paths.now) }
{
    let mut items = Vec::new(alloc);
    for i in 0..paths.len() {
        items.push(Numbered {
            number: i as u32 + 1,
            path: paths.item(i),
        })?;
    }
    Ok(items)
}

fn sort(items: &mut Vec<Numbered<'_>>)
    ensures moved { IsPermutation items.old.items items.new.items }
    ensures order { AreInOrder (list_map number_view items.new.items) }
{
    items.sort_unstable_by(|left, right| compare(left.path, right.path));
}

fn least(found: Option<u32>, number: u32) -> u32
    ensures { result ≡ with_number found number }
{
    match found {
        Some(found) => found.min(number),
        None => number,
    }
}

// The number of the first item that overlaps an earlier one, of items in the order of their paths.
// Those beneath a path follow it. Of two that overlap the later one is found, and is passed over from
// then on: whatever else it overlaps, the number of that overlap is no lesser.
fn first_in_order(items: &[Numbered<'_>]) -> Option<u32>
    requires order { AreInOrder (list_map number_view items.now) }
    requires once { AreOnce (list_map number_view items.now) }
    ensures { IsFirst result (list_map number_view items.now) }
{
    let mut kept = *items.first()?;
    let mut found = None;
    for i in 1..items.len() {
        let next = items[i];
        if !is_prefix(kept.path, next.path) {
            kept = next;
        } else if kept.number < next.number {
            found = Some(least(found, next.number));
        } else {
            found = Some(least(found, kept.number));
            kept = next;
        }
    }
    found
}

// The number, from 1, of the first path that is above or beneath an earlier one, or is one. The time
// grows with the number of paths times its logarithm.
pub(crate) fn first_overlap(alloc: Global, paths: &List<Pointer>) -> Result<Option<u32>, NoMemory>
    requires { length paths.now ≤ 4096 }
    ensures { IfOk result (λ k. k ≡ overlap_from 1 [] paths.now) }
{
    let mut items = with_numbers(alloc, paths)?;
    sort(&mut items);
    Ok(first_in_order(&items))
}
