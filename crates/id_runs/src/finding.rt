// An id is searched for in the runs.
ghost use Rattle.std.specs.Prelude.{◌≡◌, ℕ, ◌+◌, ◌^◌, ◌<◌, ◌≤◌, length, option_map, Option, None, IfSome, IfNone};
ghost use Rattle.id_runs.specs.Runs.{IsInRun, entry_of};

use crate::run_list::RunList;
use crate::steps::Steps;
use std::marker::Brand;
use std::sync::ledger::{Blank, Ledger};

// The place of the run that has the id.
fn find_run<L: Ledger>(runs: &RunList, id: u64, steps: &mut Steps<L>) -> Option<usize>
    ensures found { IfSome result (λ i. IsInRun i id runs.now.runs) }
    ensures absent { IfNone result (entry_of id runs.now.entries ≡ None) }
    ensures cost { (d : ℕ) → length runs.now.runs + 1 ≤ 2 ^ d → steps.new ≤ steps.old + d }
{
    let mut low = 0;
    let mut high = runs.len();
    while low < high {
        let middle = low + (high - low) / 2;
        let run = runs.run_at(middle, steps);
        if run.last < id {
            low = middle + 1;
        } else if id < run.first {
            high = middle;
        } else {
            return Some(middle);
        }
    }
    None
}

/// The record's number of an id, `None` exactly where the id isn't there. For every d with 2^d above the number of
/// runs it takes at most d steps and one more.
pub fn find_in_runs<L: Ledger>(runs: &RunList, id: u64, steps: &mut Steps<L>) -> Option<u32>
    ensures number { result ≡ option_map (λ e. e.number) (entry_of id runs.now.entries) }
    ensures cost { (d : ℕ) → length runs.now.runs + 1 ≤ 2 ^ d → steps.new ≤ steps.old + d + 1 }
{
    let i = find_run(runs, id, steps)?;
    Some(runs.record_at(i, id, steps))
}

/// The mapping of an id, `None` exactly where the id isn't there. It takes as many steps as `find_in_runs`.
pub fn find_mapping<L: Ledger>(runs: &RunList, id: u64, steps: &mut Steps<L>) -> Option<Option<u32>>
    ensures mapping { result ≡ option_map (λ e. e.mapping) (entry_of id runs.now.entries) }
    ensures cost { (d : ℕ) → length runs.now.runs + 1 ≤ 2 ^ d → steps.new ≤ steps.old + d + 1 }
{
    let i = find_run(runs, id, steps)?;
    Some(runs.mapping_at(i, id, steps))
}

fn count_number<L: Ledger>(runs: &RunList, id: u64, blank: Blank) -> Option<u32>
    requires name { blank.name ≡ L.name }
    requires parts { blank.parts ≡ L.parts }
    requires some { 0 < blank.parts }
    ensures { result ≡ option_map (λ e. e.number) (entry_of id runs.now.entries) }
{
    let mut steps = Steps::<L>::new(blank);
    find_in_runs(runs, id, &mut steps)
}

fn count_mapping<L: Ledger>(runs: &RunList, id: u64, blank: Blank) -> Option<Option<u32>>
    requires name { blank.name ≡ L.name }
    requires parts { blank.parts ≡ L.parts }
    requires some { 0 < blank.parts }
    ensures { result ≡ option_map (λ e. e.mapping) (entry_of id runs.now.entries) }
{
    let mut steps = Steps::<L>::new(blank);
    find_mapping(runs, id, &mut steps)
}

/// What `find_in_runs` answers, for a caller that counts no steps.
pub fn number_of(runs: &RunList, id: u64) -> Option<u32>
    ensures { result ≡ option_map (λ e. e.number) (entry_of id runs.now.entries) }
{
    count_number::<Brand>(runs, id, Blank::new(1))
}

/// What `find_mapping` answers, for a caller that counts no steps.
pub fn mapping_of(runs: &RunList, id: u64) -> Option<Option<u32>>
    ensures { result ≡ option_map (λ e. e.mapping) (entry_of id runs.now.entries) }
{
    count_mapping::<Brand>(runs, id, Blank::new(1))
}
