// The list of runs, and what is kept of each id.
ghost use Rattle.std.specs.Prelude.{◌≡◌, ◌+◌, ◌<◌, ◌≤◌, ◌⊎◌, [], length, slice_get, option_map, is_some, Some, OnOk, IsTrue};
ghost use Rattle.id_runs.specs.Runs.{IsRuns, IsInRun, entry_of, with_entry};

use crate::placing::add_id;
use crate::steps::Steps;
use indexmap::IndexMap;
use n32_values::NoMemory;
use std::alloc::Global;
use std::marker::Model;
use std::sync::ledger::Ledger;

/// The ids from `first` to `last`.
#[derive(Clone, Copy, Debug, PartialEq, Eq, Drop)]
pub struct Run {
    /// The least id of the run.
    pub first: u64,
    /// The greatest id of the run.
    pub last: u64,
}

/// What is kept of an id.
#[derive(Clone, Copy, Debug, PartialEq, Eq, Drop)]
pub struct Entry {
    /// The number of its first record.
    pub number: u32,
    /// The mapping in that record.
    pub mapping: Option<u32>,
}

/// Ids in runs: contracts see the entries of the ids in the order of their coming, the runs in rising order, and
/// how many more ids fit without memory. Between two runs at least one id is missing.
#[derive(Drop)]
pub struct RunList {
    runs: Vec<Run>,
    entries: IndexMap<u64, Entry>,
}

impl Model for RunList {
    ghost use Rattle.std.specs.Prelude.{◌-◌, min, vec_len, vec_capacity};
    ghost use Rattle.indexmap.specs.IndexMap.{spare};
    ghost use Rattle.id_runs.specs.Runs.{IsRuns, RunsValue};

    ghost Value = { RunsValue };

    ghost view = { λ s. record {
      entries = s.entries.entries;
      runs = s.runs.items;
      spare = min (vec_capacity s.runs - vec_len s.runs) (spare s.entries);
    } };

    ghost invariant = { λ s. IsRuns s.runs.items s.entries.entries };
}

impl RunList {
    /// No ids. It takes no memory.
    pub fn new(alloc: Global) -> RunList
        ensures entries { result.entries ≡ [] }
        ensures runs { result.runs ≡ [] }
    {
        RunList {
            runs: Vec::new(alloc),
            entries: IndexMap::new(alloc),
        }
    }

    /// The number of runs.
    pub fn len(&self) -> usize
        ensures len { result ≡ length self.now.runs }
        ensures runs { IsRuns self.now.runs self.now.entries }
    {
        self.runs.len()
    }

    /// The run of this place, in one step.
    pub fn run_at<L: Ledger>(&self, i: usize, steps: &mut Steps<L>) -> Run
        requires { i < length self.now.runs }
        ensures run { slice_get self.now.runs i ≡ Some result }
        ensures step { steps.new ≡ steps.old + 1 }
    {
        steps.tick();
        self.runs[i]
    }

    /// The record's number of an id in the run of this place, in one step.
    pub fn record_at<L: Ledger>(&self, i: usize, id: u64, steps: &mut Steps<L>) -> u32
        requires { IsInRun i id self.now.runs }
        ensures number { Some result ≡ option_map (λ e. e.number) (entry_of id self.now.entries) }
        ensures step { steps.new ≡ steps.old + 1 }
    {
        steps.tick();
        match self.entries.get(&id) {
            Some(entry) => entry.number,
            None => 0,
        }
    }

    /// The mapping of an id in the run of this place, in one step.
    pub fn mapping_at<L: Ledger>(&self, i: usize, id: u64, steps: &mut Steps<L>) -> Option<u32>
        requires { IsInRun i id self.now.runs }
        ensures mapping { Some result ≡ option_map (λ e. e.mapping) (entry_of id self.now.entries) }
        ensures step { steps.new ≡ steps.old + 1 }
    {
        steps.tick();
        match self.entries.get(&id) {
            Some(entry) => entry.mapping,
            None => None,
        }
    }

    /// Makes room for one more id. The ids stay, whatever the answer.
    pub fn reserve(&mut self) -> Result<(), NoMemory>
        ensures room { OnOk result (1 ≤ self.new.spare) }
        ensures entries { self.new.entries ≡ self.old.entries }
        ensures runs { self.new.runs ≡ self.old.runs }
    {
        self.runs.reserve(1)?;
        self.entries.reserve(1)?;
        Ok(())
    }

    /// Adds an id, and changes nothing where it is there. It takes no memory.
    pub fn add(&mut self, id: u64, number: u32, mapping: Option<u32>)
        requires { (1 ≤ self.old.spare) ⊎ IsTrue (is_some (entry_of id self.old.entries)) }
        ensures { self.new.entries ≡ with_entry id (record { number = number; mapping = mapping }) self.old.entries }
    {
        if !self.entries.contains_key(&id) {
            add_id(&mut self.runs, id);
            self.entries.insert(id, Entry { number, mapping }).unwrap();
        }
    }
}
