// Where an id goes among runs in rising order.
ghost use Rattle.std.specs.Prelude.{◌≡◌, ℕ, ◌+◌, ◌<◌, ◌≤◌, ◌||◌, ◌==◌, ◌∷◌, ◌++◌, [], length, take, drop, false, vec_len, vec_capacity};
ghost use Rattle.id_runs.specs.Runs.{AreApart, IsBelow, IsAbove, end_of, has_run, is_in, run};

use crate::run_list::Run;

// How many runs end below the id. The others begin above it.
fn runs_below(runs: &[Run], id: u64) -> usize
    requires apart { AreApart 0 runs.now }
    requires absent { has_run id runs.now ≡ false }
    ensures within { result ≤ length runs.now }
    ensures below { IsBelow id (take result runs.now) }
    ensures above { IsAbove id (drop result runs.now) }
{
    let mut low = 0;
    let mut high = runs.len();
    while low < high {
        let middle = low + (high - low) / 2;
        if runs[middle].last < id {
            low = middle + 1;
        } else {
            high = middle;
        }
    }
    low
}

// The place of the first run that the id joins from above, and the first id of what is joined.
fn joined_below(runs: &[Run], place: usize, id: u64) -> (usize, u64)
    requires apart { AreApart 0 runs.now }
    requires within { place ≤ length runs.now }
    requires below { IsBelow id (take place runs.now) }
    ensures place { result.0 ≤ place }
    ensures one { place ≤ result.0 + 1 }
    ensures first { result.1 ≤ id }
    ensures apart { end_of 0 (take result.0 runs.now) ≤ result.1 }
    ensures same { (x : ℕ) → (has_run x (take place runs.now) || is_in x (run id id)) ≡ (has_run x (take result.0 runs.now) || is_in x (run result.1 id)) }
{
    if place > 0 {
        let run = runs[place - 1];
        if id - 1 == run.last {
            return (place - 1, run.first);
        }
    }
    (place, id)
}

// The place behind the run that the id joins from below, and the last id of what is joined.
fn joined_above(runs: &[Run], place: usize, id: u64) -> (usize, u64)
    requires apart { AreApart 0 runs.now }
    requires within { place ≤ length runs.now }
    requires above { IsAbove id (drop place runs.now) }
    ensures place { place ≤ result.0 }
    ensures one { result.0 ≤ place + 1 }
    ensures within { result.0 ≤ length runs.now }
    ensures last { id ≤ result.1 }
    ensures apart { AreApart (result.1 + 2) (drop result.0 runs.now) }
    ensures same { (x : ℕ) → (is_in x (run id id) || has_run x (drop place runs.now)) ≡ (is_in x (run id result.1) || has_run x (drop result.0 runs.now)) }
{
    if place < runs.len() {
        let run = runs[place];
        if run.first - 1 == id {
            return (place + 1, run.last);
        }
    }
    (place, id)
}

// Puts a run in the place of those from `from` up to `to`.
fn put_run(runs: &mut Vec<Run>, from: usize, to: usize, run: Run)
    requires order { from ≤ to }
    requires few { to ≤ from + 2 }
    requires within { to ≤ vec_len runs.old }
    requires room { vec_len runs.old < vec_capacity runs.old }
    ensures { runs.new.items ≡ take from runs.old.items ++ run ∷ drop to runs.old.items }
{
    if from == to {
        let _ = runs.insert(from, run);
    } else if from + 1 == to {
        runs[from] = run;
    } else {
        runs.remove(from + 1);
        runs[from] = run;
    }
}

// Adds an id that is in no run, and joins the runs that then touch.
pub(crate) fn add_id(runs: &mut Vec<Run>, id: u64)
    requires apart { AreApart 0 runs.old.items }
    requires absent { has_run id runs.old.items ≡ false }
    requires room { vec_len runs.old < vec_capacity runs.old }
    ensures apart { AreApart 0 runs.new.items }
    ensures same { (x : ℕ) → has_run x runs.new.items ≡ (has_run x runs.old.items || x == id) }
{
    let place = runs_below(runs.as_slice(), id);
    let (from, first) = joined_below(runs.as_slice(), place, id);
    let (to, last) = joined_above(runs.as_slice(), place, id);
    put_run(runs, from, to, Run { first, last });
}
