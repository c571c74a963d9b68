//! The tables of a script: a line for each call that fails, and a line for the fronts of the script that come to the same.

use crate::playing::{Failing, Outcome, play};
use std::alloc::{AllocError, Global};

// The calls of one object that are tried at most.
const MOST_CALLS: u64 = 200;

const REPLAY: &str = "replay";

const DELIVERED: &[u8] = b"{\"delivered\":";

fn name_of(failing: Failing) -> &'static str {
    match failing {
        Failing::Nothing => "nothing",
        Failing::Source => "source",
        Failing::NarrowSource => "source in pieces",
        Failing::Sink => "sink",
        Failing::NarrowSink => "sink in pieces",
        Failing::Keeper(false) => "keeper",
        Failing::Keeper(true) => "keeper that keeps",
        Failing::Signer => "signer",
        Failing::Verifier => "verifier",
    }
}

fn is_newline(byte: &u8) -> bool {
    *byte == b'\n'
}

// How many answers hand a message over.
fn deliveries(written: &[u8]) -> usize {
    written
        .split(is_newline)
        .filter(|line| line.starts_with(DELIVERED))
        .count()
}

// Where the last answer begins.
fn last_answer(written: &[u8]) -> usize {
    let mut start = 0;
    for i in 1..written.len() {
        if written[i - 1] == b'\n' {
            start = i;
        }
    }
    start
}

fn is_front(written: &[u8], whole: &Outcome) -> bool {
    whole.written.as_slice().starts_with(written)
}

fn is_same(left: &Outcome, right: &Outcome) -> bool {
    left.status == right.status && left.digest == right.digest
}

// The members that tell what a run left.
fn left_text(alloc: Global, outcome: &Outcome) -> Result<String, AllocError> {
    let status = outcome.status;
    let written = outcome.written.as_slice();
    let answers = written.iter().filter(|byte| **byte == b'\n').count();
    let delivered = deliveries(written);
    let length = written.len();
    let records = outcome.records;
    let digest = hex::encode(alloc, outcome.digest)?;
    format!(in alloc;
        "\"status\":\"{status:?}\",\"answers\":{answers},\"delivered\":{delivered},\"written\":{length},\"records\":{records},\"sha256\":\"{digest}\""
    )
}

// The line of a call that fails, and whether it was printed. `whole` is what a run without faults leaves.
fn print_call(
    rt: &HostRuntime,
    failing: Failing,
    call: u64,
    outcome: &Outcome,
    whole: &Outcome,
) -> bool {
    let name = name_of(failing);
    let front = is_front(outcome.written.as_slice(), whole);
    match left_text(rt.alloc(), outcome) {
        Ok(left) => {
            println!(rt;
                "{{\"fails\":\"{name}\",\"call\":{call},{left},\"front\":{front}}}"
            ).is_ok()
        }
        Err(_) => false,
    }
}

// Whether a call failed, once its line was printed. It gives nothing where there is none.
fn try_call(
    rt: &HostRuntime,
    script: &[u8],
    failing: Failing,
    call: u64,
    whole: &Outcome,
) -> Option<bool> {
    match play(rt.alloc(), REPLAY, script, failing, call) {
        Some(outcome) if print_call(rt, failing, call, &outcome, whole) => {
            Some(!is_same(&outcome, whole))
        }
        _ => None,
    }
}

// A line for each call that fails, and one for the first number that no call has.
fn print_calls(rt: &HostRuntime, script: &[u8], failing: Failing, whole: &Outcome) -> bool {
    for call in 0..MOST_CALLS {
        match try_call(rt, script, failing, call, whole) {
            Some(true) => {}
            Some(false) => return true,
            None => return false,
        }
    }
    false
}

// The line of the fronts of these lengths, which come to the same. The last answer is told where the whole script has another.
fn print_front(
    rt: &HostRuntime,
    first: usize,
    last: usize,
    left: &str,
    written: &[u8],
    whole: &Outcome,
) -> bool {
    if is_front(written, whole) {
        return println!(rt; "{{\"cut\":[{first},{last}],{left},\"front\":true}}").is_ok();
    }
    let start = last_answer(written);
    let (Some(before), Some(last_line)) = (written.get(..start), written.get(start..)) else {
        return false;
    };
    let front = is_front(before, whole);
    match str::from_utf8(last_line) {
        Ok(line) => {
            let further = line.trim_end();
            println!(rt;
                "{{\"cut\":[{first},{last}],{left},\"front\":{front},\"further\":{further}}}"
            ).is_ok()
        }
        Err(_) => false,
    }
}

fn print_outcome(
    rt: &HostRuntime,
    first: usize,
    last: usize,
    outcome: &Outcome,
    whole: &Outcome,
) -> bool {
    match left_text(rt.alloc(), outcome) {
        Ok(left) => print_front(
            rt,
            first,
            last,
            left.as_str(),
            outcome.written.as_slice(),
            whole,
        ),
        Err(_) => false,
    }
}

// What the run of a script comes to.
fn ending_of(rt: &HostRuntime, script: &[u8]) -> Option<Outcome> {
    play(rt.alloc(), REPLAY, script, Failing::Nothing, 0)
}

// A line for each run of fronts that come to the same, from the empty one to the whole script.
fn print_cuts(rt: &HostRuntime, script: &[u8], whole: &Outcome) -> bool {
    let mut first = 0usize;
    let Some(mut ending) = ending_of(rt, &[]) else {
        return false;
    };
    for length in 1..=script.len() {
        let Some(next) = ending_of(rt, &script[..length]) else {
            return false;
        };
        if !is_same(&next, &ending) {
            if !print_outcome(rt, first, length - 1, &ending, whole) {
                return false;
            }
            first = length;
            ending = next;
        }
    }
    print_outcome(rt, first, script.len(), &ending, whole)
}

// The line of the run without faults.
fn print_whole(rt: &HostRuntime, number: u64, length: usize, whole: &Outcome) -> bool {
    match left_text(rt.alloc(), whole) {
        Ok(left) => println!(rt; "{{\"script\":{number},\"bytes\":{length},{left}}}").is_ok(),
        Err(_) => false,
    }
}

// The tables of calls of a script that fail, one for each of these.
fn print_failing(rt: &HostRuntime, script: &[u8], parts: &[Failing], whole: &Outcome) -> bool {
    for failing in parts {
        if !print_calls(rt, script, *failing, whole) {
            return false;
        }
    }
    true
}

const KEEPERS: [Failing; 2] = [Failing::Keeper(false), Failing::Keeper(true)];

const OTHERS: [Failing; 6] = [
    Failing::Source,
    Failing::NarrowSource,
    Failing::Sink,
    Failing::NarrowSink,
    Failing::Signer,
    Failing::Verifier,
];

// For the first script the tables of all objects and of its fronts, for another those of keepers.
fn print_parts(rt: &HostRuntime, number: u64, script: &[u8], whole: &Outcome) -> bool {
    if !print_failing(rt, script, &KEEPERS, whole) {
        return false;
    }
    if number > 1 {
        return true;
    }
    print_failing(rt, script, &OTHERS, whole) && print_cuts(rt, script, whole)
}

/// Prints the tables of a script, and says whether all of them were printed.
pub(crate) fn print_tables(rt: &HostRuntime, number: u64, script: &[u8]) -> bool {
    match play(rt.alloc(), REPLAY, script, Failing::Nothing, 0) {
        Some(whole) => {
            print_whole(rt, number, script.len(), &whole) && print_parts(rt, number, script, &whole)
        }
        None => false,
    }
}
