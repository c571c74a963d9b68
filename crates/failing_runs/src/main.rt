//! Failing runs: this program plays each script of its input over objects in memory, of which one call fails, for each object and
//! each call until none fails, and then each front of the script. A line tells what each run left. Its stored run is these
//! tables; `examples/failing_runs.py` computes them from the formats.
//!
//! An empty line stands between two scripts. With two words the whole input is one script: `replay 7` makes seven allocations and
//! plays it once, so that a tool may refuse each allocation of the run in turn (`examples/refused_allocations.py`).
#![tactic(auto)]

use std::env;
use std::io::Read;
use std::process::ExitCode;

mod narrow;
mod playing;
mod refused;
mod tables;

use refused::{allocate, play_once};
use tables::print_tables;

fn read_input(rt: &HostRuntime) -> Option<Vec<u8>> {
    let mut input = Vec::new(rt.alloc());
    match rt.reader().read_to_end(&mut input) {
        Ok(_) => Some(input),
        Err(_) => None,
    }
}

// Prints the tables of each script, and says whether all of them were printed.
fn print_all(rt: &HostRuntime, input: &[u8]) -> bool {
    let mut number = 1u64;
    let mut start = 0usize;
    for i in 1..input.len() {
        if input[i - 1] == b'\n' && input[i] == b'\n' {
            let Some(script) = input.get(start..i) else {
                return false;
            };
            if !print_tables(rt, number, script) {
                return false;
            }
            number = number.saturating_add(1);
            start = i + 1;
        }
    }
    match input.get(start..) {
        Some(script) => print_tables(rt, number, script),
        None => false,
    }
}

// The tables of the scripts, or, with two words, a run of `replay` or `blocks` behind so many allocations.
fn answer(rt: &HostRuntime, word: &Option<String>, count: &Option<String>, input: &[u8]) -> u8 {
    match (word, count) {
        (Some(word), Some(count)) => {
            allocate(rt.alloc(), count.as_str().parse().unwrap_or(0));
            play_once(rt, word.as_str(), input)
        }
        _ if print_all(rt, input) => 0,
        _ => 1,
    }
}

fn answer_to(rt: &HostRuntime, input: &[u8]) -> u8 {
    match env::args(rt) {
        Ok(mut args) => {
            let word = args.nth(1);
            let count = args.next();
            answer(rt, &word, &count, input)
        }
        Err(_) => 1,
    }
}

fn main(rt: HostRuntime) -> ExitCode {
    match read_input(&rt) {
        Some(input) => ExitCode::from(answer_to(&rt, &input)),
        None => ExitCode::from(1),
    }
}
