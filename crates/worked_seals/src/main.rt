//! Worked calls of the crates that seal, sign, record and agree: ciphers, documents and their entries, records,
//! reports, handshakes, and the script of an exercise. Each line of this program's input is a row, as `worked_rows`
//! reads it. Its stored run is the rows and what is told of them: `same` of every call.
#![tactic(auto)]

use std::process::ExitCode;
use worked_rows::answer_rows;

mod calls;
mod ciphers;
mod entries;
mod entry_chains;
mod exercises;
mod handshake_steps;
mod handshakes;
mod jwes;
mod keys;
mod records;
mod reports;
mod wires;

use calls::SealCalls;

fn main(rt: HostRuntime) -> ExitCode {
    answer_rows(&rt, SealCalls)
}
