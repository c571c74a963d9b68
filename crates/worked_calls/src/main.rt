//! Worked calls of the crates that know no cipher: values, pointers, patches, messages, policies and blocks. Each line
//! of this program's input is a row, as `worked_rows` reads it. Its stored run is the rows and what is told of them:
//! `same` of every call.
#![tactic(auto)]

use std::process::ExitCode;
use worked_rows::answer_rows;

mod block_patches;
mod blocks;
mod calls;
mod changes;
mod differences;
mod holes;
mod messages;
mod patches;
mod pointers;
mod policies;
mod sealing;
mod texts;
mod values;

use calls::ClearCalls;

fn main(rt: HostRuntime) -> ExitCode {
    answer_rows(&rt, ClearCalls)
}
