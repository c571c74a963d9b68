//! A script that is played once, while a tool refuses one allocation.

use crate::playing::{Failing, play};
use replay_runs::Status;
use std::alloc::Global;
use std::io::{self, Write};

/// Makes so many allocations, one after the other, and lets each go.
pub(crate) fn allocate(alloc: Global, count: u64) {
    for _ in 0..count {
        let mut bytes = Vec::new(alloc);
        let _ = bytes.push(0u8);
    }
}

/// Plays a script with this word of the program, writes its answers, and gives the run's exit status.
pub(crate) fn play_once(rt: &HostRuntime, word: &str, script: &[u8]) -> u8 {
    let Some(outcome) = play(rt.alloc(), word, script, Failing::Nothing, 0) else {
        return Status::NoMemory.exit();
    };
    match io::writer(rt).write_all(outcome.written.as_slice()) {
        Ok(()) => outcome.status.exit(),
        Err(_) => Status::WriteFault.exit(),
    }
}
