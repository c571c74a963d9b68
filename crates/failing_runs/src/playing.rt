//! A script played over objects in memory, of which one call may fail.

use crate::narrow::Narrow;
use http_message::Message;
use jws_flat::Hs256;
use message_screens::{OriginRule, Screen};
use n32_outside::{
    CallList, FailAt, FailItem, FailList, Keeper, MemKeeper, MemSink, MemSource, OutFault,
};
use n32_values::{Bytes, NoMemory, PlmnId, Text, TextList};
use replay_runs::{Status, run};
use sha2::{Digest, Sha256};
use std::alloc::Global;

/// What fails.
#[derive(Clone, Copy, Debug, PartialEq, Eq, Drop)]
pub(crate) enum Failing {
    Nothing,
    Source,
    NarrowSource,
    Sink,
    NarrowSink,
    /// Whether a put that fails keeps its record.
    Keeper(bool),
    Signer,
    Verifier,
}

/// What a run left.
#[derive(Drop)]
pub(crate) struct Outcome {
    pub(crate) status: Status,
    pub(crate) written: Bytes,
    /// How many records the keeper holds.
    pub(crate) records: u64,
    /// The digest of what was written, and of the records behind it, each with a newline.
    pub(crate) digest: [u8; 32],
}

// The bytes that a narrow source or sink moves in a call.
const NARROW: usize = 400;

// More than any other has to move in one.
const WIDE: usize = 1_048_576;

// The calls of loading records again that are made at most.
const MOST_LOADS: u64 = 1_000;

// What a run is given. Where memory is refused something is missing.
#[derive(Drop)]
struct Objects {
    words: Option<TextList>,
    source: Option<Narrow<MemSource>>,
    sink: Narrow<MemSink>,
    keeper: MemKeeper,
    signer: Option<FailAt<Hs256>>,
    verifier: Option<FailAt<Hs256>>,
}

fn words_of(alloc: Global, word: &str) -> Result<TextList, NoMemory> {
    let mut words = TextList::new(alloc);
    words.push(Text::from_text(alloc, word)?)?;
    Ok(words)
}

// The call, where it is the one that fails.
fn calls(alloc: Global, call: u64, fails: bool) -> CallList {
    let mut list = CallList::new(alloc);
    if fails {
        let _ = list.push(call);
    }
    list
}

fn source_of(
    alloc: Global,
    script: &[u8],
    failing: Failing,
    call: u64,
) -> Option<Narrow<MemSource>> {
    let fails = calls(
        alloc,
        call,
        failing == Failing::Source || failing == Failing::NarrowSource,
    );
    let bytes = Bytes::from_slice(alloc, script).ok()?;
    Some(Narrow {
        inner: MemSource::new(bytes, fails),
        most: if failing == Failing::NarrowSource {
            NARROW
        } else {
            WIDE
        },
    })
}

fn sink_of(alloc: Global, failing: Failing, call: u64) -> Narrow<MemSink> {
    let fails = calls(
        alloc,
        call,
        failing == Failing::Sink || failing == Failing::NarrowSink,
    );
    Narrow {
        inner: MemSink::new(alloc, fails),
        most: if failing == Failing::NarrowSink {
            NARROW
        } else {
            WIDE
        },
    }
}

fn keeper_of(alloc: Global, failing: Failing, call: u64) -> MemKeeper {
    let mut fails = FailList::new(alloc);
    if let Failing::Keeper(keeps) = failing {
        let _ = fails.push(FailItem { call, keeps });
    }
    MemKeeper::new(alloc, fails)
}

// A signer or a verifier.
fn signer_of(alloc: Global, call: u64, fails: bool) -> Option<FailAt<Hs256>> {
    match Hs256::new(alloc, b"n32-demo") {
        Ok(signer) => Some(FailAt::new(signer, calls(alloc, call, fails))),
        Err(_) => None,
    }
}

fn objects_of(alloc: Global, word: &str, script: &[u8], failing: Failing, call: u64) -> Objects {
    Objects {
        words: words_of(alloc, word).ok(),
        source: source_of(alloc, script, failing, call),
        sink: sink_of(alloc, failing, call),
        keeper: keeper_of(alloc, failing, call),
        signer: signer_of(alloc, call, failing == Failing::Signer),
        verifier: signer_of(alloc, call, failing == Failing::Verifier),
    }
}

fn run_over(alloc: Global, objects: &mut Objects) -> Option<Status> {
    let screen = Screen::new(
        |message: &Message, plmn: &PlmnId| OriginRule::passes(message, plmn),
        OriginRule,
    );
    match (
        &objects.words,
        &mut objects.source,
        &mut objects.signer,
        &mut objects.verifier,
    ) {
        (Some(words), Some(source), Some(signer), Some(verifier)) => Some(run(
            alloc,
            words,
            source,
            &mut objects.sink,
            &mut objects.keeper,
            signer,
            verifier,
            &screen,
        )),
        _ => None,
    }
}

// Hashes the records that the keeper holds, and counts them. A load that fails is made again.
fn take_records(alloc: Global, keeper: &mut MemKeeper, hasher: &mut Sha256) -> Option<u64> {
    let mut number = 0u64;
    for _ in 0..MOST_LOADS {
        match keeper.load(alloc, number) {
            Ok(Some(record)) => {
                hasher.update(record.as_slice());
                hasher.update(b"\n");
                number = number.saturating_add(1);
            }
            Ok(None) => return Some(number),
            Err(OutFault::Failed) => {}
            Err(OutFault::NoMemory) => return None,
        }
    }
    None
}

fn outcome_of(alloc: Global, status: Status, objects: &mut Objects) -> Option<Outcome> {
    let mut hasher = Sha256::new();
    hasher.update(objects.sink.inner.written());
    let records = take_records(alloc, &mut objects.keeper, &mut hasher)?;
    let written = Bytes::from_slice(alloc, objects.sink.inner.written()).ok()?;
    Some(Outcome {
        status,
        written,
        records,
        digest: hasher.finalize(),
    })
}

/// Plays a script with this word of the program, where this call of what fails fails. It gives nothing where memory was refused
/// outside of the run.
pub(crate) fn play(
    alloc: Global,
    word: &str,
    script: &[u8],
    failing: Failing,
    call: u64,
) -> Option<Outcome> {
    let mut objects = objects_of(alloc, word, script, failing, call);
    let status = run_over(alloc, &mut objects)?;
    outcome_of(alloc, status, &mut objects)
}
