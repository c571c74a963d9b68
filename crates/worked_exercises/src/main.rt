//! Worked exercises: the summaries of `exercise 1`, `exercise 4`, `exercise 1000` and `exercise 10000` are this program's stored
//! run, each over records in memory. It reads nothing.
#![tactic(auto)]

ghost use Rattle.std.specs.Prelude.{◌≡◌, [], ◌∷◌, IfOk, codes};

use http_message::Message;
use jws_flat::Hs256;
use message_screens::{OriginRule, Screen};
use n32_outside::{FailList, MemKeeper, StdSink, StdSource};
use n32_values::{NoMemory, PlmnId, Text, TextList};
use replay_runs::{Status, run};
use std::alloc::Global;
use std::io;
use std::process::ExitCode;

// The words of a call.
fn exercise_words(alloc: Global, messages: &str) -> Result<TextList, NoMemory>
    ensures { IfOk result (λ words. words ≡ codes "exercise" ∷ messages.now ∷ []) }
{
    let mut words = TextList::new(alloc);
    words.push(Text::from_text(alloc, "exercise")?)?;
    words.push(Text::from_text(alloc, messages)?)?;
    Ok(words)
}

fn exercise_by(
    rt: &HostRuntime,
    words: &TextList,
    signer: &mut Hs256,
    verifier: &mut Hs256,
) -> Status {
    let mut source = StdSource::new(rt.reader());
    let mut sink = StdSink::new(io::writer(rt));
    let mut keeper = MemKeeper::new(rt.alloc(), FailList::new(rt.alloc()));
    let screen = Screen::new(
        |message: &Message, plmn: &PlmnId| OriginRule::passes(message, plmn),
        OriginRule,
    );
    run(
        rt.alloc(),
        words,
        &mut source,
        &mut sink,
        &mut keeper,
        signer,
        verifier,
        &screen,
    )
}

fn demo_keys(alloc: Global) -> Result<Hs256, NoMemory> {
    Hs256::new(alloc, b"n32-demo")
}

fn exercise(rt: &HostRuntime, messages: &str) -> Status {
    let Ok(words) = exercise_words(rt.alloc(), messages) else {
        return Status::NoMemory;
    };
    match (demo_keys(rt.alloc()), demo_keys(rt.alloc())) {
        (Ok(mut signer), Ok(mut verifier)) => exercise_by(rt, &words, &mut signer, &mut verifier),
        _ => Status::NoMemory,
    }
}

fn exercise_all(rt: &HostRuntime) -> Status {
    for messages in ["1", "4", "1000", "10000"] {
        let status = exercise(rt, messages);
        if status != Status::Done {
            return status;
        }
    }
    Status::Done
}

fn main(rt: HostRuntime) -> ExitCode {
    ExitCode::from(exercise_all(&rt).exit())
}
