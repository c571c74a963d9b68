ghost use Rattle.std.specs.Prelude.{◌≡◌, ◌≢◌, ◌≤◌, ℕ, IfSome};
ghost use Rattle.n32_outside.specs.Causes.{Rose};
ghost use Rattle.context_store.specs.Stores.{IsFirstBad};
ghost use Rattle.message_screens.specs.Screening.{IsScreen, rule_of};
ghost use Rattle.replay_world.specs.Outsiders.{OthersStay, outsiders};
ghost use Rattle.replay_runs.specs.Outsiders.{counts, meanings_told};
ghost use Rattle.replay_runs.specs.Replays.{OverRecords, AreHeld, IsComplete};
ghost use Rattle.replay_runs.specs.Loads.{IsRefused, NamesBad, AtLoad};
ghost use Rattle.replay_runs.specs.Exercises.{Leaves, WritesFront, Unwritten};

use crate::loading::begun_world;
use crate::replay::Events;
use crate::status::Status;
use http_message::Message;
use message_screens::{Screen, ScreenRule};
use n32_outside::{Keeper, Signer, Sink, Verifier};
use n32_values::PlmnId;
use std::alloc::Global;

/// Reads the records that the keeper holds, plays the script of `exercise N` over them, and writes the summary of its answers.
pub(crate) fn exercise<
    O: Sink,
    K: Keeper,
    G: Signer,
    V: Verifier,
    R: ScreenRule,
    F: Fn(&Message, &PlmnId) -> bool,
>(
    alloc: Global,
    messages: u32,
    sink: &mut O,
    keeper: &mut K,
    signer: &mut G,
    verifier: &mut V,
    screen: &Screen<F, R>,
) -> Status
    requires { IsScreen F.Fn R.passes screen.now }
    ensures summary { IfSome (meanings_told (G.algorithm signer.old) (G.meaning signer.old) (V.meaning verifier.old) (R.passes (rule_of screen.now))) (λ means. OverRecords (K.held keeper.old) (λ records.
        Leaves means messages records (K.held keeper.new) (counts (K.faults keeper.old) (G.faults signer.old) (V.faults verifier.old)) (counts (K.faults keeper.new) (G.faults signer.new) (V.faults verifier.new))
        (O.written sink.old) (O.written sink.new) result)) }
    ensures front { IfSome (meanings_told (G.algorithm signer.old) (G.meaning signer.old) (V.meaning verifier.old) (R.passes (rule_of screen.now))) (λ means. OverRecords (K.held keeper.old) (λ records.
        WritesFront means messages records (O.written sink.old) (O.written sink.new))) }
    ensures journal { NamesBad (K.held keeper.old) result }
    ensures bad { IfSome (K.held keeper.old) (λ texts. (k : ℕ) → IsFirstBad texts k → IsRefused k result
        × Unwritten sink.old sink.new (K.held keeper.old) (K.held keeper.new)) }
    ensures load { AtLoad (Unwritten sink.old sink.new (K.held keeper.old) (K.held keeper.new)) result }
    ensures complete { IfSome (K.held keeper.old) (λ texts. AreHeld texts
        → IsComplete ⊥ (Rose (O.faults sink.old) (O.faults sink.new)) (Rose (K.faults keeper.old) (K.faults keeper.new)) result) }
    ensures read_fault { result ≢ Status.ReadFault }
    ensures write_fault { result ≡ Status.WriteFault → Rose (O.faults sink.old) (O.faults sink.new) }
    ensures keeper_fault { result ≡ Status.KeeperFault → Rose (K.faults keeper.old) (K.faults keeper.new) }
    ensures writing { O.faults sink.old ≤ O.faults sink.new }
    ensures keeping { K.faults keeper.old ≤ K.faults keeper.new }
    ensures others { OthersStay (outsiders (G.algorithm signer.old) (G.meaning signer.old) (G.faults signer.old) (V.meaning verifier.old) (V.faults verifier.old) (R.passes (rule_of screen.now)))
        (outsiders (G.algorithm signer.new) (G.meaning signer.new) (G.faults signer.new) (V.meaning verifier.new) (V.faults verifier.new) (R.passes (rule_of screen.now))) }
    ensures named { result ≢ Status.Words }
{
    let mut world = match begun_world(alloc, keeper) {
        Ok(world) => world,
        Err(fault) => return Status::from(fault),
    };
    let mut machine = Events {
        world: &mut world,
        keeper,
        signer,
        verifier,
        screen,
    };
    Status::from(exercise_word::run(alloc, messages, sink, &mut machine))
}
