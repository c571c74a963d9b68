ghost use Rattle.std.specs.Prelude.{◌≡◌, ◌≢◌, ◌≤◌, ◌+◌, ℕ, List, length, IfSome};
ghost use Rattle.std.specs.Io.KnownBytes.{Consumes};
ghost use Rattle.n32_outside.specs.Causes.{Rose};
ghost use Rattle.script_loop.specs.Limits.{script_limit};
ghost use Rattle.script_loop.specs.Lines.{IsWithin};
ghost use Rattle.context_store.specs.Stores.{IsFirstBad};
ghost use Rattle.message_screens.specs.Screening.{IsScreen, rule_of};
ghost use Rattle.replay_world.specs.Outsiders.{OthersStay, outsiders};
ghost use Rattle.replay_runs.specs.Outsiders.{counts, meanings_told};
ghost use Rattle.replay_runs.specs.Replays.{Leaves, WritesFront, OverRecords, AreHeld, IsComplete};
ghost use Rattle.replay_runs.specs.Loads.{IsRefused, NamesBad, AtLoad, Untouched};

use crate::loading::begun_world;
use crate::status::Status;
use http_message::Message;
use message_screens::{Screen, ScreenRule};
use n32_outside::{Keeper, Signer, Sink, Source, Verifier};
use n32_values::{Bytes, NoMemory, PlmnId};
use replay_world::{World, step};
use script_loop::Machine;
use std::alloc::Global;

/// The machine of `replay`: the world that its events change, the keeper of its records, what signs for
/// intermediaries and verifies that, and the screen of its receivers. It was lent them all.
#[derive(Drop)]
pub struct Events<
    'w,
    'k,
    'g,
    'v,
    's,
    K: Keeper,
    G: Signer,
    V: Verifier,
    R: ScreenRule,
    F: Fn(&Message, &PlmnId) -> bool,
> {
    pub(crate) world: &'w mut World,
    pub(crate) keeper: &'k mut K,
    pub(crate) signer: &'g mut G,
    pub(crate) verifier: &'v mut V,
    pub(crate) screen: &'s Screen<F, R>,
}

impl<
    'w,
    'k,
    'g,
    'v,
    's,
    K: Keeper,
    G: Signer,
    V: Verifier,
    R: ScreenRule,
    F: Fn(&Message, &PlmnId) -> bool,
> Machine for Events<'w, 'k, 'g, 'v, 's, K, G, V, R, F> {
    ghost use Rattle.replay_world.specs.Worlds.{IsReady};
    ghost use Rattle.replay_world.specs.Outsiders.{told, outsiders};
    ghost use Rattle.message_screens.specs.Screening.{IsScreen, rule_of};
    ghost use Rattle.replay_runs.specs.Lines.{AnswersLine, GivesUpLine, IsLater, later_refl, later_trans};

    ghost ready = { λ m. IsReady (K.held m.keeper.now) m.world.now × IsScreen F.Fn R.passes m.screen.now };

    ghost gives = { λ old number line text new. AnswersLine
        (told (K.held old.keeper.now) (K.faults old.keeper.now) (outsiders (G.algorithm old.signer.now) (G.meaning old.signer.now) (G.faults old.signer.now) (V.meaning old.verifier.now) (V.faults old.verifier.now) (R.passes (rule_of old.screen.now))))
        (told (K.held new.keeper.now) (K.faults new.keeper.now) (outsiders (G.algorithm new.signer.now) (G.meaning new.signer.now) (G.faults new.signer.now) (V.meaning new.verifier.now) (V.faults new.verifier.now) (R.passes (rule_of new.screen.now))))
        old.world.now new.world.now number line text };

    ghost gives_up = { λ old number line new. GivesUpLine
        (told (K.held old.keeper.now) (K.faults old.keeper.now) (outsiders (G.algorithm old.signer.now) (G.meaning old.signer.now) (G.faults old.signer.now) (V.meaning old.verifier.now) (V.faults old.verifier.now) (R.passes (rule_of old.screen.now))))
        (told (K.held new.keeper.now) (K.faults new.keeper.now) (outsiders (G.algorithm new.signer.now) (G.meaning new.signer.now) (G.faults new.signer.now) (V.meaning new.verifier.now) (V.faults new.verifier.now) (R.passes (rule_of new.screen.now))))
        old.world.now new.world.now line };

    ghost later = { λ old new. IsLater old.keeper.ghost_name new.keeper.ghost_name old.signer.ghost_name new.signer.ghost_name old.verifier.ghost_name new.verifier.ghost_name (K.faults old.keeper.now) (K.faults new.keeper.now)
        (outsiders (G.algorithm old.signer.now) (G.meaning old.signer.now) (G.faults old.signer.now) (V.meaning old.verifier.now) (V.faults old.verifier.now) (R.passes (rule_of old.screen.now)))
        (outsiders (G.algorithm new.signer.now) (G.meaning new.signer.now) (G.faults new.signer.now) (V.meaning new.verifier.now) (V.faults new.verifier.now) (R.passes (rule_of new.screen.now))) };

    ghost stays = { λ m. later_refl m.keeper.ghost_name m.signer.ghost_name m.verifier.ghost_name (K.faults m.keeper.now)
        (outsiders (G.algorithm m.signer.now) (G.meaning m.signer.now) (G.faults m.signer.now) (V.meaning m.verifier.now) (V.faults m.verifier.now) (R.passes (rule_of m.screen.now))) };

    ghost goes_on = { λ a b c p q. later_trans a.keeper.ghost_name b.keeper.ghost_name c.keeper.ghost_name a.signer.ghost_name b.signer.ghost_name c.signer.ghost_name a.verifier.ghost_name b.verifier.ghost_name c.verifier.ghost_name
        (K.faults a.keeper.now) (K.faults b.keeper.now) (K.faults c.keeper.now)
        (outsiders (G.algorithm a.signer.now) (G.meaning a.signer.now) (G.faults a.signer.now) (V.meaning a.verifier.now) (V.faults a.verifier.now) (R.passes (rule_of a.screen.now)))
        (outsiders (G.algorithm b.signer.now) (G.meaning b.signer.now) (G.faults b.signer.now) (V.meaning b.verifier.now) (V.faults b.verifier.now) (R.passes (rule_of b.screen.now)))
        (outsiders (G.algorithm c.signer.now) (G.meaning c.signer.now) (G.faults c.signer.now) (V.meaning c.verifier.now) (V.faults c.verifier.now) (R.passes (rule_of c.screen.now))) p q };

    fn answer(&mut self, alloc: Global, number: u64, line: &[u8]) -> Result<Bytes, NoMemory> {
        step(
            alloc,
            self.world,
            number,
            line,
            self.keeper,
            self.signer,
            self.verifier,
            self.screen,
        )
    }
}

/// Reads the records that the keeper holds, and then answers the events of the source's script, line by line.
pub(crate) fn replay<
    S: Source,
    O: Sink,
    K: Keeper,
    G: Signer,
    V: Verifier,
    R: ScreenRule,
    F: Fn(&Message, &PlmnId) -> bool,
>(
    alloc: Global,
    source: &mut S,
    sink: &mut O,
    keeper: &mut K,
    signer: &mut G,
    verifier: &mut V,
    screen: &Screen<F, R>,
) -> Status
    requires { IsScreen F.Fn R.passes screen.now }
    ensures theorem { IfSome (meanings_told (G.algorithm signer.old) (G.meaning signer.old) (V.meaning verifier.old) (R.passes (rule_of screen.now))) (λ means. IfSome (S.left source.old) (λ script. OverRecords (K.held keeper.old) (λ records.
        Leaves means script (S.left source.new) records (K.held keeper.new) (counts (K.faults keeper.old) (G.faults signer.old) (V.faults verifier.old)) (counts (K.faults keeper.new) (G.faults signer.new) (V.faults verifier.new))
        (O.written sink.old) (O.written sink.new) result))) }
    ensures front { IfSome (meanings_told (G.algorithm signer.old) (G.meaning signer.old) (V.meaning verifier.old) (R.passes (rule_of screen.now))) (λ means. IfSome (S.left source.old) (λ script. OverRecords (K.held keeper.old) (λ records.
        WritesFront means script records (O.written sink.old) (O.written sink.new)))) }
    ensures journal { NamesBad (K.held keeper.old) result }
    ensures bad { IfSome (K.held keeper.old) (λ texts. (k : ℕ) → IsFirstBad texts k → IsRefused k result
        × Untouched source.old source.new sink.old sink.new (K.held keeper.old) (K.held keeper.new)) }
    ensures load { AtLoad (Untouched source.old source.new sink.old sink.new (K.held keeper.old) (K.held keeper.new)) result }
    ensures complete { IfSome (S.left source.old) (λ script. IsWithin script → IfSome (K.held keeper.old) (λ texts. AreHeld texts
        → IsComplete (Rose (S.faults source.old) (S.faults source.new)) (Rose (O.faults sink.old) (O.faults sink.new))
        (Rose (K.faults keeper.old) (K.faults keeper.new)) result)) }
    ensures taken { (bytes : List ℕ) × (length bytes ≤ script_limit + 1) × Consumes (S.left source.old) (S.left source.new) bytes }
    ensures read_fault { result ≡ Status.ReadFault → Rose (S.faults source.old) (S.faults source.new) }
    ensures write_fault { result ≡ Status.WriteFault → Rose (O.faults sink.old) (O.faults sink.new) }
    ensures keeper_fault { result ≡ Status.KeeperFault → Rose (K.faults keeper.old) (K.faults keeper.new) }
    ensures reading { S.faults source.old ≤ S.faults source.new }
    ensures writing { O.faults sink.old ≤ O.faults sink.new }
    ensures keeping { K.faults keeper.old ≤ K.faults keeper.new }
    ensures others { OthersStay (outsiders (G.algorithm signer.old) (G.meaning signer.old) (G.faults signer.old) (V.meaning verifier.old) (V.faults verifier.old) (R.passes (rule_of screen.now)))
        (outsiders (G.algorithm signer.new) (G.meaning signer.new) (G.faults signer.new) (V.meaning verifier.new) (V.faults verifier.new) (R.passes (rule_of screen.now))) }
    ensures named { result ≢ Status.Words }
{
    let mut world = match begun_world(alloc, keeper) {
        Ok(world) => world,
        Err(fault) => return Status::from(fault),
    };
    let mut machine = Events {
        world: &mut world,
        keeper,
        signer,
        verifier,
        screen,
    };
    Status::from(script_loop::run(alloc, source, sink, &mut machine))
}
