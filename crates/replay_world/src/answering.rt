// The answer to a line.
ghost use Rattle.std.specs.Prelude.{◌≡◌, ◌≤◌, IfOk};
ghost use Rattle.spec_script.specs.Answers.{answer_text};
ghost use Rattle.spec_script.specs.Steps as spec;
ghost use Rattle.script_lines.specs.View.{event_view, refusal_view};
ghost use Rattle.message_screens.specs.Screening.{IsScreen, rule_of};
ghost use Rattle.replay_world.specs.Outsiders.{Acted, OthersStay, event_steps, line_steps, outsiders, told};
ghost use Rattle.replay_world.specs.Worlds.{IsReady, Steps};
ghost use Rattle.replay_world.specs.Stepping.{LineComes};
ghost use Rattle.replay_world.specs.Handling.{Handles};
ghost use Rattle.replay_world.specs.Fitting.{IsFit};

use crate::handing_in::{hand_in_context, hand_in_keys};
use crate::handshaking::{answer, ended, finish, start, terminate};
use crate::passing::{alter, pass};
use crate::reading::read_line_event;
use crate::reporting::reported;
use crate::sites::{add_node, restart};
use crate::traffic::{deliver, inject, send};
use crate::world::World;
use http_message::Message;
use message_screens::{Screen, ScreenRule};
use n32_outside::{Keeper, Signer, Verifier};
use n32_values::{Bytes, NoMemory, PlmnId};
use script_lines::{Event, Refusal, Unanswered, refusal_text};
use spec_script::runs::refusal_changes_nothing;
use std::alloc::Global;

fn answer_event<K: Keeper, G: Signer, V: Verifier, R: ScreenRule, F: Fn(&Message, &PlmnId) -> bool>(
    alloc: Global,
    world: &mut World,
    keeper: &mut K,
    signer: &mut G,
    verifier: &mut V,
    screen: &Screen<F, R>,
    number: u64,
    event: Event,
) -> Result<Bytes, Unanswered>
    requires ready { IsReady (K.held keeper.old) world.old }
    requires follows { IsScreen F.Fn R.passes screen.now }
    requires fit { IsFit (event_view event) }
    ensures handles { Acted (outsiders (G.algorithm signer.old) (G.meaning signer.old) (G.faults signer.old) (V.meaning verifier.old) (V.faults verifier.old) (R.passes (rule_of screen.now)))
        (outsiders (G.algorithm signer.new) (G.meaning signer.new) (G.faults signer.new) (V.meaning verifier.new) (V.faults verifier.new) (R.passes (rule_of screen.now)))
        (λ x. Handles (event_steps (R.passes (rule_of screen.now)) x (event_view event)) (K.held keeper.old) (K.held keeper.new) (K.faults keeper.old) (K.faults keeper.new) world.old world.new number result) }
    ensures others { OthersStay (outsiders (G.algorithm signer.old) (G.meaning signer.old) (G.faults signer.old) (V.meaning verifier.old) (V.faults verifier.old) (R.passes (rule_of screen.now)))
        (outsiders (G.algorithm signer.new) (G.meaning signer.new) (G.faults signer.new) (V.meaning verifier.new) (V.faults verifier.new) (R.passes (rule_of screen.now))) }
{
    match event {
        Event::Node { node, plmn } => add_node(alloc, world, number, node, plmn),
        Event::Context(handed) => hand_in_context(alloc, world, keeper, number, handed),
        Event::Keys { node, id, keys } => {
            hand_in_keys(alloc, world, keeper, number, node, id, keys)
        }
        Event::Send {
            node,
            id,
            message,
            answers,
        } => send(alloc, world, keeper, number, &node, id, &message, answers),
        Event::Pass {
            ipx,
            wire,
            operations,
        } => pass(alloc, world, signer, number, ipx, &wire, operations),
        Event::Inject { document } => inject(alloc, world, number, document),
        Event::Alter { wire, operations } => alter(alloc, world, number, &wire, &operations),
        Event::Deliver { node, wire } => deliver(
            alloc, world, keeper, verifier, screen, number, &node, &wire,
        ),
        Event::Restart { node } => restart(alloc, world, number, &node),
        Event::Reported { node, document } => reported(alloc, world, number, &node, document),
        Event::Start { node, peer, offer } => {
            start(alloc, world, keeper, number, &node, &peer, offer)
        }
        Event::Answer { node, wire, offer } => {
            answer(alloc, world, keeper, number, &node, &wire, offer)
        }
        Event::Finish { node, wire } => finish(alloc, world, keeper, number, &node, &wire),
        Event::Terminate { node, id } => terminate(alloc, world, keeper, number, &node, id),
        Event::Ended { node, wire } => ended(alloc, world, keeper, number, &node, &wire),
    }
}

fn answer_line<K: Keeper, G: Signer, V: Verifier, R: ScreenRule, F: Fn(&Message, &PlmnId) -> bool>(
    alloc: Global,
    world: &mut World,
    keeper: &mut K,
    signer: &mut G,
    verifier: &mut V,
    screen: &Screen<F, R>,
    number: u64,
    line: &[u8],
) -> Result<Bytes, Unanswered>
    requires ready { IsReady (K.held keeper.old) world.old }
    requires follows { IsScreen F.Fn R.passes screen.now }
    ensures handles { Acted (outsiders (G.algorithm signer.old) (G.meaning signer.old) (G.faults signer.old) (V.meaning verifier.old) (V.faults verifier.old) (R.passes (rule_of screen.now)))
        (outsiders (G.algorithm signer.new) (G.meaning signer.new) (G.faults signer.new) (V.meaning verifier.new) (V.faults verifier.new) (R.passes (rule_of screen.now)))
        (λ x. Handles (line_steps (R.passes (rule_of screen.now)) x line.now) (K.held keeper.old) (K.held keeper.new) (K.faults keeper.old) (K.faults keeper.new) world.old world.new number result) }
    ensures others { OthersStay (outsiders (G.algorithm signer.old) (G.meaning signer.old) (G.faults signer.old) (V.meaning verifier.old) (V.faults verifier.old) (R.passes (rule_of screen.now)))
        (outsiders (G.algorithm signer.new) (G.meaning signer.new) (G.faults signer.new) (V.meaning verifier.new) (V.faults verifier.new) (R.passes (rule_of screen.now))) }
{
    let event = match read_line_event(alloc, line) {
        Ok(event) => event,
        Err(why) => return Err(why),
    };
    answer_event(
        alloc, world, keeper, signer, verifier, screen, number, event,
    )
}

fn refused_text(alloc: Global, number: u64, refusal: Refusal) -> Result<Bytes, NoMemory>
    ensures { IfOk result (λ text. text ≡ answer_text number (spec.Refuses (refusal_view refusal))) }
{
    refusal_text(alloc, number, &refusal)
}

// The text of the answer to a line.
fn text_of_answer<
    K: Keeper,
    G: Signer,
    V: Verifier,
    R: ScreenRule,
    F: Fn(&Message, &PlmnId) -> bool,
>(
    alloc: Global,
    world: &mut World,
    keeper: &mut K,
    signer: &mut G,
    verifier: &mut V,
    screen: &Screen<F, R>,
    number: u64,
    line: &[u8],
) -> Result<Bytes, NoMemory>
    requires ready { IsReady (K.held keeper.old) world.old }
    requires follows { IsScreen F.Fn R.passes screen.now }
    ensures comes { Acted (outsiders (G.algorithm signer.old) (G.meaning signer.old) (G.faults signer.old) (V.meaning verifier.old) (V.faults verifier.old) (R.passes (rule_of screen.now)))
        (outsiders (G.algorithm signer.new) (G.meaning signer.new) (G.faults signer.new) (V.meaning verifier.new) (V.faults verifier.new) (R.passes (rule_of screen.now)))
        (λ x. LineComes (R.passes (rule_of screen.now)) x (K.held keeper.old) (K.held keeper.new) (K.faults keeper.old) (K.faults keeper.new) world.old world.new number line.now result) }
    ensures ready { IsReady (K.held keeper.new) world.new }
    ensures later { K.faults keeper.old ≤ K.faults keeper.new }
    ensures others { OthersStay (outsiders (G.algorithm signer.old) (G.meaning signer.old) (G.faults signer.old) (V.meaning verifier.old) (V.faults verifier.old) (R.passes (rule_of screen.now)))
        (outsiders (G.algorithm signer.new) (G.meaning signer.new) (G.faults signer.new) (V.meaning verifier.new) (V.faults verifier.new) (R.passes (rule_of screen.now))) }
{
    refusal_changes_nothing();
    match answer_line(alloc, world, keeper, signer, verifier, screen, number, line) {
        Ok(text) => Ok(text),
        Err(Unanswered::Refused(refusal)) => refused_text(alloc, number, refusal),
        Err(Unanswered::NoMemory) => Err(NoMemory),
    }
}

/// Answers the line of that number, from 1: reads its event, does it, and gives the text of the answer, without a
/// newline.
///
/// The answer is that of the first check that fails, in the order of the event, or that the event is done. `KEEPER`
/// comes only where the keeper failed in this call, and the store was stale or every other check holds; its record
/// may then be held or not. `JOURNAL` comes only where a stale store is read. `SIGNER` comes only where the signer
/// failed in this call, and `VERIFIER` only where the verifier did. After any other refusal than `KEEPER` the world and
/// what is held are as before, but that a start may wait no longer where the sides of a handshake don't agree.
///
/// # Errors
/// `NoMemory` leaves the nodes and the wire as they were, and the records as they were or with the event's one record.
pub fn step<K: Keeper, G: Signer, V: Verifier, R: ScreenRule, F: Fn(&Message, &PlmnId) -> bool>(
    alloc: Global,
    world: &mut World,
    number: u64,
    line: &[u8],
    keeper: &mut K,
    signer: &mut G,
    verifier: &mut V,
    screen: &Screen<F, R>,
) -> Result<Bytes, NoMemory>
    // The store has the records that are held, where it is fresh; no node stands twice; no document on the wire is
    // deeper than 126; the wire's bytes are counted.
    requires ready { IsReady (K.held keeper.old) world.old }

    // The screen's test answers what its rule says.
    requires follows { IsScreen F.Fn R.passes screen.now }
    ensures ready { IsReady (K.held keeper.new) world.new }

    // The answer and what it leaves are those of the step of the line, over the records that a fresh store has or
    // that are held, under some choice of the keeper, behind the screen, and with what the signer signs and the verifier
    // says.
    ensures comes { Acted (outsiders (G.algorithm signer.old) (G.meaning signer.old) (G.faults signer.old) (V.meaning verifier.old) (V.faults verifier.old) (R.passes (rule_of screen.now)))
        (outsiders (G.algorithm signer.new) (G.meaning signer.new) (G.faults signer.new) (V.meaning verifier.new) (V.faults verifier.new) (R.passes (rule_of screen.now)))
        (λ x. LineComes (R.passes (rule_of screen.now)) x (K.held keeper.old) (K.held keeper.new) (K.faults keeper.old) (K.faults keeper.new) world.old world.new number line.now result) }

    // Where the keeper tells texts that are all records, these are the records.
    ensures steps { IfOk result (λ text. Steps
        (told (K.held keeper.old) (K.faults keeper.old) (outsiders (G.algorithm signer.old) (G.meaning signer.old) (G.faults signer.old) (V.meaning verifier.old) (V.faults verifier.old) (R.passes (rule_of screen.now))))
        (told (K.held keeper.new) (K.faults keeper.new) (outsiders (G.algorithm signer.new) (G.meaning signer.new) (G.faults signer.new) (V.meaning verifier.new) (V.faults verifier.new) (R.passes (rule_of screen.now)))) world.old world.new number line.now text) }
    ensures later { K.faults keeper.old ≤ K.faults keeper.new }
    ensures others { OthersStay (outsiders (G.algorithm signer.old) (G.meaning signer.old) (G.faults signer.old) (V.meaning verifier.old) (V.faults verifier.old) (R.passes (rule_of screen.now)))
        (outsiders (G.algorithm signer.new) (G.meaning signer.new) (G.faults signer.new) (V.meaning verifier.new) (V.faults verifier.new) (R.passes (rule_of screen.now))) }
{
    text_of_answer(alloc, world, keeper, signer, verifier, screen, number, line)
}
