// The calls of `n32c_handshake`, as scenarios. A row lists `steps` of nodes, which are played one after the other over
// one keeper in memory, whose calls `fails` fail, one store, and the starts that wait. A document that a step makes goes
// last in a list, and a later step takes it by its number `wire`.
ghost use Rattle.std.specs.Prelude.{◌≡◌, false, Some, IfSome, IsTrue};
ghost use Rattle.spec_documents.specs.Text.{is_node_name};
ghost use Rattle.spec_records.specs.RecordDocument.{are_ipx};
ghost use Rattle.context_store.specs.Stores.{IsConsistent};
ghost use Rattle.n32_outside.specs.MemoryViews.{keeper_held};

use crate::handshake_steps::{Step, offer_in, read_step, refusal_node};
use context_store::{Store, new_store};
use doc_forms::Grammar;
use n32_outside::{FailItem, FailList, Keeper, MemKeeper};
use n32_values::{Doc, Hex64, Node, NodeList, NodeMap, PlmnId, Text};
use n32c_handshake::{
    Finished, HandFault, Hands, Offer, Replied, answer, ended, finish, start, terminate,
};
use std::alloc::Global;
use worked_rows::{
    Args, count_node, id_node, member_node, number_of, pair_node, text_node, words_of,
};

// ---- answers

fn push(list: &mut NodeList, node: Option<Node>) -> Option<()> {
    match node {
        Some(node) => list.push(node).ok(),
        None => None,
    }
}

// The number of a document that goes last in the list.
fn kept(wires: &mut NodeList, doc: Doc) -> Option<Node> {
    let number = wires.len();
    match wires.push(doc.into_node()) {
        Ok(()) => Some(count_node(number)),
        Err(_) => None,
    }
}

fn wire_node(alloc: Global, wires: &mut NodeList, doc: Doc) -> Option<Node> {
    match kept(wires, doc) {
        Some(number) => member_node(alloc, "wire", number),
        None => None,
    }
}

fn opened_node(alloc: Global, id: Hex64) -> Option<Node> {
    match id_node(alloc, id) {
        Some(id) => member_node(alloc, "opened", id),
        None => None,
    }
}

fn made_node(alloc: Global, wires: &mut NodeList, made: Result<Doc, HandFault>) -> Option<Node> {
    match made {
        Ok(doc) => wire_node(alloc, wires, doc),
        Err(fault) => refusal_node(alloc, fault),
    }
}

fn replied_node(
    alloc: Global,
    wires: &mut NodeList,
    replied: Result<Replied, HandFault>,
) -> Option<Node> {
    match replied {
        Ok(Replied::Selected { document }) => wire_node(alloc, wires, document),
        Ok(Replied::Opened { document, id }) => pair_node(
            alloc,
            "opened",
            id_node(alloc, id),
            "wire",
            kept(wires, document),
        ),
        Err(fault) => refusal_node(alloc, fault),
    }
}

fn finished_node(
    alloc: Global,
    wires: &mut NodeList,
    finished: Result<Finished, HandFault>,
) -> Option<Node> {
    match finished {
        Ok(Finished::Next { document }) => wire_node(alloc, wires, document),
        Ok(Finished::Opened { id }) => opened_node(alloc, id),
        Ok(Finished::EndedTls) => text_node(alloc, "TLS"),
        Err(fault) => refusal_node(alloc, fault),
    }
}

// ---- steps

fn is_node(node: &Text) -> bool
    ensures { result ≡ is_node_name node.now }
{
    Grammar::NodeName.fits(node.as_str())
}

/// A node, its network and what it offers.
#[derive(Drop)]
struct Offering<'a> {
    node: &'a Text,
    plmn: &'a PlmnId,
    offer: Offer,
}

// What a node offers in a step: its name and the offer's intermediaries have their form.
fn offering_in<'a>(alloc: Global, args: Args<'_>, step: &'a Step) -> Option<Offering<'a>>
    ensures node { IfSome result (λ by. IsTrue (is_node_name by.node.now)) }
    ensures offer { IfSome result (λ by. IsTrue (are_ipx by.offer.ipx)) }
{
    let offer = offer_in(alloc, args.document("offer"));
    match (&step.node, &step.plmn, offer) {
        (Some(node), Some(plmn), Some(offer)) => {
            if is_node(node) {
                Some(Offering { node, plmn, offer })
            } else {
                None
            }
        }
        _ => None,
    }
}

fn play_start(
    alloc: Global,
    hands: &mut Hands,
    store: &mut Store,
    keeper: &mut MemKeeper,
    wires: &mut NodeList,
    args: Args<'_>,
    step: &Step,
) -> Option<Node>
    requires consistent { IsConsistent (Some (keeper_held keeper.old)) store.old }
    ensures { IsConsistent (Some (keeper_held keeper.new)) store.new }
{
    match (offering_in(alloc, args, step), &step.peer) {
        (Some(by), Some(peer)) => {
            if is_node(peer) {
                let made = start(
                    alloc, hands, store, keeper, by.node, by.plmn, peer, by.offer,
                );
                made_node(alloc, wires, made)
            } else {
                None
            }
        }
        _ => None,
    }
}

fn play_answer(
    alloc: Global,
    store: &mut Store,
    keeper: &mut MemKeeper,
    wires: &mut NodeList,
    args: Args<'_>,
    step: &Step,
) -> Option<Node>
    requires consistent { IsConsistent (Some (keeper_held keeper.old)) store.old }
    ensures { IsConsistent (Some (keeper_held keeper.new)) store.new }
{
    match (offering_in(alloc, args, step), &step.document) {
        (Some(by), Some(document)) => {
            let replied = answer(alloc, store, keeper, by.node, by.plmn, by.offer, document);
            replied_node(alloc, wires, replied)
        }
        _ => None,
    }
}

fn play_finish(
    alloc: Global,
    hands: &mut Hands,
    store: &mut Store,
    keeper: &mut MemKeeper,
    wires: &mut NodeList,
    step: &Step,
) -> Option<Node>
    requires consistent { IsConsistent (Some (keeper_held keeper.old)) store.old }
    ensures { IsConsistent (Some (keeper_held keeper.new)) store.new }
{
    match (&step.node, &step.plmn, &step.document) {
        (Some(node), Some(plmn), Some(document)) => {
            let finished = finish(alloc, hands, store, keeper, node, plmn, document);
            finished_node(alloc, wires, finished)
        }
        _ => None,
    }
}

fn play_terminate(
    alloc: Global,
    store: &mut Store,
    keeper: &mut MemKeeper,
    wires: &mut NodeList,
    step: &Step,
) -> Option<Node>
    requires consistent { IsConsistent (Some (keeper_held keeper.old)) store.old }
    ensures { IsConsistent (Some (keeper_held keeper.new)) store.new }
{
    match (&step.node, step.id) {
        (Some(node), Some(id)) => {
            let made = terminate(alloc, store, keeper, node, id);
            made_node(alloc, wires, made)
        }
        _ => None,
    }
}

fn play_ended(
    alloc: Global,
    store: &mut Store,
    keeper: &mut MemKeeper,
    wires: &mut NodeList,
    step: &Step,
) -> Option<Node>
    requires consistent { IsConsistent (Some (keeper_held keeper.old)) store.old }
    ensures { IsConsistent (Some (keeper_held keeper.new)) store.new }
{
    match (&step.node, &step.document) {
        (Some(node), Some(document)) => {
            let made = ended(alloc, store, keeper, node, document);
            made_node(alloc, wires, made)
        }
        _ => None,
    }
}

// The node's starts wait no longer, and the records are read again.
fn play_restart(hands: &mut Hands, store: &mut Store, step: &Step) -> Option<Node>
    ensures { store.new.fresh ≡ false }
{
    store.forget();
    match &step.node {
        Some(node) => {
            hands.drop_node(node);
            Some(Node::Null)
        }
        None => None,
    }
}

fn play_step(
    alloc: Global,
    hands: &mut Hands,
    store: &mut Store,
    keeper: &mut MemKeeper,
    wires: &mut NodeList,
    args: Args<'_>,
    step: &Step,
) -> Option<Node>
    requires consistent { IsConsistent (Some (keeper_held keeper.old)) store.old }
    ensures { IsConsistent (Some (keeper_held keeper.new)) store.new }
{
    match args.text("do")? {
        "start" => play_start(alloc, hands, store, keeper, wires, args, step),
        "answer" => play_answer(alloc, store, keeper, wires, args, step),
        "finish" => play_finish(alloc, hands, store, keeper, wires, step),
        "terminate" => play_terminate(alloc, store, keeper, wires, step),
        "ended" => play_ended(alloc, store, keeper, wires, step),
        "restart" => play_restart(hands, store, step),
        _ => None,
    }
}

// ---- scenarios

/// What a scenario has come to.
#[derive(Drop)]
struct Played {
    answers: NodeList,
    wires: NodeList,
}

fn play_next(
    alloc: Global,
    hands: &mut Hands,
    store: &mut Store,
    keeper: &mut MemKeeper,
    played: &mut Played,
    names: &NodeMap,
    node: &Node,
) -> Option<()>
    requires consistent { IsConsistent (Some (keeper_held keeper.old)) store.old }
    ensures { IsConsistent (Some (keeper_held keeper.new)) store.new }
{
    match node {
        Node::Members(row) => {
            let step = read_step(alloc, row, &played.wires);
            let args = Args { names, row };
            let told = play_step(alloc, hands, store, keeper, &mut played.wires, args, &step);
            push(&mut played.answers, told)
        }
        _ => None,
    }
}

fn play_all(
    alloc: Global,
    hands: &mut Hands,
    store: &mut Store,
    keeper: &mut MemKeeper,
    played: &mut Played,
    names: &NodeMap,
    steps: &NodeList,
) -> Option<()>
    requires consistent { IsConsistent (Some (keeper_held keeper.old)) store.old }
    ensures { IsConsistent (Some (keeper_held keeper.new)) store.new }
{
    for i in 0..steps.len() {
        play_next(alloc, hands, store, keeper, played, names, steps.item(i))?;
    }
    Some(())
}

fn fail_item(node: &Node) -> Option<FailItem> {
    match node {
        Node::Members(map) => match (number_of(map.get("call")?), map.get("keeps")) {
            (Some(call), Some(Node::Truth(keeps))) => Some(FailItem {
                call: u64::from(call),
                keeps: *keeps,
            }),
            _ => None,
        },
        _ => None,
    }
}

// The calls of the keeper that fail, as `[{"call":0,"keeps":true}]`; none where there is no such list.
fn fails_in(alloc: Global, args: Args<'_>) -> FailList {
    let mut fails = FailList::new(alloc);
    if let Some(list) = args.list("fails") {
        for i in 0..list.len() {
            if let Some(item) = fail_item(list.item(i)) {
                let _room = fails.push(item);
            }
        }
    }
    fails
}

fn play_over(
    alloc: Global,
    keeper: &mut MemKeeper,
    played: &mut Played,
    args: Args<'_>,
) -> Option<()> {
    let mut hands = Hands::new(alloc);
    let mut store = new_store(alloc);
    match args.list("steps") {
        Some(steps) => play_all(
            alloc, &mut hands, &mut store, keeper, played, args.names, steps,
        ),
        None => None,
    }
}

fn play(alloc: Global, keeper: &mut MemKeeper, args: Args<'_>) -> Option<Played> {
    let mut played = Played {
        answers: NodeList::new(alloc),
        wires: NodeList::new(alloc),
    };
    match play_over(alloc, keeper, &mut played, args) {
        Some(()) => Some(played),
        None => None,
    }
}

/// What each step is answered.
pub fn handshake_call(alloc: Global, args: Args<'_>) -> Option<Node> {
    let mut keeper = MemKeeper::new(alloc, fails_in(alloc, args));
    match play(alloc, &mut keeper, args) {
        Some(played) => Some(Node::Items(played.answers)),
        None => None,
    }
}

/// The documents that the steps make.
pub fn handshake_wires_call(alloc: Global, args: Args<'_>) -> Option<Node> {
    let mut keeper = MemKeeper::new(alloc, fails_in(alloc, args));
    match play(alloc, &mut keeper, args) {
        Some(played) => Some(Node::Items(played.wires)),
        None => None,
    }
}

fn held_node(alloc: Global, keeper: &mut MemKeeper, number: u64) -> Option<Node> {
    match keeper.load(alloc, number) {
        Ok(Some(bytes)) => words_of(alloc, bytes),
        _ => None,
    }
}

/// The text of the record `held` that the keeper holds in the end.
pub fn handshake_record_call(alloc: Global, args: Args<'_>) -> Option<Node> {
    let number = args.number("held")?;
    let mut keeper = MemKeeper::new(alloc, fails_in(alloc, args));
    match play(alloc, &mut keeper, args) {
        Some(_) => held_node(alloc, &mut keeper, u64::from(number)),
        None => None,
    }
}
