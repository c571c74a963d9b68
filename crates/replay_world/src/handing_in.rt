// Contexts and keys that are handed in.
ghost use Rattle.std.specs.Prelude.{◌≡◌, true, codes, IsTrue};
ghost use Rattle.spec_documents.specs.Text.{is_node_name};
ghost use Rattle.spec_records.specs.Records as records;
ghost use Rattle.spec_records.specs.RecordDocument.{is_well_named};
ghost use Rattle.context_records.specs.View.{context_view, key_set_view, record_view};
ghost use Rattle.script_lines.specs.View.{handed_view};
ghost use Rattle.spec_script.specs.Events.{AddContext, AddKeys};
ghost use Rattle.spec_documents.specs.Gives.{Gives};
ghost use Rattle.script_lines.specs.Unanswered.{SparesKeeper, told_refusal};
ghost use Rattle.replay_world.specs.Worlds.{IsReady};
ghost use Rattle.replay_world.specs.Outsiders.{unasked};
ghost use Rattle.replay_world.specs.Handling.{Handles};
ghost use Rattle.replay_world.specs.Handing.{context_to_open, keys_may_come, keys_new, opens_new, puts_record};
ghost use Rattle.replay_world.specs.Fitting.{IsFit};

use crate::faults::{unread, unrecorded};
use crate::sites::is_known;
use crate::world::World;
use context_records::{Context, KeySet, Record};
use context_store::Store;
use n32_outside::Keeper;
use n32_values::{Bytes, Hex64, Text};
use policy_documents::{PolicyRead, read_policy};
use script_lines::{HandedContext, Refusal, Unanswered, done_text};
use std::alloc::Global;

// The context that is handed in, with the policy that its document is of.
#[tactic(auto, unfolding(spec_documents::specs::Chain::chains))]
fn context_of(alloc: Global, handed: HandedContext) -> Result<Context, Unanswered>
    ensures gives { Gives told_refusal context_view result (context_to_open (handed_view handed)) }
    ensures spares { SparesKeeper result }
{
    let policy = match read_policy(alloc, &handed.policy) {
        Ok(policy) => policy,
        Err(PolicyRead::Form(mapping)) => {
            return Err(Unanswered::Refused(Refusal::PolicyForm(mapping)));
        }
        Err(PolicyRead::NoMemory) => return Err(Unanswered::NoMemory),
    };
    let HandedContext {
        node,
        id,
        peer_node,
        peer,
        plmn,
        suite,
        policy: _,
        own_ipx,
        peer_ipx,
    } = handed;
    Ok(Context {
        node,
        id,
        peer_node,
        peer,
        plmn,
        suite,
        policy,
        own_ipx,
        peer_ipx,
    })
}

// Puts the record of the event of that name, over a fresh store.
fn put_record<K: Keeper>(
    alloc: Global,
    world: &mut World,
    keeper: &mut K,
    number: u64,
    name: &str,
    item: Record,
) -> Result<Bytes, Unanswered>
    requires ready { IsReady (K.held keeper.old) world.old }
    requires fresh { world.old.store.fresh ≡ true }
    requires names { IsTrue (is_well_named (record_view item)) }
    ensures { Handles (puts_record name.now (record_view item))
        (K.held keeper.old) (K.held keeper.new) (K.faults keeper.old) (K.faults keeper.new) world.old world.new number result }
{
    let text = done_text(alloc, number, name)?;
    match world.store.add(alloc, keeper, item) {
        Ok(_) => Ok(text),
        Err(fault) => Err(unrecorded(fault)),
    }
}

// Puts the record of a context that opens, over a fresh store.
fn put_opened<K: Keeper>(
    alloc: Global,
    world: &mut World,
    keeper: &mut K,
    number: u64,
    context: Context,
) -> Result<Bytes, Unanswered>
    requires ready { IsReady (K.held keeper.old) world.old }
    requires fresh { world.old.store.fresh ≡ true }
    requires names { IsTrue (is_well_named (records.Opened (context_view context))) }
    ensures { Handles (puts_record (codes "context") (records.Opened (context_view context)))
        (K.held keeper.old) (K.held keeper.new) (K.faults keeper.old) (K.faults keeper.new) world.old world.new number result }
{
    match Record::of_context(alloc, context) {
        Ok(item) => put_record(alloc, world, keeper, number, "context", item),
        Err(_) => Err(Unanswered::NoMemory),
    }
}

// Puts the record of a context's keys, over a fresh store.
fn put_keys<K: Keeper>(
    alloc: Global,
    world: &mut World,
    keeper: &mut K,
    number: u64,
    node: Text,
    id: Hex64,
    keys: KeySet,
) -> Result<Bytes, Unanswered>
    requires ready { IsReady (K.held keeper.old) world.old }
    requires fresh { world.old.store.fresh ≡ true }
    requires name { IsTrue (is_node_name node) }
    ensures { Handles (puts_record (codes "keys") (records.Keyed node id.value (key_set_view keys)))
        (K.held keeper.old) (K.held keeper.new) (K.faults keeper.old) (K.faults keeper.new) world.old world.new number result }
{
    match Record::of_keys(alloc, node, id, keys) {
        Ok(item) => put_record(alloc, world, keeper, number, "keys", item),
        Err(_) => Err(Unanswered::NoMemory),
    }
}

// Opens a context whose id isn't used.
fn open_context<K: Keeper>(
    alloc: Global,
    world: &mut World,
    keeper: &mut K,
    number: u64,
    context: Context,
) -> Result<Bytes, Unanswered>
    requires ready { IsReady (K.held keeper.old) world.old }
    requires fresh { world.old.store.fresh ≡ true }
    requires names { IsTrue (is_well_named (records.Opened (context_view context))) }
    ensures { Handles (opens_new (context_view context))
        (K.held keeper.old) (K.held keeper.new) (K.faults keeper.old) (K.faults keeper.new) world.old world.new number result }
{
    if world.store.used(&context.node, context.id) {
        return Err(Unanswered::Refused(Refusal::ContextUsed));
    }
    put_opened(alloc, world, keeper, number, context)
}

/// A context is handed in.
pub(crate) fn hand_in_context<K: Keeper>(
    alloc: Global,
    world: &mut World,
    keeper: &mut K,
    number: u64,
    handed: HandedContext,
) -> Result<Bytes, Unanswered>
    requires ready { IsReady (K.held keeper.old) world.old }
    requires fit { IsFit (AddContext (handed_view handed)) }
    ensures { Handles (unasked (AddContext (handed_view handed)))
        (K.held keeper.old) (K.held keeper.new) (K.faults keeper.old) (K.faults keeper.new) world.old world.new number result }
{
    if !is_known(&world.sites, &handed.node) {
        return Err(Unanswered::Refused(Refusal::NodeUnknown));
    }
    let context = match context_of(alloc, handed) {
        Ok(context) => context,
        Err(why) => return Err(why),
    };
    match world.store.refresh(alloc, keeper) {
        Ok(()) => open_context(alloc, world, keeper, number, context),
        Err(fault) => Err(unread(fault)),
    }
}

// Whether the keys may be handed in: the context is open, has none yet, and they fit its suite.
#[tactic(auto, unfolding(spec_documents::specs::Chain::chains))]
fn check_keys(store: &Store, node: &Text, id: Hex64, keys: &KeySet) -> Result<(), Unanswered>
    ensures gives { Gives told_refusal (λ _. tt) result (keys_may_come store.now.records node.now id.value (key_set_view keys.now)) }
    ensures spares { SparesKeeper result }
{
    let Some(context) = store.context(node, id) else {
        return Err(Unanswered::Refused(Refusal::ContextNotFound));
    };
    if store.keys(node, id).is_some() {
        return Err(Unanswered::Refused(Refusal::KeysTwice));
    }
    if !keys.fits(context.suite) {
        return Err(Unanswered::Refused(Refusal::Event("key")));
    }
    Ok(())
}

// Records the keys of a context that has none.
fn record_keys<K: Keeper>(
    alloc: Global,
    world: &mut World,
    keeper: &mut K,
    number: u64,
    node: Text,
    id: Hex64,
    keys: KeySet,
) -> Result<Bytes, Unanswered>
    requires ready { IsReady (K.held keeper.old) world.old }
    requires fresh { world.old.store.fresh ≡ true }
    requires name { IsTrue (is_node_name node) }
    ensures { Handles (keys_new node id.value (key_set_view keys))
        (K.held keeper.old) (K.held keeper.new) (K.faults keeper.old) (K.faults keeper.new) world.old world.new number result }
{
    match check_keys(&world.store, &node, id, &keys) {
        Ok(()) => put_keys(alloc, world, keeper, number, node, id, keys),
        Err(why) => Err(why),
    }
}

/// The keys of a context are handed in.
pub(crate) fn hand_in_keys<K: Keeper>(
    alloc: Global,
    world: &mut World,
    keeper: &mut K,
    number: u64,
    node: Text,
    id: Hex64,
    keys: KeySet,
) -> Result<Bytes, Unanswered>
    requires ready { IsReady (K.held keeper.old) world.old }
    requires name { IsTrue (is_node_name node) }
    ensures { Handles (unasked (AddKeys node id.value (key_set_view keys)))
        (K.held keeper.old) (K.held keeper.new) (K.faults keeper.old) (K.faults keeper.new) world.old world.new number result }
{
    if !is_known(&world.sites, &node) {
        return Err(Unanswered::Refused(Refusal::NodeUnknown));
    }
    match world.store.refresh(alloc, keeper) {
        Ok(()) => record_keys(alloc, world, keeper, number, node, id, keys),
        Err(fault) => Err(unread(fault)),
    }
}
