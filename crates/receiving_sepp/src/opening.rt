// The context of a document, its keys, and what is sealed under them.
ghost use Rattle.std.specs.Prelude.{IfOk, IsTrue};
ghost use Rattle.spec_documents.specs.Gives.{Gives};
ghost use Rattle.spec_documents.specs.Text.{is_node_name};
ghost use Rattle.spec_messages.specs.Message.{wanted};
ghost use Rattle.spec_records.specs.Records as records;
ghost use Rattle.http_message.specs.Reading.{kind_view};
ghost use Rattle.jwe_flat.specs.View.{content_key_view, jwe_view};
ghost use Rattle.context_records.specs.View.{context_view, key_set_view, suite_view};
ghost use Rattle.spec_exchange.specs.Accepting.{stage};
ghost use Rattle.spec_exchange.specs.Stages as spec;
ghost use Rattle.spec_exchange.specs.ReceivingRefusals as refusals;
ghost use Rattle.receiving_sepp.specs.Refusing.{told};
ghost use Rattle.receiving_sepp.specs.Groups.{keyed, unsealed};
ghost use Rattle.receiving_sepp.specs.Views.{keyed_view, unsealed_view};

use crate::faults::CheckFault;
use crate::mapping::{MappedBy, first_asked};
use crate::refused::Refused;
use context_records::{Context, KeySet, receive_key};
use context_store::Store;
use jwe_flat::{ContentKey, FlatJwe, JweOpen, open_jwe};
use n32_values::{Bytes, Hex64, Text};
use prins_document::WireDoc;
use spec_records::records::keys_fit_suite;
use std::alloc::Global;

// An open context, and its keys.
#[derive(Drop)]
pub(crate) struct KeyedContext<'a> {
    pub(crate) context: &'a Context,
    pub(crate) keys: &'a KeySet,
}

// What a JWE opens to, with the context under which it was sealed, and what its message was asked for by.
#[derive(Drop)]
pub(crate) struct Unsealed<'a> {
    pub(crate) context: &'a Context,
    pub(crate) plain: Bytes,
    pub(crate) by: MappedBy,
}

fn context_of<'a>(store: &'a Store, node: &Text, id: Hex64) -> Result<&'a Context, CheckFault>
    ensures context { Gives told (λ x. context_view x.now) result (stage (wanted (records.open_context node.now id.value store.now.records) refusals.NoContext)) }
    ensures named { IfOk result (λ _. IsTrue (is_node_name node.now)) }
{
    match store.context(node, id) {
        Some(context) => Ok(context),
        None => Err(CheckFault::Refused(Refused::ContextNotFound)),
    }
}

fn keys_of<'a>(store: &'a Store, node: &Text, id: Hex64) -> Result<&'a KeySet, CheckFault>
    ensures { Gives told (λ k. key_set_view k.now) result (stage (wanted (records.keys node.now id.value store.now.records) refusals.NoReceiveKeys)) }
{
    match store.keys(node, id) {
        Some(keys) => Ok(keys),
        None => Err(CheckFault::Refused(Refused::NoKeys)),
    }
}

// The open context of an id at a node, and its keys, which fit its suite.
#[tactic(auto, unfolding(spec_documents::specs::Chain::chains))]
fn keyed_context<'a>(
    store: &'a Store,
    node: &Text,
    id: Hex64,
) -> Result<KeyedContext<'a>, CheckFault>
    ensures context { Gives told keyed_view result (keyed store.now.records node.now id.value) }
    ensures named { IfOk result (λ _. IsTrue (is_node_name node.now)) }
    ensures fit { IfOk result (λ k. IsTrue (records.keys_fit (suite_view k.context.now.suite) (key_set_view k.keys.now))) }
{
    keys_fit_suite();
    let context = context_of(store, node, id)?;
    let keys = keys_of(store, node, id)?;
    Ok(KeyedContext { context, keys })
}

// The plaintext of a JWE whose header is right and whose tag recomputes.
#[tactic(auto, unfolding(spec_documents::specs::Chain::chains))]
fn open(alloc: Global, jwe: &FlatJwe, key: &ContentKey) -> Result<Bytes, CheckFault>
    ensures { Gives told (λ b. b) result (stage (spec.opens (content_key_view key.now) (jwe_view jwe.now))) }
{
    match open_jwe(alloc, jwe, key) {
        Ok(plain) => Ok(plain),
        Err(JweOpen::Cipher(why)) => Err(CheckFault::Refused(Refused::Cipher(why))),
        Err(JweOpen::Integrity) => Err(CheckFault::Refused(Refused::Integrity)),
        Err(JweOpen::NoMemory) => Err(CheckFault::NoMemory),
    }
}

/// The plaintext of a document under its context at the node, where its message was not delivered before and,
/// if it is a response, was asked for.
#[tactic(auto, unfolding(spec_documents::specs::Chain::chains))]
pub(crate) fn unseal<'a>(
    alloc: Global,
    store: &'a Store,
    node: &Text,
    document: &WireDoc,
) -> Result<Unsealed<'a>, CheckFault>
    ensures unsealed { Gives told unsealed_view result (unsealed store.now.records node.now document.now.context.value (kind_view document.now.kind) document.now.message.value (jwe_view document.now.jwe)) }
    ensures named { IfOk result (λ _. IsTrue (is_node_name node.now)) }
{
    let id = document.context;
    let kind = document.kind;
    let keyed = keyed_context(store, node, id)?;
    let key = receive_key(keyed.context.suite, keyed.keys, kind);
    let plain = open(alloc, &document.jwe, key)?;
    let by = first_asked(store, node, id, kind, document.message)?;
    Ok(Unsealed {
        context: keyed.context,
        plain,
        by,
    })
}
