// The document of a message.
ghost use Rattle.std.specs.Prelude.{◌≡◌, ◌≤◌, IfOk, IsTrue, length};
ghost use Rattle.spec_documents.specs.Gives.{Gives};
ghost use Rattle.spec_documents.specs.Compact.{compact_text};
ghost use Rattle.spec_messages.specs.Message.{is_whole, body_depth};
ghost use Rattle.spec_messages.specs.Policy.{values};
ghost use Rattle.spec_records.specs.Keys.{nonce, send_key as key_to_send};
ghost use Rattle.spec_records.specs.Records.{keys_fit};
ghost use Rattle.spec_records.specs.RecordDocument.{are_ipx};
ghost use Rattle.http_message.specs.Reading.{kind_view, message_view};
ghost use Rattle.context_records.specs.View.{context_view, key_set_view, suite_view};
ghost use Rattle.spec_exchange.specs.Calls.{kind_of_outgoing, message_id, sealed_document, sent_block_of};
ghost use Rattle.spec_messages.specs.Splitting.{split_limit};
ghost use Rattle.spec_exchange.specs.Chain.{none_of};
ghost use Rattle.spec_sealing.specs.Suites.{content_key};
ghost use Rattle.spec_sealing.specs.Jwe.{sealed};
ghost use Rattle.spec_sealing.specs.Plaintext.{plaintext};
ghost use Rattle.spec_sealing.specs.Received.{carrier};
ghost use Rattle.spec_exchange.specs.SendingRefusals as refusals;
ghost use Rattle.sending_sepp.specs.Outgoings.{outgoing_view};
ghost use Rattle.sending_sepp.specs.Sending.{told};

use crate::fault::CheckFault;
use crate::metadata::metadata_for;
use crate::outgoing::Outgoing;
use crate::splitting::split_message;
use context_records::{Context, KeySet, send_key, send_nonce};
use http_message::{Kind, Message};
use jwe_flat::{Suite, seal_jwe};
use n32_values::{Doc, NoMemory, doc_text};
use prins_document::{values_text, wire_doc};
use reformat_blocks::Split;
use std::alloc::Global;

// The document that carries a block and its values, sealed as the message of this kind and sequence number.
fn seal(
    alloc: Global,
    suite: Suite,
    keys: &KeySet,
    kind: Kind,
    seq: u32,
    parts: Split,
) -> Result<Doc, NoMemory>
    requires { IsTrue (keys_fit (suite_view suite) (key_set_view keys.now)) }
    ensures { IfOk result (λ d. d ≡ carrier (sealed (content_key (suite_view suite) (key_to_send (kind_view kind) (key_set_view keys.now)).key) (nonce (key_to_send (kind_view kind) (key_set_view keys.now)) seq) (compact_text parts.block) (plaintext parts.values))) }
{
    let Split { block, values } = parts;
    let clear = doc_text(alloc, block.doc().node())?;
    let plain = values_text(alloc, values)?;
    let key = send_key(suite, keys, kind);
    let iv = send_nonce(keys, kind, seq);
    let jwe = seal_jwe(alloc, key, iv, clear.as_slice(), plain.as_slice())?;
    wire_doc(alloc, &jwe)
}

/// The document of a message with this sequence number, or the first limit that it passes.
pub(crate) fn sent_document(
    alloc: Global,
    context: &Context,
    keys: &KeySet,
    mapping: Option<u32>,
    outgoing: Outgoing,
    seq: u32,
    message: &Message,
) -> Result<Doc, CheckFault>
    requires fits { IsTrue (keys_fit (suite_view context.now.suite) (key_set_view keys.now)) }
    requires own_ipx { IsTrue (are_ipx (context_view context.now).own_ipx) }
    requires whole { IsTrue (is_whole (message_view message.now)) }
    requires shallow { body_depth (message_view message.now).body ≤ 64 }
    ensures limit { Gives told (λ _. tt) result (none_of refusals.Beyond (split_limit (sent_block_of (context_view context.now) mapping (message_id (outgoing_view outgoing) seq) (message_view message.now)) (length (values context.now.policy mapping (message_view message.now))))) }
    ensures document { IfOk result (λ d. d ≡ sealed_document (context_view context.now) (key_to_send (kind_of_outgoing (outgoing_view outgoing)) (key_set_view keys.now)) seq (sent_block_of (context_view context.now) mapping (message_id (outgoing_view outgoing) seq) (message_view message.now)) (values context.now.policy mapping (message_view message.now))) }
{
    let meta = metadata_for(alloc, context, outgoing.message_id(seq))?;
    let parts = split_message(alloc, &context.policy, mapping, message, meta)?;
    let document = seal(alloc, context.suite, keys, outgoing.kind(), seq, parts)?;
    Ok(document)
}
