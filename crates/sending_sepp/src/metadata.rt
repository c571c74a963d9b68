// What a block says of itself.
ghost use Rattle.std.specs.Prelude.{◌≡◌, ◌<◌, ◌^◌, IfOk, IsTrue};
ghost use Rattle.spec_documents.specs.Ids.{id_text};
ghost use Rattle.spec_messages.specs.Block.{is_meta};
ghost use Rattle.spec_records.specs.RecordDocument.{are_ipx};
ghost use Rattle.block_forms.specs.Metadata.{meta_view};
ghost use Rattle.context_records.specs.View.{context_view};
ghost use Rattle.spec_exchange.specs.Calls as spec;

use block_forms::Meta;
use context_records::Context;
use n32_values::{Hex64, NoMemory, Text, TextList, hex64_text};
use std::alloc::Global;

fn text_of(alloc: Global, id: Hex64) -> Result<Text, NoMemory>
    ensures text { IfOk result (λ t. t ≡ id_text id.value) }
    ensures range { id.value < 2 ^ 64 }
{
    hex64_text(alloc, id)
}

fn authorized(alloc: Global, own_ipx: &TextList) -> Result<Text, NoMemory>
    ensures { IfOk result (λ t. t ≡ spec.authorized own_ipx.now) }
{
    match own_ipx.get(0) {
        Some(ipx) => ipx.copy(alloc),
        None => Text::from_text(alloc, "null"),
    }
}

/// The metadata of a message: the context's id at the peer, the message's id, and the node's own intermediary,
/// or `null`.
pub(crate) fn metadata_for(
    alloc: Global,
    context: &Context,
    message: Hex64,
) -> Result<Meta, NoMemory>
    requires { IsTrue (are_ipx (context_view context.now).own_ipx) }
    ensures view { IfOk result (λ m. meta_view m ≡ spec.metadata_for (context_view context.now) message.value) }
    ensures form { IfOk result (λ m. IsTrue (is_meta (meta_view m))) }
{
    Ok(Meta {
        context: text_of(alloc, context.peer)?,
        message: text_of(alloc, message)?,
        ipx: authorized(alloc, &context.own_ipx)?,
    })
}
