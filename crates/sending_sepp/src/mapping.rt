// The mapping that a message goes by.
ghost use Rattle.spec_documents.specs.Gives.{Gives};
ghost use Rattle.spec_messages.specs.Message.{wanted};
ghost use Rattle.spec_records.specs.Records as records;
ghost use Rattle.http_message.specs.Reading.{message_view};
ghost use Rattle.context_records.specs.View.{context_view};
ghost use Rattle.spec_exchange.specs.Calls as spec;
ghost use Rattle.spec_exchange.specs.Chain.{unless};
ghost use Rattle.spec_exchange.specs.SendingRefusals as refusals;
ghost use Rattle.sending_sepp.specs.Outgoings.{outgoing_view};
ghost use Rattle.sending_sepp.specs.Sending.{told};

use crate::fault::{CheckFault, SendFault};
use crate::outgoing::Outgoing;
use context_records::Context;
use context_store::Store;
use http_message::Message;
use n32_values::{Hex64, Text};
use policy_tables::mapping_for;

// The mapping kept with the delivered request of a message id.
fn delivered_mapping(
    store: &Store,
    node: &Text,
    id: Hex64,
    to: Hex64,
) -> Result<Option<u32>, CheckFault>
    ensures { Gives told (λ k. k) result (wanted (records.mapping_delivered node.now id.value to.value store.now.records) refusals.NoRequest) }
{
    match store.mapping_delivered(node, id, to) {
        Some(mapping) => Ok(mapping),
        None => Err(CheckFault::Refused(SendFault::NoRequest)),
    }
}

// Refuses a second response to a request.
fn check_unanswered(store: &Store, node: &Text, id: Hex64, to: Hex64) -> Result<(), CheckFault>
    ensures { Gives told (λ u. u) result (unless (records.answered node.now id.value to.value store.now.records) refusals.Answered) }
{
    if store.answered(node, id, to) {
        return Err(CheckFault::Refused(SendFault::Answered));
    }
    Ok(())
}

/// The mapping of a request by its head, and of a response that of its request, which was delivered and has no
/// response yet.
#[tactic(auto, unfolding(spec_documents::specs::Chain::chains))]
pub(crate) fn mapping_to_send(
    store: &Store,
    node: &Text,
    id: Hex64,
    context: &Context,
    outgoing: Outgoing,
    message: &Message,
) -> Result<Option<u32>, CheckFault>
    ensures { Gives told (λ k. k) result (spec.mapping_to_send (outgoing_view outgoing) (context_view context.now) (message_view message.now) store.now.records node.now id.value) }
{
    match outgoing {
        Outgoing::Asks => Ok(mapping_for(&context.policy, message)),
        Outgoing::Replies(to) => {
            let mapping = delivered_mapping(store, node, id, to)?;
            check_unanswered(store, node, id, to)?;
            Ok(mapping)
        }
    }
}
