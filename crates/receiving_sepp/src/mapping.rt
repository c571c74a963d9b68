// What a message was asked for by, and the mapping that it goes by.
ghost use Rattle.std.specs.Prelude.{◌≡◌};
ghost use Rattle.spec_documents.specs.Gives.{Gives};
ghost use Rattle.spec_exchange.specs.Accepting.{stage};
ghost use Rattle.spec_exchange.specs.Asked as spec;
ghost use Rattle.spec_exchange.specs.Stages.{is_first};
ghost use Rattle.http_message.specs.Reading.{kind_view, message_view};
ghost use Rattle.receiving_sepp.specs.Groups.{first_asked};
ghost use Rattle.receiving_sepp.specs.Refusing.{told};
ghost use Rattle.receiving_sepp.specs.Views.{mapped_view};

use crate::faults::CheckFault;
use crate::refused::Refused;
use context_store::Store;
use http_message::{Kind, Message};
use n32_values::{Hex64, Text};
use policy_tables::{Policy, mapping_for};
use std::alloc::Global;

// A request goes by its own head, a response by what was recorded of the request that it answers.
#[derive(Clone, Copy, Drop)]
pub(crate) enum MappedBy {
    ItsHead,
    ItsRequest(Option<u32>),
}

// Refuses a message that was delivered before.
fn check_first(
    store: &Store,
    node: &Text,
    id: Hex64,
    kind: Kind,
    message: Hex64,
) -> Result<(), CheckFault>
    ensures { Gives told (λ u. u) result (stage (is_first store.now.records node.now id.value (kind_view kind) message.value)) }
{
    match store.delivered(node, id, kind, message) {
        Some(number) => Err(CheckFault::Refused(Refused::Replay(number))),
        None => Ok(()),
    }
}

// What a message was asked for by: a response by a request that the context sent.
#[tactic(auto, unfolding(spec_documents::specs::Chain::chains))]
fn asked_for(
    store: &Store,
    node: &Text,
    id: Hex64,
    kind: Kind,
    message: Hex64,
) -> Result<MappedBy, CheckFault>
    ensures { Gives told mapped_view result (spec.asked_for store.now.records node.now id.value (kind_view kind) message.value) }
{
    match kind {
        Kind::Request => Ok(MappedBy::ItsHead),
        Kind::Response => match store.mapping_sent(node, id, message) {
            Some(mapping) => Ok(MappedBy::ItsRequest(mapping)),
            None => Err(CheckFault::Refused(Refused::Unasked)),
        },
    }
}

/// What a message was asked for by that was not delivered before.
#[tactic(auto, unfolding(spec_documents::specs::Chain::chains))]
pub(crate) fn first_asked(
    store: &Store,
    node: &Text,
    id: Hex64,
    kind: Kind,
    message: Hex64,
) -> Result<MappedBy, CheckFault>
    ensures { Gives told mapped_view result (first_asked store.now.records node.now id.value (kind_view kind) message.value) }
{
    check_first(store, node, id, kind, message)?;
    asked_for(store, node, id, kind, message)
}

/// The mapping by which a message goes, found before any entry.
pub(crate) fn mapping_by(by: MappedBy, policy: &Policy, message: &Message) -> Option<u32>
    ensures { result ≡ spec.mapping_by (mapped_view by) policy.now (message_view message.now) }
{
    match by {
        MappedBy::ItsHead => mapping_for(policy, message),
        MappedBy::ItsRequest(mapping) => mapping,
    }
}
