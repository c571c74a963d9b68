//! Laws of requests and responses that are sealed and not touched.

ghost use Rattle.std.specs.Prelude.{◌≡◌, ◌<◌, ◌≤◌, ◌^◌, IsTrue};
ghost use Rattle.spec_messages.specs.Message.{is_whole, body_depth, kind_of, of_request, of_response};
ghost use Rattle.spec_exchange.specs.Calls.{Outgoing, Asks, Replies, kind_of_outgoing};
ghost use Rattle.spec_exchange.specs.Untouched.{AnswersId};
ghost use Rattle.http_message.specs.Reading.{message_view};
ghost use Rattle.paired_sepps.specs.Untouched.{IsDeliveredUntouched};

use crate::bodies::body_is_document;
use crate::contexts::{context_has_keys, context_is_named};
use context_store::Store;
use http_message::Message;
use n32_values::{Hex64, Text};
use spec_exchange::untouched::answered_message_is_delivered;

fn has_64_bits(id: Hex64)
    ensures { id.value < 2 ^ 64 }
{
    let _value = id.value;
}

// A message that is sealed as a request, or as the response to a request with an id of 64 bits.
fn untouched_message_is_delivered(store: &Store, node: &Text, id: Hex64, message: &Message)
    requires whole { IsTrue (is_whole (message_view message.now)) }
    requires shallow { body_depth (message_view message.now).body ≤ 64 }
    ensures { (o : Outgoing) → kind_of (message_view message.now) ≡ kind_of_outgoing o → AnswersId o → IsDeliveredUntouched store.now.records node.now id.value o (message_view message.now) }
{
    answered_message_is_delivered();
    context_is_named(store, node, id);
    context_has_keys(store, node, id);
    body_is_document(message.body());
}

/// A request that is sealed over the records of a store, and that nobody touches, is delivered as it was by a node that
/// is ready for it: the paired context is open there, with the same suite, policy and key, the request was not delivered
/// before, the screen passes it, and there is room for a record. At the sender it takes no more than `protect` asks.
pub fn untouched_request_is_delivered(store: &Store, node: &Text, id: Hex64, request: &Message)
    requires whole { IsTrue (is_whole (message_view request.now)) }
    requires shallow { body_depth (message_view request.now).body ≤ 64 }
    requires kind { kind_of (message_view request.now) ≡ of_request }
    ensures { IsDeliveredUntouched store.now.records node.now id.value Asks (message_view request.now) }
{
    untouched_message_is_delivered(store, node, id, request);
}

/// The same of a response to the request of a message id, where the receiver sent that request too, and recorded with
/// it the mapping that the sender recorded with its delivery. At the sender it takes no more than `protect_reply` asks.
pub fn untouched_reply_is_delivered(
    store: &Store,
    node: &Text,
    id: Hex64,
    answers: Hex64,
    response: &Message,
)
    requires whole { IsTrue (is_whole (message_view response.now)) }
    requires shallow { body_depth (message_view response.now).body ≤ 64 }
    requires kind { kind_of (message_view response.now) ≡ of_response }
    ensures { IsDeliveredUntouched store.now.records node.now id.value (Replies answers.value) (message_view response.now) }
{
    has_64_bits(answers);
    untouched_message_is_delivered(store, node, id, response);
}
