//! Laws of requests and responses that are sealed and not touched.

ghost use Rattle.std.specs.Prelude.{◌≡◌, ◌≤◌, ℕ, List, Option, Some, None, Ok, IsTrue, true};
ghost use Rattle.spec_messages.specs.Message.{Message, kind_of, is_whole, body_depth};
ghost use Rattle.spec_messages.specs.Block.{is_ordered_body};
ghost use Rattle.spec_records.specs.Records.{KeySet, Context, Record, open_context, keys};
ghost use Rattle.spec_exchange.specs.Calls.{Outgoing, Sealed, kind_of_outgoing, protected};
ghost use Rattle.spec_exchange.specs.Untouched.{HasNames, Shipment, shipment, document_of, IsSendable, AnswersId, AreValues, IsReady, delivery_of};
ghost use Rattle.spec_exchange.specs.Screens.{Passes};
ghost use Rattle.spec_exchange.specs.EntryChecks.{Verifying};
ghost use Rattle.spec_exchange.specs.Accepting.{first_failed};
ghost use Rattle.spec_messages.specs.Policy.{Policy};
ghost use Rattle.spec_messages.specs.Split.{cleared};
ghost use Rattle.spec_exchange.specs.Rebuilding.{in_clear};

use spec_messages::blocks::{block_has_one_message, fault_decides, sent_block_is_block};
use spec_messages::fill_after_split;
use spec_messages::plain::sent_block_is_shallow;
use spec_messages::rebuilt::fill_fault_decides;

/// What a policy makes secret is sent in clear nowhere.
pub fn cleared_message_hides_secrets()
    ensures { (pol : Policy) (k : Option ℕ) (m : Message) → is_ordered_body m.body ≡ true → in_clear pol k (cleared pol k m) m ≡ None }
{}

/// A message that was sealed and that nobody touched is delivered as it was, where the receiver is ready.
pub fn sealed_message_is_delivered()
    ensures { (passes : Passes) (v : Verifying) (s : Shipment) (node : List ℕ) (records : List Record) → IsSendable s → HasNames s.context → AreValues s → IsReady passes s node records → first_failed passes v records node (document_of s) ≡ Ok (delivery_of s node) }
{
    sent_block_is_block();
    fault_decides();
    block_has_one_message();
    fill_after_split();
    fill_fault_decides();
    sent_block_is_shallow();
}

/// A document that was answered to a request or a response at one node is delivered as this message at
/// another that is ready.
pub fn answered_message_is_delivered()
    ensures { (passes : Passes) (v : Verifying) (there here : List Record) (node peer : List ℕ) (id : ℕ) (o : Outgoing) (m : Message) (s : Sealed) (x : Context) (k : KeySet) → IsTrue (is_whole m) → IsTrue (is_ordered_body m.body) → body_depth m.body ≤ 64 → kind_of m ≡ kind_of_outgoing o → AnswersId o → protected there node id o m ≡ Ok s → open_context node id there ≡ Some x → keys node id there ≡ Some k → HasNames x → AreValues (shipment x k o m s) → IsReady passes (shipment x k o m s) peer here → first_failed passes v here peer s.document ≡ Ok (delivery_of (shipment x k o m s) peer) }
{
    sealed_message_is_delivered();
}
