//! Laws of accepting a document.

ghost use Rattle.std.specs.Prelude.{◌≡◌, ℕ, List, Bool, None, Ok, Err, IsTrue, true, false};
ghost use Rattle.spec_documents.specs.Tree.{Tree, is_ordered};
ghost use Rattle.spec_messages.specs.Message.{Message};
ghost use Rattle.spec_records.specs.Records.{Record};
ghost use Rattle.spec_sealing.specs.Received.{Received, received};
ghost use Rattle.spec_exchange.specs.Chain.{or_refused};
ghost use Rattle.spec_exchange.specs.Stages as plain;
ghost use Rattle.spec_exchange.specs.Stages.{Delivery};
ghost use Rattle.spec_exchange.specs.Screens.{Passes};
ghost use Rattle.spec_exchange.specs.EntryRefusals.{VerifierFailed};
ghost use Rattle.spec_exchange.specs.EntryChecks.{Claim, Fails, Verifying, by_meaning};
ghost use Rattle.spec_exchange.specs.AcceptRefusals.{Receiving, OfEntry};
ghost use Rattle.spec_exchange.specs.Accepting.{first_failed};
ghost use Rattle.spec_exchange.specs.AcceptDelivered.{IsDelivered, Commutes};

use spec_messages::blocks::block_has_one_message;
use spec_messages::commutation::patching_commutes_with_filling;
use spec_messages::outcomes::entry_outcome_decides;
use spec_messages::rebuilt::fill_fault_decides;

/// A document is delivered as its opened message, changed by its entries in order: each has the form, is
/// signed, comes in the route, is bound to the document, and makes changes that are allowed.
pub fn delivered_document_is_opened_and_changed()
    ensures { (passes : Passes) (v : Verifying) (records : List Record) (node : List ℕ) (t : Tree) (y : Delivery) → ((d : Received) → received t ≡ Ok d → IsTrue (is_ordered d.block)) → first_failed passes v records node t ≡ Ok y → IsDelivered passes v records node t y }
{
    block_has_one_message();
    entry_outcome_decides();
    fill_fault_decides();
}

/// Patching commutes with filling for what is delivered: the same operations make of the filled block the
/// filled block of the delivered message, each value stands where it stood, and what no entry could change
/// stays.
pub fn delivered_document_commutes()
    ensures { (passes : Passes) (v : Verifying) (records : List Record) (node : List ℕ) (t : Tree) (y : Delivery) (h : IsDelivered passes v records node t y) → Commutes h }
{
    patching_commutes_with_filling();
}

/// The verifier's failure is answered only at an entry at which the verifier fails. One that tells its meaning
/// and doesn't fail is answered never.
pub fn verifier_failure_is_one()
    ensures fails { (passes : Passes) (v : Verifying) (records : List Record) (node : List ℕ) (t : Tree) (number : ℕ) → first_failed passes v records node t ≡ Err (OfEntry number VerifierFailed) → (claim : Claim) × (v number claim ≡ Fails) }
    ensures meant { (passes : Passes) (meaning : Claim → Bool) (records : List Record) (node : List ℕ) (t : Tree) (number : ℕ) → first_failed passes (by_meaning meaning None) records node t ≡ Err (OfEntry number VerifierFailed) → ⊥ }
{}
