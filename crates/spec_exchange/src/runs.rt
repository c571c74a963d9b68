//! Laws over runs of calls whatever keeper, verifier and screen do in each.

ghost use Rattle.std.specs.Prelude.{◌≡◌, ◌≤◌, ◌+◌, ℕ, List, length, map, true, count_by, Some, Err, slice_get};
ghost use Rattle.spec_messages.specs.Message.{Kind, Message};
ghost use Rattle.spec_records.specs.Records.{Record, record_limit, own, was_delivered, was_sent, delivered_at};
ghost use Rattle.spec_exchange.specs.Screens.{Passes};
ghost use Rattle.spec_exchange.specs.Runs.{Event, replies, delivers, numbers};
ghost use Rattle.spec_exchange.specs.Isolation.{unnumbered_reply, own_events, own_replies, is_id, received_id, unnumbered_result};
ghost use Rattle.spec_documents.specs.Tree.{Tree};
ghost use Rattle.spec_sealing.specs.Received.{received};
ghost use Rattle.spec_exchange.specs.EntryChecks.{Verifying};
ghost use Rattle.spec_exchange.specs.Accepting.{first_failed};
ghost use Rattle.spec_exchange.specs.AcceptRefusals.{Receiving};
ghost use Rattle.spec_exchange.specs.ReceivingRefusals.{NoRoom};
ghost use Rattle.spec_exchange.specs.SendingRefusals.{Beyond};
ghost use Rattle.spec_messages.specs.Limits.{many_records};
ghost use Rattle.spec_exchange.specs.Calls.{Outgoing, protected};

/// Of each message, a request or a response, at most one event delivers it, and none where it was delivered
/// before the run.
pub fn delivered_at_most_once()
    ensures once { (passes : Passes) (records : List Record) (events : List Event) (node : List ℕ) (id : ℕ) (kind : Kind) (message : ℕ) → count_by (delivers node id kind message) (replies passes records events) ≤ 1 }
    ensures held { (passes : Passes) (records : List Record) (events : List Event) (node : List ℕ) (id : ℕ) (kind : Kind) (message : ℕ) → was_delivered node id kind message records ≡ true → count_by (delivers node id kind message) (replies passes records events) ≡ 0 }
{}

/// Of each sequence number of a kind at most one document is answered, and none where the number was sent
/// before the run.
pub fn numbered_once()
    ensures once { (passes : Passes) (records : List Record) (events : List Event) (node : List ℕ) (id : ℕ) (kind : Kind) (seq : ℕ) → count_by (numbers node id kind seq) (replies passes records events) ≤ 1 }
    ensures held { (passes : Passes) (records : List Record) (events : List Event) (node : List ℕ) (id : ℕ) (kind : Kind) (seq : ℕ) → was_sent node id kind seq records ≡ true → count_by (numbers node id kind seq) (replies passes records events) ≡ 0 }
{}

/// A context is told what it would be told if no other context were there, but for the number of a replayed
/// message's record, while the limit of records is not met.
pub fn contexts_apart()
    ensures { (passes : Passes) (node : List ℕ) (id : ℕ) (records : List Record) (events : List Event) → length records + length events ≤ record_limit → map unnumbered_reply (own_replies passes node id records events) ≡ map unnumbered_reply (replies passes (own node id records) (own_events node id events)) }
{}

/// A document and a message to send are answered by the records of their context alone, but for the number of a
/// replayed message's record, unless the answer over all records is that their limit is met.
pub fn own_records_decide()
    ensures document { (passes : Passes) (v : Verifying) (records : List Record) (node : List ℕ) (id : ℕ) (t : Tree) → is_id (received_id (received t)) id ≡ true → (first_failed passes v records node t ≡ Err (Receiving NoRoom) → ⊥) → unnumbered_result (first_failed passes v records node t) ≡ unnumbered_result (first_failed passes v (own node id records) node t) }
    ensures message { (records : List Record) (node : List ℕ) (id : ℕ) (o : Outgoing) (m : Message) → (protected records node id o m ≡ Err (Beyond many_records) → ⊥) → protected records node id o m ≡ protected (own node id records) node id o m }
{}

/// The number with which a replay is refused is that of one record, among all and among the context's own.
pub fn replays_name_one_record()
    ensures { (node : List ℕ) (id : ℕ) (kind : Kind) (message k l : ℕ) (records : List Record) → delivered_at node id kind message records ≡ Some k → delivered_at node id kind message (own node id records) ≡ Some l → slice_get records k ≡ slice_get (own node id records) l }
{}
