//! The records of contexts, and their documents.

ghost use Rattle.std.specs.Prelude.{◌≡◌, ◌≤◌, ℕ, List, [], ◌∷◌, ◌++◌, true, false, Some, is_some, Ok, IsTrue};
ghost use Rattle.spec_documents.specs.Tree.{depth};
ghost use Rattle.spec_messages.specs.Message.{Kind};
ghost use Rattle.spec_records.specs.Records.{Record, Context, KeySet, is_of, own, used, opening, open_context, keys, keys_fit, mapping_sent, mapping_delivered, answered, was_delivered, was_sent, delivered_at, next_seq};
ghost use Rattle.spec_records.specs.RecordDocument.{record_of, record_tree, is_well_named, HasRange};

/// The document of a record nests a few levels deep, and is read to this record where its names are in their grammar.
pub fn written_record_is_read()
    ensures shallow { (r : Record) → depth (record_tree r) ≤ 7 }
    ensures read { (r : Record) → IsTrue (is_well_named r) → HasRange r → record_of (record_tree r) ≡ Ok r }
{}

/// What is used stays used.
pub fn used_stays()
    ensures { (node : List ℕ) (id : ℕ) (first more : List Record) → used node id first ≡ true → used node id (first ++ more) ≡ true }
{}

/// The first opening of a context stays its first.
pub fn opening_stays()
    ensures { (node : List ℕ) (id : ℕ) (first more : List Record) (x : Context) → opening node id first ≡ Some x → opening node id (first ++ more) ≡ Some x }
{}

/// The keys of an open context fit its suite.
pub fn keys_fit_suite()
    ensures { (node : List ℕ) (id : ℕ) (records : List Record) (x : Context) (k : KeySet) → open_context node id records ≡ Some x → keys node id records ≡ Some k → IsTrue (keys_fit x.suite k) }
{}

/// The next sequence number of a kind was never sent.
pub fn next_number_is_new()
    ensures { (node : List ℕ) (id : ℕ) (kind : Kind) (seq : ℕ) (records : List Record) → next_seq node id kind records ≡ Some seq → was_sent node id kind seq records ≡ false }
{}

/// A message has the number of a record exactly where it was delivered.
pub fn delivery_has_number()
    ensures { (node : List ℕ) (id : ℕ) (kind : Kind) (message : ℕ) (records : List Record) → is_some (delivered_at node id kind message records) ≡ was_delivered node id kind message records }
{}

/// A record of another context leaves the records of this one as they were, and with them every answer.
pub fn others_change_nothing()
    ensures own { (node : List ℕ) (id : ℕ) (records : List Record) (r : Record) → is_of node id r ≡ false → own node id (records ++ r ∷ []) ≡ own node id records }
    ensures used { (node : List ℕ) (id : ℕ) (records : List Record) (r : Record) → is_of node id r ≡ false → used node id (records ++ r ∷ []) ≡ used node id records }
    ensures is_open { (node : List ℕ) (id : ℕ) (records : List Record) (r : Record) → is_of node id r ≡ false → open_context node id (records ++ r ∷ []) ≡ open_context node id records }
    ensures keys { (node : List ℕ) (id : ℕ) (records : List Record) (r : Record) → is_of node id r ≡ false → keys node id (records ++ r ∷ []) ≡ keys node id records }
    ensures delivered { (node : List ℕ) (id : ℕ) (kind : Kind) (message : ℕ) (records : List Record) (r : Record) → is_of node id r ≡ false → delivered_at node id kind message (records ++ r ∷ []) ≡ delivered_at node id kind message records }
    ensures sent { (node : List ℕ) (id : ℕ) (message : ℕ) (records : List Record) (r : Record) → is_of node id r ≡ false → mapping_sent node id message (records ++ r ∷ []) ≡ mapping_sent node id message records }
    ensures mapping { (node : List ℕ) (id : ℕ) (message : ℕ) (records : List Record) (r : Record) → is_of node id r ≡ false → mapping_delivered node id message (records ++ r ∷ []) ≡ mapping_delivered node id message records }
    ensures answered { (node : List ℕ) (id : ℕ) (message : ℕ) (records : List Record) (r : Record) → is_of node id r ≡ false → answered node id message (records ++ r ∷ []) ≡ answered node id message records }
    ensures next { (node : List ℕ) (id : ℕ) (kind : Kind) (records : List Record) (r : Record) → is_of node id r ≡ false → next_seq node id kind (records ++ r ∷ []) ≡ next_seq node id kind records }
{}
