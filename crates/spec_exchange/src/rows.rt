//! Worked examples, by computation.

ghost use Rattle.std.specs.Prelude.{◌≡◌, ◌≤◌, ℕ, List, [], ◌∷◌, length, Some, None, Ok, Err, codes};
ghost use Rattle.spec_documents.specs.Tree.{Tree, null, words, items, members, trees, object};
ghost use Rattle.spec_documents.specs.Compact.{compact_text};
ghost use Rattle.spec_messages.specs.Message.{of_request};
ghost use Rattle.spec_messages.specs.Policy.{path_var, body_at, values};
ghost use Rattle.spec_messages.specs.Block.{block_tree};
ghost use Rattle.spec_messages.specs.Split.{cleared};
ghost use Rattle.spec_messages.specs.Fault.{bad_member};
ghost use Rattle.spec_messages.specs.Rebuilt.{not_text};
ghost use Rattle.spec_messages.specs.Rows.{message_three, policy_one};
ghost use Rattle.spec_records.specs.Records.{Record, record_limit};
ghost use Rattle.spec_documents.specs.Base64url.{base64url};
ghost use Rattle.spec_sealing.specs.Header.{Misfit};
ghost use Rattle.spec_sealing.specs.Jwe.{Jwe, misfit, opened};
ghost use Rattle.spec_sealing.specs.Plaintext.{values_of};
ghost use Rattle.spec_exchange.specs.Rebuilding.{no_values, no_block, no_fill, in_clear};
ghost use Rattle.spec_records.specs.Keys.{nonce};
ghost use Rattle.spec_exchange.specs.ReceivingRefusals.{Form, NoContext, NoReceiveKeys, Cipher, Integrity, Replay, Reconstruction, InClear, NoRoom};
ghost use Rattle.spec_exchange.specs.SendingRefusals.{ContextNotFound, NoKeys, SeqSpent, NoRequest, Answered};
ghost use Rattle.spec_exchange.specs.Calls.{Asks, Replies, protected, sent_block_of};
ghost use Rattle.spec_exchange.specs.Rows.{slices_policy, slices_request, one_key, context_a, opened_both, keyed_both, after_request, after_reply, after_delivery, all_pass, none_passes, always, key_b, told_by, told_at_b, hidden_block, clear_block, OpensTo, AwaitsThird};
ghost use Rattle.spec_exchange.specs.AcceptRows.{told_at_a, asked_a, answered_a};
ghost use Rattle.spec_exchange.specs.Accepting.{first_failed};
ghost use Rattle.spec_exchange.specs.AcceptRefusals.{Receiving, Unasked, OfEntry, Screened};
ghost use Rattle.spec_exchange.specs.EntryRefusals.{BadForm};
ghost use Rattle.spec_exchange.specs.EntryChecks.{Signed};

/// The nonce is the salt and the number, and the block says what it is and what is hidden.
pub fn sealing_rows()
    ensures first { base64url (nonce one_key 0) ≡ codes "AAECAwQFBgcAAAAA" }
    ensures last { base64url (nonce one_key 4294967295) ≡ codes "AAECAwQFBgf_____" }
    ensures block { compact_text (block_tree (sent_block_of context_a (Some 0) 0 slices_request)) ≡ codes "{\"headers\":[{\"header\":\"accept\",\"value\":\"application/json\"}],\"metaData\":{\"authorizedIpxId\":\"ipx-a\",\"messageId\":\"0000000000000000\",\"n32fContextId\":\"00000000000000b1\"},\"requestLine\":{\"authority\":\"udm.example\",\"method\":\"GET\",\"path\":\"/nudm-sdm/v2/{encBlockIndex=0}/nssai\",\"protocolVersion\":\"HTTP/2\",\"scheme\":\"https\"}}" }
    ensures values { values slices_policy (Some 0) slices_request ≡ words (codes "imsi-001010000000001") ∷ [] }
{}

/// What should have been sealed and stands in clear is told by the address of the first.
pub fn clear_rows()
    ensures segment { in_clear slices_policy (Some 0) slices_request slices_request ≡ Some (path_var (codes "supi")) }
    ensures body { in_clear policy_one (Some 0) message_three message_three ≡ Some (body_at (codes "resynchronizationInfo" ∷ codes "auts" ∷ [])) }
    ensures hidden { in_clear policy_one (Some 0) (cleared policy_one (Some 0) message_three) message_three ≡ None }
{}

/// The first member that has not its form is told.
pub fn form_rows()
    ensures { first_failed all_pass (always Signed) [] (codes "B") (words []) ≡ Err (Receiving (Form (codes "document"))) }
{}

/// A message isn't sent without a context, keys, a number, or the request that it answers.
pub fn sending_rows()
    ensures context { protected opened_both (codes "C") 161 Asks slices_request ≡ Err ContextNotFound }
    ensures keys { protected opened_both (codes "A") 161 Asks slices_request ≡ Err NoKeys }
    ensures spent { protected after_request (codes "A") 161 Asks slices_request ≡ Err SeqSpent }
    ensures request { protected after_reply (codes "B") 177 (Replies 9) slices_request ≡ Err NoRequest }
    ensures answered { protected after_reply (codes "B") 177 (Replies 3) slices_request ≡ Err Answered }
{}

/// The first check that fails is told, also where the next one would fail.
pub fn receiving_rows()
    // the form, before the context
    ensures form { first_failed all_pass (always Signed) [] (codes "B") (members (object ((codes "modificationsBlock", items (trees (null ∷ []))) ∷ []))) ≡ Err (Receiving (Form (codes "reformattedData"))) }
    // the context, before its keys
    ensures context { (w : Jwe) → told_at_b [] w null ≡ Err (Receiving NoContext) }
    // the keys, before the header
    ensures no_keys { (w : Jwe) → told_at_b opened_both w null ≡ Err (Receiving NoReceiveKeys) }
    // the header, before the tag
    ensures header { (w : Jwe) (why : Misfit) → misfit key_b w ≡ Some why → opened key_b w ≡ None → told_at_b (keyed_both 0) w null ≡ Err (Receiving (Cipher why)) }
    // the tag, before an earlier delivery
    ensures tag { (w : Jwe) → misfit key_b w ≡ None → opened key_b w ≡ None → told_at_b after_delivery w null ≡ Err (Receiving Integrity) }
    // an earlier delivery, before the values
    ensures again { (w : Jwe) (plain : List ℕ) → OpensTo w plain → values_of plain ≡ None → told_at_b after_delivery w null ≡ Err (Receiving (Replay 4)) }
    // the values, before the block
    ensures values { (w : Jwe) (plain : List ℕ) → OpensTo w plain → values_of plain ≡ None → told_at_b (keyed_both 0) w null ≡ Err (Receiving (Reconstruction no_values)) }
    // the block, before its fill
    ensures block { (w : Jwe) (plain : List ℕ) → OpensTo w plain → values_of plain ≡ Some (null ∷ []) → told_at_b (keyed_both 0) w null ≡ Err (Receiving (Reconstruction (no_block (bad_member (codes "metaData"))))) }
    ensures fill { (w : Jwe) (plain : List ℕ) → OpensTo w plain → values_of plain ≡ Some (null ∷ []) → told_at_b (keyed_both 0) w hidden_block ≡ Err (Receiving (Reconstruction (no_fill (not_text 0)))) }
    // what stands in clear, before the entries
    ensures clear { (w : Jwe) (plain : List ℕ) → OpensTo w plain → values_of plain ≡ Some [] → told_by all_pass (keyed_both 0) w clear_block (null ∷ []) ≡ Err (Receiving (InClear (path_var (codes "supi")))) }
    // the entries, before the screen
    ensures entry { (w : Jwe) (plain : List ℕ) → OpensTo w plain → values_of plain ≡ Some (words (codes "imsi-001010000000001") ∷ []) → told_by none_passes (keyed_both 0) w hidden_block (null ∷ []) ≡ Err (OfEntry 1 (BadForm (codes "entry"))) }
    // the screen, before the room for the record
    ensures screen { (records : List Record) (w : Jwe) (plain : List ℕ) → AwaitsThird records → record_limit ≤ length records → OpensTo w plain → values_of plain ≡ Some (words (codes "imsi-001010000000001") ∷ []) → told_by none_passes records w hidden_block [] ≡ Err Screened }
    ensures room { (records : List Record) (w : Jwe) (plain : List ℕ) → AwaitsThird records → record_limit ≤ length records → OpensTo w plain → values_of plain ≡ Some (words (codes "imsi-001010000000001") ∷ []) → told_at_b records w hidden_block ≡ Err (Receiving NoRoom) }
    ensures delivered { (w : Jwe) (plain : List ℕ) → OpensTo w plain → values_of plain ≡ Some (words (codes "imsi-001010000000001") ∷ []) → told_at_b (keyed_both 0) w hidden_block ≡ Ok (record { content = slices_request; node = codes "B"; id = 177; kind = of_request; message = 3; mapping = Some 0 }) }
{}

/// Of a response: an earlier delivery, before the request that it answers, and that before the values.
pub fn answering_rows()
    ensures again { (w : Jwe) (plain : List ℕ) → OpensTo w plain → told_at_a answered_a w null ≡ Err (Receiving (Replay 4)) }
    ensures unasked { (w : Jwe) (plain : List ℕ) → OpensTo w plain → values_of plain ≡ None → told_at_a (keyed_both 0) w null ≡ Err Unasked }
    ensures values { (w : Jwe) (plain : List ℕ) → OpensTo w plain → values_of plain ≡ None → told_at_a asked_a w null ≡ Err (Receiving (Reconstruction no_values)) }
{}
