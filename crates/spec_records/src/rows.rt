//! Worked examples, by computation.

ghost use Rattle.std.specs.Prelude.{◌≡◌, [], ◌∷◌, true, false, Some, None, Err, codes};
ghost use Rattle.spec_documents.specs.Compact.{compact_text};
ghost use Rattle.spec_messages.specs.Message.{of_request, of_response};
ghost use Rattle.spec_records.specs.Records.{Offered, Opened, Closed, used, open_context, keys, next_seq, delivered_at, mapping_sent, mapping_delivered, answered};
ghost use Rattle.spec_records.specs.RecordDocument.{no_record, record_of, record_tree};
ghost use Rattle.spec_records.specs.RecordRows.{opened_twice, busy, context_with, keyed, keys_from, sent, delivered, with_further};

/// The first opening counts, and the keys behind it that fit; a closed context is not open.
pub fn context_rows()
    ensures used { used (codes "B") 161 opened_twice ≡ true }
    ensures unused { used (codes "A") 162 opened_twice ≡ false }
    ensures first { open_context (codes "A") 161 opened_twice ≡ Some (context_with (codes "B")) }
    ensures apart { open_context (codes "B") 161 opened_twice ≡ None }
    ensures shut { open_context (codes "A") 161 (Closed (codes "A") 161 ∷ opened_twice) ≡ None }
    ensures keys { keys (codes "A") 161 opened_twice ≡ Some (keys_from 3) }
    ensures early { keys (codes "A") 161 (keyed 1 ∷ Opened (context_with (codes "B")) ∷ []) ≡ None }
{}

/// Numbers go on from the greatest, deliveries are told apart by kind, and the first counts.
pub fn message_rows()
    ensures after { next_seq (codes "A") 161 of_request busy ≡ Some 10 }
    ensures other { next_seq (codes "A") 161 of_response busy ≡ Some 5 }
    ensures begin { next_seq (codes "A") 161 of_request opened_twice ≡ Some 3 }
    ensures spent { next_seq (codes "A") 161 of_request (sent of_request 4294967295 ∷ busy) ≡ None }
    ensures place { delivered_at (codes "A") 161 of_request 5 busy ≡ Some 6 }
    ensures never { delivered_at (codes "A") 161 of_request 9 busy ≡ None }
    ensures sent { mapping_sent (codes "A") 161 7 busy ≡ Some (Some 7) }
    ensures delivered { mapping_delivered (codes "A") 161 5 busy ≡ Some (Some 2) }
    ensures answered { answered (codes "A") 161 4 busy ≡ true }
    ensures unanswered { answered (codes "A") 161 9 busy ≡ false }
{}

/// A document has the members of its record, and no others.
pub fn document_rows()
    ensures offered { compact_text (record_tree (Offered (codes "A") 161)) ≡ codes "{\"id\":\"00000000000000a1\",\"is\":\"offered\",\"node\":\"A\"}" }
    ensures sent { compact_text (record_tree (sent of_request 7)) ≡ codes "{\"id\":\"00000000000000a1\",\"is\":\"sent\",\"kind\":\"request\",\"mapping\":7,\"message\":\"0000000000000007\",\"node\":\"A\",\"seq\":7}" }
    ensures delivered { compact_text (record_tree (delivered of_response 5 None)) ≡ codes "{\"id\":\"00000000000000a1\",\"is\":\"delivered\",\"kind\":\"response\",\"mapping\":null,\"message\":\"0000000000000005\",\"node\":\"A\"}" }
    ensures further { record_of with_further ≡ Err no_record }
{}
