//! Worked examples, by computation.

ghost use Rattle.std.specs.Prelude.{◌≡◌, ◌≤◌, ◌<◌, pos, negsuc, true, false, nat_lt, List, [], ◌∷◌, length, Some, None, Ok, Err, codes};
ghost use Rattle.spec_documents.specs.Tree.{Tree, null, whole, words, items, trees, depth};
ghost use Rattle.spec_documents.specs.Compact.{compact_text};
ghost use Rattle.spec_documents.specs.Patch.{Op, remove, replace, test, patched};
ghost use Rattle.spec_documents.specs.Hole as hole;
ghost use Rattle.spec_messages.specs.Message.{method, headers, status_line};
ghost use Rattle.spec_messages.specs.Fault as block;
ghost use Rattle.spec_messages.specs.Policy.{body_at};
ghost use Rattle.spec_messages.specs.Limits.{full_wire, long_document, many_records};
ghost use Rattle.spec_sealing.specs.Jws.{Hs256};
ghost use Rattle.spec_sealing.specs.Entries.{SignedEntry, entry_in};
ghost use Rattle.spec_sealing.specs.Received.{Received, received};
ghost use Rattle.spec_sealing.specs.Passing.{with_room, passed};
ghost use Rattle.spec_records.specs.Records.{Record, Keyed, record_limit, used, open_context, keys};
ghost use Rattle.spec_records.specs.RecordRows.{context_with, keys_from, unfit_keys};
ghost use Rattle.spec_exchange.specs.Outside.{Journal, Keeper};
ghost use Rattle.spec_exchange.specs.Rebuilding.{no_block};
ghost use Rattle.spec_exchange.specs.ReceivingRefusals.{Form, Integrity, Replay, Reconstruction, InClear, NoRoom};
ghost use Rattle.spec_exchange.specs.AcceptRefusals.{Receiving, OfEntry, Screened};
ghost use Rattle.spec_exchange.specs.EntryRefusals as entry;
ghost use Rattle.spec_exchange.specs.EntryChecks.{by_meaning};
ghost use Rattle.spec_exchange.specs.Stages.{Delivery};
ghost use Rattle.spec_exchange.specs.Calls.{delivered_record};
ghost use Rattle.spec_exchange.specs.Accepting.{first_failed};
ghost use Rattle.spec_exchange.specs.SendingRefusals as sending;
ghost use Rattle.spec_script.specs.Refusals.{Syntax, BadEvent, NodeUnknown, NodeExists, WireUnknown, Beyond, KeysTwice, ContextNotFound, BadMessage, DeepBody, BadPolicy, ContextUsed, BadForm, BadReport, OfSending, OfReceiving, OfOutside, SignerFailed};
ghost use Rattle.spec_script.specs.Events.{AddNode, AddContext, AddKeys, Send, Pass, Inject, Alter, Deliver, Restart, Reported, event_of, line_event};
ghost use Rattle.spec_script.specs.Altering.{altered};
ghost use Rattle.spec_script.specs.Reports.{report_on};
ghost use Rattle.spec_script.specs.Steps.{Fine, OnWire, Forwards, Delivers, Reports, Refuses, refuses, is_full, step, after};
ghost use Rattle.spec_script.specs.Answers.{answer_text};
ghost use Rattle.spec_script.specs.Output.{is_outside_refusal};
ghost use Rattle.spec_script.specs.Rows.{of_members, named, node_fields, policy_document, context_fields, peer_ipx_field, handed_with, key_digits, keys_fields, patch_row, request_document, nested, report_fields, entry_report_fields, bare_entry_fields, row_report, row_signer, takes_all, fails_first, passes_all, passes_none, well, unsigned, unverified, holding, wired, opened, keyed, lost, untold, bad_record, row_step};

/// Each event is an object that names it; the first member that is missing or has not its form is told.
pub fn event_rows()
    ensures node { event_of (named (codes "node") node_fields) ≡ Ok (AddNode (codes "A") (codes "00101")) }
    ensures fly { event_of (named (codes "fly") node_fields) ≡ Err (codes "do") }
    ensures no_object { event_of (items (trees [])) ≡ Err (codes "do") }
    ensures context { event_of (named (codes "context") (peer_ipx_field ∷ context_fields)) ≡ Ok (AddContext (handed_with policy_document)) }
    ensures no_policy { event_of (named (codes "context") ((codes "policy", null) ∷ peer_ipx_field ∷ context_fields)) ≡ Ok (AddContext (handed_with null)) }
    ensures missing { event_of (named (codes "context") context_fields) ≡ Err (codes "peer_ipx") }
    ensures two_wrong { event_of (named (codes "context") ((codes "own_ipx", null) ∷ (codes "peer", null) ∷ context_fields)) ≡ Err (codes "peer") }
    ensures short_key { event_of (named (codes "keys") ((codes "first", null) ∷ keys_fields (codes "00"))) ≡ Err (codes "send") }
    ensures large_first { event_of (named (codes "keys") ((codes "first", whole (pos 4294967296)) ∷ keys_fields key_digits)) ≡ Err (codes "first") }
    ensures keys { event_of (named (codes "keys") ((codes "first", whole (pos 3)) ∷ keys_fields key_digits)) ≡ Ok (AddKeys (codes "A") 161 (keys_from 3)) }
    ensures from_zero { event_of (named (codes "keys") (keys_fields key_digits)) ≡ Ok (AddKeys (codes "A") 161 (keys_from 0)) }
    ensures below_zero { event_of (named (codes "deliver") ((codes "wire", whole (negsuc 0)) ∷ node_fields)) ≡ Ok (Deliver (codes "A") (negsuc 0)) }
    ensures bad_answers { event_of (named (codes "send") ((codes "id", words (codes "00000000000000a1")) ∷ (codes "message", null) ∷ (codes "answers", null) ∷ node_fields)) ≡ Err (codes "answers") }
    ensures inject { event_of (named (codes "inject") ((codes "document", null) ∷ [])) ≡ Ok (Inject null) }
    ensures restart { event_of (named (codes "restart") node_fields) ≡ Ok (Restart (codes "A")) }
    ensures pass { event_of (named (codes "pass") ((codes "ipx", words (codes "ipx-a")) ∷ (codes "wire", whole (pos 2)) ∷ [])) ≡ Ok (Pass (codes "ipx-a") (pos 2) (items (trees []))) }
    ensures operations { event_of (named (codes "pass") ((codes "ipx", words (codes "ipx-a")) ∷ (codes "wire", whole (pos 2)) ∷ (codes "operations", null) ∷ [])) ≡ Ok (Pass (codes "ipx-a") (pos 2) null) }
    ensures no_ipx { event_of (named (codes "pass") ((codes "ipx", words (codes "null")) ∷ [])) ≡ Err (codes "ipx") }
    ensures alter { event_of (named (codes "alter") ((codes "wire", whole (pos 2)) ∷ (codes "operations", items (trees (patch_row ∷ []))) ∷ [])) ≡ Ok (Alter (pos 2) (remove (codes "none" ∷ []) ∷ [])) }
    ensures no_patch { event_of (named (codes "alter") ((codes "wire", whole (pos 2)) ∷ (codes "operations", patch_row) ∷ [])) ≡ Err (codes "operations") }
    ensures reported { event_of (named (codes "reported") ((codes "document", null) ∷ node_fields)) ≡ Ok (Reported (codes "A") null) }
{}

/// A line is read before it is an event.
pub fn line_rows()
    ensures fly { line_event (codes "{\"do\":\"fly\"}") ≡ Err (BadEvent (codes "do")) }
    ensures restart { line_event (codes "{\"do\":\"restart\",\"node\":\"A\"}") ≡ Ok (Restart (codes "A")) }
    ensures syntax { line_event (codes "{\"do\":\"fly\"") ≡ Err Syntax }
{}

/// Nodes are known once they are added, and documents once they are on the wire.
pub fn node_rows()
    ensures fresh { (row_step (holding []) well (AddNode (codes "C") (codes "00103"))).answer ≡ Fine (codes "node") }
    ensures again { (row_step (holding []) well (AddNode (codes "A") (codes "00109"))).answer ≡ Refuses NodeExists }
    ensures known { (row_step (after (holding []) (row_step (holding []) well (AddNode (codes "C") (codes "00103")))) well (Restart (codes "C"))).answer ≡ Fine (codes "restart") }
    ensures unknown { (row_step (holding []) well (Restart (codes "C"))).answer ≡ Refuses NodeUnknown }
    ensures second { (row_step (holding []) well (Inject null)).answer ≡ OnWire 2 }
    ensures wire { (row_step (holding []) well (Deliver (codes "B") (pos 9))).answer ≡ Refuses WireUnknown }
    ensures node_first { (row_step (holding []) well (Deliver (codes "C") (pos 9))).answer ≡ Refuses NodeUnknown }
    ensures from_one { (row_step (holding []) well (Deliver (codes "B") (pos 0))).answer ≡ Refuses WireUnknown }
    ensures below { (row_step (holding []) well (Deliver (codes "B") (negsuc 0))).answer ≡ Refuses WireUnknown }
    ensures first { (row_step (holding []) well (Deliver (codes "B") (pos 1))).answer ≡ Refuses (OfReceiving (Receiving (Form (codes "document"))) None) }
{}

/// A context is handed in once, and so are its keys; the keeper's faults come before what the records tell.
pub fn context_rows()
    ensures opened { (row_step (holding []) well (AddContext (handed_with policy_document))).answer ≡ Fine (codes "context") }
    ensures used { (row_step (holding opened) well (AddContext (handed_with policy_document))).answer ≡ Refuses ContextUsed }
    ensures policy { (row_step (holding opened) bad_record (AddContext (handed_with null))).answer ≡ Refuses (BadPolicy 0) }
    ensures journal { (row_step (holding opened) bad_record (AddContext (handed_with policy_document))).answer ≡ Refuses (OfOutside (Journal 2)) }
    ensures keys { row_step (holding opened) well (AddKeys (codes "A") 161 (keys_from 3)) ≡ record { answer = Fine (codes "keys"); put = Some (Keyed (codes "A") 161 (keys_from 3)); sent = None; sites = (holding []).sites; starts = [] } }
    ensures twice { (row_step (holding keyed) well (AddKeys (codes "A") 161 (keys_from 3))).answer ≡ Refuses KeysTwice }
    ensures twice_unfit { (row_step (holding keyed) well (AddKeys (codes "A") 161 unfit_keys)).answer ≡ Refuses KeysTwice }
    ensures unfit { (row_step (holding opened) well (AddKeys (codes "A") 161 unfit_keys)).answer ≡ Refuses (BadEvent (codes "key")) }
    ensures none { (row_step (holding opened) well (AddKeys (codes "B") 161 (keys_from 3))).answer ≡ Refuses ContextNotFound }
    ensures untold { row_step (holding opened) untold (AddKeys (codes "A") 161 (keys_from 3)) ≡ record { answer = Refuses (OfOutside Keeper); put = Some (Keyed (codes "A") 161 (keys_from 3)); sent = None; sites = (holding []).sites; starts = [] } }
{}

/// Where no record more may be held, this is told before the keeper is asked, and after what the records tell.
pub fn room_rows()
    ensures new_context { (records : List Record) → used (codes "A") 161 records ≡ false → record_limit ≤ length records → (row_step (holding records) lost (AddContext (handed_with policy_document))).answer ≡ Refuses (Beyond many_records) }
    ensures used_id { (records : List Record) → used (codes "A") 161 records ≡ true → record_limit ≤ length records → (row_step (holding records) lost (AddContext (handed_with policy_document))).answer ≡ Refuses ContextUsed }
    ensures new_keys { (records : List Record) → open_context (codes "A") 161 records ≡ Some (context_with (codes "B")) → keys (codes "A") 161 records ≡ None → record_limit ≤ length records → (row_step (holding records) lost (AddKeys (codes "A") 161 (keys_from 3))).answer ≡ Refuses (Beyond many_records) }
    ensures kept { (records : List Record) → used (codes "A") 161 records ≡ false → length records < record_limit → (row_step (holding records) lost (AddContext (handed_with policy_document))).answer ≡ Refuses (OfOutside Keeper) }
    ensures text { answer_text 9 (Refuses (Beyond many_records)) ≡ codes "{\"detail\":\"records\",\"line\":9,\"name\":\"LIMIT\",\"refused\":7}" }
{}

/// A request answers none, and a response answers one.
pub fn message_rows()
    ensures response { (row_step (holding []) well (Send (codes "A") 161 (named [] ((codes "statusLine", words (codes "201")) ∷ [])) (Some 7))).answer ≡ Refuses (OfSending sending.ContextNotFound) }
    ensures alone { (row_step (holding []) well (Send (codes "A") 161 (named [] ((codes "statusLine", words (codes "201")) ∷ [])) None)).answer ≡ Refuses (BadEvent (codes "answers")) }
    ensures reply { (row_step (holding keyed) well (Send (codes "A") 161 (named [] ((codes "statusLine", words (codes "201")) ∷ [])) (Some 7))).answer ≡ Refuses (OfSending sending.NoRequest) }
    ensures status { (row_step (holding []) well (Send (codes "A") 161 (named [] ((codes "statusLine", null) ∷ [])) None)).answer ≡ Refuses (BadMessage status_line) }
    ensures message { (row_step (holding []) well (Send (codes "A") 161 (request_document ((codes "headers", null) ∷ [])) (Some 7))).answer ≡ Refuses (BadMessage headers) }
    ensures deep { (row_step (holding []) well (Send (codes "A") 161 (request_document ((codes "body", nested 65) ∷ [])) (Some 7))).answer ≡ Refuses DeepBody }
    ensures answers { (row_step (holding []) well (Send (codes "A") 161 (request_document ((codes "body", nested 64) ∷ [])) (Some 7))).answer ≡ Refuses (BadEvent (codes "answers")) }
    ensures context { (row_step (holding []) well (Send (codes "A") 161 (request_document ((codes "body", nested 64) ∷ [])) None)).answer ≡ Refuses (OfSending sending.ContextNotFound) }
{}

/// A document is passed on with an entry more: its form comes first, and then the signer is asked.
pub fn pass_rows()
    ensures unknown { (row_step (wired []) well (Pass (codes "ipx-a") (pos 1) null)).answer ≡ Refuses WireUnknown }
    ensures form { (row_step (wired (null ∷ [])) well (Pass (codes "ipx-a") (pos 1) null)).answer ≡ Refuses (BadForm (codes "document")) }
    ensures form_first { (row_step (wired (null ∷ [])) unsigned (Pass (codes "ipx-a") (pos 1) null)).answer ≡ Refuses (BadForm (codes "document")) }
    ensures passed { (t d : Tree) → is_full (t ∷ []) ≡ false → passed Hs256 (codes "ipx-a") null (row_signer.sign (codes "ipx-a")) t ≡ Ok d → (row_step (wired (t ∷ [])) well (Pass (codes "ipx-a") (pos 1) null)).answer ≡ Forwards d 2 }
    ensures signer { (t : Tree) (parts : Received) → is_full (t ∷ []) ≡ false → with_room t ≡ Ok parts → row_step (wired (t ∷ [])) unsigned (Pass (codes "ipx-a") (pos 1) null) ≡ refuses (wired (t ∷ [])) SignerFailed }
{}

/// Each operation must succeed, and leave a document that is neither too deep nor too long.
pub fn alter_rows()
    ensures unknown { (row_step (wired []) well (Alter (pos 1) [])).answer ≡ Refuses WireUnknown }
    ensures same { (row_step (wired (null ∷ [])) well (Alter (pos 1) [])).answer ≡ Forwards null 2 }
    ensures replaced { (row_step (wired (null ∷ [])) well (Alter (pos 1) (replace [] (words (codes "x")) ∷ []))).answer ≡ Forwards (words (codes "x")) 2 }
    ensures missing { (row_step (wired (null ∷ [])) well (Alter (pos 1) (remove (codes "none" ∷ []) ∷ []))).answer ≡ Refuses (BadEvent (codes "operations")) }
    ensures second { (row_step (wired (null ∷ [])) well (Alter (pos 1) (replace [] (words (codes "x")) ∷ test [] null ∷ []))).answer ≡ Refuses (BadEvent (codes "operations")) }
    ensures deep { (row_step (wired (null ∷ [])) well (Alter (pos 1) (replace [] (nested 127) ∷ []))).answer ≡ Refuses (BadEvent (codes "operations")) }
    ensures less_deep { (row_step (wired (null ∷ [])) well (Alter (pos 1) (replace [] (nested 126) ∷ []))).answer ≡ Forwards (nested 126) 2 }
    ensures long { (op : Op) (t u : Tree) → patched t op ≡ Ok u → nat_lt 126 (depth u) ≡ false → nat_lt 16777216 (length (compact_text u)) ≡ true → altered (op ∷ []) t ≡ Err (Beyond long_document) }
{}

/// A document is accepted under the keeper, the verifier and the screen of its event: one that holds is recorded, a
/// failure of the verifier is told without a report, and a message that the screen doesn't pass with one.
pub fn delivery_rows()
    ensures delivered { (t : Tree) (d : Delivery) → first_failed passes_all (by_meaning takes_all None) [] (codes "B") t ≡ Ok d →
        row_step (wired (t ∷ [])) well (Deliver (codes "B") (pos 1)) ≡ record { answer = Delivers d; put = Some (delivered_record d); sent = None; sites = (wired []).sites; starts = [] } }
    ensures verifier { (t : Tree) → first_failed passes_all fails_first [] (codes "B") t ≡ Err (OfEntry 1 entry.VerifierFailed) →
        row_step (wired (t ∷ [])) unverified (Deliver (codes "B") (pos 1)) ≡ refuses (wired (t ∷ [])) (OfReceiving (OfEntry 1 entry.VerifierFailed) (report_on t (OfEntry 1 entry.VerifierFailed))) }
    ensures screen { (t : Tree) → first_failed passes_none (by_meaning takes_all None) [] (codes "B") t ≡ Err Screened →
        step passes_none (wired (t ∷ [])) well (Deliver (codes "B") (pos 1)) ≡ refuses (wired (t ∷ [])) (OfReceiving Screened (report_on t Screened)) }
    ensures outside { is_outside_refusal (OfReceiving (OfEntry 1 entry.VerifierFailed) None) ≡ true }
    ensures own { is_outside_refusal (OfReceiving (OfEntry 1 entry.BadSignature) None) ≡ false }
    ensures text { answer_text 9 (Refuses (OfReceiving (OfEntry 1 entry.VerifierFailed) None)) ≡ codes "{\"detail\":\"1\",\"line\":9,\"name\":\"VERIFIER\",\"refused\":35}" }
{}

/// Nothing goes on a wire that is full: it holds 134,217,728 bytes or 1,000,000 documents. This is told behind the document's number, and before a document's or a message's form.
pub fn full_rows()
    ensures bytes { is_full (null ∷ []) ≡ false }
    ensures injected { (ts : List Tree) → is_full ts ≡ true → (row_step (wired ts) well (Inject null)).answer ≡ Refuses (Beyond full_wire) }
    ensures passed { (ts : List Tree) → is_full (null ∷ ts) ≡ true → (row_step (wired (null ∷ ts)) well (Pass (codes "ipx-a") (pos 1) null)).answer ≡ Refuses (Beyond full_wire) }
    ensures altered { (ts : List Tree) → is_full (null ∷ ts) ≡ true → (row_step (wired (null ∷ ts)) well (Alter (pos 1) (remove [] ∷ []))).answer ≡ Refuses (Beyond full_wire) }
    ensures sent { (ts : List Tree) → is_full ts ≡ true → (row_step (wired ts) well (Send (codes "A") 161 null None)).answer ≡ Refuses (Beyond full_wire) }
    ensures sender { (ts : List Tree) → is_full ts ≡ true → (row_step (wired ts) well (Send (codes "C") 161 null None)).answer ≡ Refuses NodeUnknown }
    ensures text { answer_text 9 (Refuses (Beyond full_wire)) ≡ codes "{\"detail\":\"wire\",\"line\":9,\"name\":\"LIMIT\",\"refused\":7}" }
{}

/// A report is read, and a refused delivery has the report of the document's ids.
pub fn report_rows()
    ensures reported { (row_step (holding []) well (Reported (codes "A") (of_members report_fields))).answer ≡ Reports (row_report None) }
    ensures none { (row_step (holding []) well (Reported (codes "A") null)).answer ≡ Refuses BadReport }
    ensures node_first { (row_step (holding []) well (Reported (codes "C") null)).answer ≡ Refuses NodeUnknown }
    ensures made { (t : Tree) (parts : Received) → received t ≡ Ok parts → parts.context ≡ 177 → parts.message ≡ 0 → report_on t (Receiving Integrity) ≡ Some (of_members report_fields) }
    ensures room { (t : Tree) (parts : Received) → received t ≡ Ok parts → report_on t (Receiving NoRoom) ≡ None }
    // whose entry is refused, which an entry without a form doesn't tell
    ensures first { (t e f : Tree) (parts : Received) (x : SignedEntry) → received t ≡ Ok parts → parts.context ≡ 177 → parts.message ≡ 0 → parts.entries ≡ e ∷ f ∷ [] → entry_in e ≡ Ok x → x.entry.identity ≡ codes "ipx-a" →
        report_on t (OfEntry 1 entry.OffRoute) ≡ Some (of_members entry_report_fields) }
    ensures second { (t e f : Tree) (parts : Received) (x : SignedEntry) → received t ≡ Ok parts → parts.context ≡ 177 → parts.message ≡ 0 → parts.entries ≡ e ∷ f ∷ [] → entry_in f ≡ Ok x → x.entry.identity ≡ codes "ipx-a" →
        report_on t (OfEntry 2 entry.OtherTag) ≡ Some (of_members entry_report_fields) }
    ensures formless { (t : Tree) (parts : Received) → received t ≡ Ok parts → parts.context ≡ 177 → parts.message ≡ 0 → report_on t (OfEntry 1 (entry.BadForm (codes "entry"))) ≡ Some (of_members bare_entry_fields) }
    ensures verifier { (t : Tree) (parts : Received) → received t ≡ Ok parts → report_on t (OfEntry 1 entry.VerifierFailed) ≡ None }
    ensures text { answer_text 12 (Reports (row_report None)) ≡ codes "{\"context\":\"00000000000000b1\",\"error\":\"INTEGRITY_CHECK_FAILED\",\"line\":12,\"message\":\"0000000000000000\"}" }
    ensures entry { answer_text 12 (Reports (row_report (Some (codes "ipx-a")))) ≡ codes "{\"context\":\"00000000000000b1\",\"entry\":\"ipx-a\",\"error\":\"INTEGRITY_CHECK_FAILED\",\"line\":12,\"message\":\"0000000000000000\"}" }
    ensures refused { answer_text 9 (Refuses (OfReceiving (Receiving Integrity) (Some (of_members report_fields)))) ≡ codes "{\"line\":9,\"name\":\"INTEGRITY\",\"refused\":24,\"report\":{\"n32fContextId\":\"00000000000000b1\",\"n32fErrorType\":\"INTEGRITY_CHECK_FAILED\",\"n32fMessageId\":\"0000000000000000\"}}" }
{}

/// The texts of answers.
pub fn text_rows()
    ensures node { answer_text 1 (Fine (codes "node")) ≡ codes "{\"line\":1,\"ok\":\"node\"}" }
    ensures wire { answer_text 7 (OnWire 2) ≡ codes "{\"line\":7,\"wire\":2}" }
    ensures fly { answer_text 7 (Refuses (BadEvent (codes "do"))) ≡ codes "{\"detail\":\"do\",\"line\":7,\"name\":\"EVENT\",\"refused\":3}" }
    ensures spent { answer_text 8 (Refuses (OfSending sending.SeqSpent)) ≡ codes "{\"line\":8,\"name\":\"SEQ_SPENT\",\"refused\":12}" }
    ensures replay { answer_text 9 (Refuses (OfReceiving (Receiving (Replay 5)) None)) ≡ codes "{\"detail\":\"5\",\"line\":9,\"name\":\"REPLAY\",\"refused\":25}" }
    ensures message { answer_text 10 (Refuses (BadMessage method)) ≡ codes "{\"detail\":\"method\",\"line\":10,\"name\":\"MESSAGE\",\"refused\":13}" }
    ensures overlap { answer_text 11 (Refuses (OfReceiving (Receiving (Reconstruction (no_block (block.overlap 2)))) None)) ≡ codes "{\"detail\":\"OVERLAP 2\",\"line\":11,\"name\":\"RECONSTRUCTION\",\"refused\":26}" }
    ensures bad_hole { answer_text 12 (Refuses (OfReceiving (Receiving (Reconstruction (no_block (block.bad_holes (hole.bad_hole (record { pointer = codes "requestLine" ∷ codes "path" ∷ []; part = Some 3 })))))) None)) ≡ codes "{\"detail\":\"BAD_HOLE /requestLine/path#3\",\"line\":12,\"name\":\"RECONSTRUCTION\",\"refused\":26}" }
    ensures clear { answer_text 13 (Refuses (OfReceiving (Receiving (InClear (body_at (codes "supiOrSuci" ∷ [])))) None)) ≡ codes "{\"detail\":\"body:/supiOrSuci\",\"line\":13,\"name\":\"POLICY\",\"refused\":27}" }
{}
