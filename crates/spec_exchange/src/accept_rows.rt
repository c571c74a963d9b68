//! Worked examples of the stages that entries, responses and screens have, by computation.

ghost use Rattle.std.specs.Prelude.{◌≡◌, [], ◌∷◌, true, false, Some, None, Ok, Err, codes};
ghost use Rattle.spec_documents.specs.Tree.{Tree, null};
ghost use Rattle.spec_messages.specs.Message.{clear, response, of_request, of_response};
ghost use Rattle.spec_messages.specs.Entry.{hole_moved, not_modifiable};
ghost use Rattle.spec_messages.specs.Policy.{body_at};
ghost use Rattle.spec_messages.specs.Rows.{message_three};
ghost use Rattle.spec_exchange.specs.Rows.{slices_request, keyed_both, always};
ghost use Rattle.spec_sealing.specs.Entries.{entry_in};
ghost use Rattle.spec_exchange.specs.Telling.{bare, detailed};
ghost use Rattle.spec_exchange.specs.Route.{route, in_route};
ghost use Rattle.spec_exchange.specs.Screens.{origin_passes, method_passes};
ghost use Rattle.spec_exchange.specs.Asked.{ItsHead, ItsRequest, asked_for};
ghost use Rattle.spec_exchange.specs.EntryRefusals.{BadForm, OffRoute, VerifierFailed, BadSignature, OtherTag, NotAllowed};
ghost use Rattle.spec_exchange.specs.EntryChecks.{Signed, NotSigned, Fails, entry_applied};
ghost use Rattle.spec_exchange.specs.AcceptRefusals.{Unasked, OfEntry, Screened, telling};
ghost use Rattle.spec_exchange.specs.AcceptRows.{terms, signed_by, untouched, passed_on_by, asked_a};

/// The route of a document has the authorized intermediary first, where the peer has announced it, and then
/// the own ones. Entries come in its order, and may leave some out.
pub fn way_rows()
    ensures both { route (codes "a") (codes "b" ∷ codes "a" ∷ []) (codes "c" ∷ []) ≡ codes "a" ∷ codes "c" ∷ [] }
    ensures unknown { route (codes "null") (codes "a" ∷ []) (codes "c" ∷ codes "d" ∷ []) ≡ codes "c" ∷ codes "d" ∷ [] }
    ensures skipped { in_route (codes "c" ∷ []) (codes "a" ∷ codes "c" ∷ []) ≡ true }
    ensures turned { in_route (codes "c" ∷ codes "a" ∷ []) (codes "a" ∷ codes "c" ∷ []) ≡ false }
    ensures twice { in_route (codes "a" ∷ codes "a" ∷ []) (codes "a" ∷ codes "c" ∷ []) ≡ false }
{}

/// A response is asked for by a request of its context and message id, and goes by the mapping recorded of it.
#[tactic(auto, unfolding(spec_documents::specs::Chain::chains))]
pub fn asked_rows()
    ensures request { asked_for (keyed_both 0) (codes "A") 161 of_request 3 ≡ Ok ItsHead }
    ensures asked { asked_for asked_a (codes "A") 161 of_response 3 ≡ Ok (ItsRequest (Some 0)) }
    ensures other_message { asked_for asked_a (codes "A") 161 of_response 4 ≡ Err Unasked }
    ensures other_context { asked_for asked_a (codes "B") 177 of_response 3 ≡ Err Unasked }
{}

/// Of an entry the first check that fails is told, also where the next one would fail.
pub fn entry_order_rows()
    // the form, before the identity
    ensures form { entry_applied (terms (codes "t")) (always Fails) 1 untouched null ≡ Err (BadForm (codes "entry")) }
    // the identity, before the verifier is asked
    ensures identity { (e : Tree) → entry_in e ≡ Ok (signed_by (codes "ipx-c") (codes "t")) → entry_applied (terms (codes "t")) (always Fails) 1 untouched e ≡ Err OffRoute }
    // out of order
    ensures order { (e : Tree) → entry_in e ≡ Ok (signed_by (codes "ipx-a") (codes "t")) → entry_applied (terms (codes "t")) (always Signed) 2 (passed_on_by (codes "ipx-b" ∷ [])) e ≡ Err OffRoute }
    // the verifier, before the tag
    ensures fails { (e : Tree) → entry_in e ≡ Ok (signed_by (codes "ipx-a") (codes "u")) → entry_applied (terms (codes "t")) (always Fails) 1 untouched e ≡ Err VerifierFailed }
    ensures signature { (e : Tree) → entry_in e ≡ Ok (signed_by (codes "ipx-a") (codes "u")) → entry_applied (terms (codes "t")) (always NotSigned) 1 untouched e ≡ Err BadSignature }
    // the tag
    ensures tag { (e : Tree) → entry_in e ≡ Ok (signed_by (codes "ipx-a") (codes "u")) → entry_applied (terms (codes "t")) (always Signed) 1 untouched e ≡ Err OtherTag }
    // an entry without operations changes nothing
    ensures nothing { (e : Tree) → entry_in e ≡ Ok (signed_by (codes "ipx-a") (codes "t")) → entry_applied (terms (codes "t")) (always Signed) 1 untouched e ≡ Ok (passed_on_by (codes "ipx-a" ∷ [])) }
{}

/// Screens of both rules: a message that names no network passes, and so does each response by its method.
pub fn screen_rows()
    ensures unnamed { origin_passes slices_request (codes "00101") ≡ true }
    ensures named { origin_passes (record slices_request { headers = record { name = codes "x-n32-plmn"; value = clear (codes "00101") } ∷ [] }) (codes "00101") ≡ true }
    ensures other { origin_passes (record slices_request { headers = record { name = codes "x-n32-plmn"; value = clear (codes "00102") } ∷ [] }) (codes "00101") ≡ false }
    ensures listed { method_passes (codes "GET" ∷ []) slices_request (codes "00101") ≡ true }
    ensures not_listed { method_passes (codes "GET" ∷ []) message_three (codes "00101") ≡ false }
    ensures response { method_passes [] (record { head = response 201; headers = []; body = None }) (codes "00101") ≡ true }
{}

/// How the refusals are told.
pub fn telling_rows()
    ensures form { telling (OfEntry 1 (BadForm (codes "payload"))) ≡ detailed 28 (codes "MOD_FORM") (codes "1 payload") }
    ensures identity { telling (OfEntry 2 OffRoute) ≡ detailed 29 (codes "MOD_IDENTITY") (codes "2") }
    ensures verifier { telling (OfEntry 1 VerifierFailed) ≡ detailed 35 (codes "VERIFIER") (codes "1") }
    ensures operation { telling (OfEntry 1 (NotAllowed 1 hole_moved)) ≡ detailed 32 (codes "MOD_OPERATION") (codes "1 1 HOLE_MOVED") }
    ensures modifiable { telling (OfEntry 1 (NotAllowed 1 (not_modifiable (body_at [])))) ≡ detailed 32 (codes "MOD_OPERATION") (codes "1 1 NOT_MODIFIABLE body:") }
    ensures unasked { telling Unasked ≡ bare 38 (codes "UNASKED") }
    ensures screen { telling Screened ≡ bare 33 (codes "SCREEN") }
{}
