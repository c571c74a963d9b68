//! Worked examples, by computation.

ghost use Rattle.std.specs.Prelude.{◌≡◌, pos, true, false, [], ◌∷◌, Ok, codes};
ghost use Rattle.spec_documents.specs.Tree.{null};
ghost use Rattle.spec_records.specs.Records.{A128Gcm, A256Gcm};
ghost use Rattle.spec_exchange.specs.Outside.{Keeper};
ghost use Rattle.spec_handshake.specs.Agreement.{Agrees};
ghost use Rattle.spec_script.specs.Refusals.{WireUnknown, ContextUsed, OfOutside};
ghost use Rattle.spec_script.specs.Events.{AddContext, Alter};
ghost use Rattle.spec_script.specs.Steps.{Fine, Forwards, Refuses};
ghost use Rattle.spec_script.specs.Rows.{handed_with, wired};
ghost use Rattle.spec_agreement.specs.ByHandshakes.{are_handshakes};
ghost use Rattle.spec_agreement.specs.Rows.{begins_at_a, to_a, to_b, whole_handshake, forged_selection, answers_from, state_after, all_said, opened_with};

/// A whole handshake opens both contexts by handshakes alone; so does one by a document that somebody wrote, but not by handshakes
/// alone, and then the sides need not agree.
pub fn run_rows()
    ensures opened { (state_after (wired []) whole_handshake).records ≡ opened_with A256Gcm }
    ensures by_handshakes { are_handshakes [] (all_said whole_handshake) (answers_from (wired []) whole_handshake) ≡ true }
    ensures forged { (state_after (wired []) forged_selection).records ≡ opened_with A128Gcm }
    ensures not_by_handshakes { are_handshakes [] (all_said forged_selection) (answers_from (wired []) forged_selection) ≡ false }
    ensures disagree { Agrees (opened_with A128Gcm) → ⊥ }
{}

/// Which events are of that kind: no context is handed in, and what is answered was made for a handshake.
pub fn event_rows()
    ensures handed_in { are_handshakes [] (Ok (AddContext (handed_with null)) ∷ []) ((1, Fine (codes "context")) ∷ []) ≡ false }
    // one that is refused changes nothing, unless its put failed
    ensures refused { are_handshakes [] (Ok (AddContext (handed_with null)) ∷ []) ((1, Refuses ContextUsed) ∷ []) ≡ true }
    ensures unkept { are_handshakes [] (Ok (AddContext (handed_with null)) ∷ []) ((1, Refuses (OfOutside Keeper)) ∷ []) ≡ false }
    ensures unknown { are_handshakes [] (Ok (to_a 9) ∷ []) ((1, Refuses WireUnknown) ∷ []) ≡ true }
    // a document may come twice, and not one that was altered
    ensures again { are_handshakes [] (Ok begins_at_a ∷ Ok (to_b 1) ∷ Ok (to_b 1) ∷ []) ((1, Forwards null 1) ∷ (2, Forwards null 2) ∷ (3, Forwards null 3) ∷ []) ≡ true }
    ensures altered { are_handshakes [] (Ok begins_at_a ∷ Ok (Alter (pos 1) []) ∷ Ok (to_b 2) ∷ []) ((1, Forwards null 1) ∷ (2, Forwards null 2) ∷ (3, Forwards null 3) ∷ []) ≡ false }
{}
