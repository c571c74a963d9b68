//! Worked examples of entries, by computation.

ghost use Rattle.std.specs.Prelude.{◌≡◌, [], ◌∷◌, false, Some, None, Err, codes};
ghost use Rattle.spec_documents.specs.Tree.{null, truth, words, items, members, trees, no_items, object};
ghost use Rattle.spec_sealing.specs.Jws.{Hs256, Es256, algorithm_in, jws_in, signed_header, signing_input};
ghost use Rattle.spec_sealing.specs.Hmac.{hmac};
ghost use Rattle.spec_sealing.specs.Entries.{entry_of, entry_payload, operations_in};

/// The texts that are signed: a header (RFC 7515, appendix A.1 has one with `typ` beside `alg`) and a
/// payload, with a full stop between.
#[tactic(auto, unfolding(base64::specs::Rfc4648::encode_symbols, json::specs::Print::escape_byte))]
pub fn signed_rows()
    ensures header { signed_header Hs256 ≡ codes "eyJhbGciOiJIUzI1NiJ9" }
    ensures other_header { signed_header Es256 ≡ codes "eyJhbGciOiJFUzI1NiJ9" }
    ensures payload { entry_payload (codes "a") (items no_items) (codes "t") ≡ codes "eyJpZGVudGl0eSI6ImEiLCJvcGVyYXRpb25zIjpbXSwidGFnIjoidCJ9" }
    ensures input { signing_input (codes "h") (codes "p") ≡ codes "h.p" }
{}

/// The algorithms that a header may name.
pub fn algorithm_rows()
    ensures hmac { algorithm_in (object ((codes "alg", words (codes "HS256")) ∷ (codes "typ", words (codes "JWT")) ∷ [])) ≡ Some Hs256 }
    ensures curve { algorithm_in (object ((codes "alg", words (codes "ES256")) ∷ [])) ≡ Some Es256 }
    ensures unsigned { algorithm_in (object ((codes "alg", words (codes "none")) ∷ [])) ≡ None }
    ensures absent { algorithm_in (object []) ≡ None }
    ensures critical { algorithm_in (object ((codes "alg", words (codes "HS256")) ∷ (codes "crit", items no_items) ∷ [])) ≡ None }
{}

/// Operations that change nothing, and what has not the form of any.
pub fn operations_rows()
    ensures absent { operations_in None ≡ Some None }
    ensures none { operations_in (Some null) ≡ Some None }
    ensures empty { operations_in (Some (items no_items)) ≡ Some None }
    ensures other { operations_in (Some (truth false)) ≡ None }
    ensures no_operation { operations_in (Some (items (trees (null ∷ [])))) ≡ None }
{}

/// The first member that has not its form is named.
#[tactic(auto, unfolding(spec_documents::specs::Chain::chains, base64::specs::Rfc4648::encode_symbols))]
pub fn entry_rows()
    ensures document { jws_in (items no_items) ≡ Err (codes "entry") }
    ensures first { jws_in (members (object [])) ≡ Err (codes "protected") }
    ensures second { entry_of (codes "?") ≡ Err (codes "payload") }
{}

/// HMAC with SHA-256: test case 2 of RFC 4231 (section 4.3).
pub fn hmac_rows()
    ensures { hmac (codes "Jefe") (codes "what do ya want for nothing?") ≡ 0x5B ∷ 0xDC ∷ 0xC1 ∷ 0x46 ∷ 0xBF ∷ 0x60 ∷ 0x75 ∷ 0x4E ∷ 0x6A ∷ 0x04 ∷ 0x24 ∷ 0x26 ∷ 0x08 ∷ 0x95 ∷ 0x75 ∷ 0xC7 ∷ 0x5A ∷ 0x00 ∷ 0x3F ∷ 0x08 ∷ 0x9D ∷ 0x27 ∷ 0x39 ∷ 0x83 ∷ 0x9D ∷ 0xEC ∷ 0x58 ∷ 0xB9 ∷ 0x64 ∷ 0xEC ∷ 0x38 ∷ 0x43 ∷ [] }
{}
