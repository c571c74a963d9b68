//! Worked examples, by computation.

ghost use Rattle.std.specs.Prelude.{◌≡◌, [], ◌∷◌, Some, None, Err, codes};
ghost use Rattle.spec_documents.specs.Tree.{null, words, items, members, trees, object};
ghost use Rattle.spec_messages.specs.Rows.{block_three};
ghost use Rattle.spec_sealing.specs.Suites.{A128Gcm, A256Gcm};
ghost use Rattle.spec_sealing.specs.Header.{header_text};
ghost use Rattle.spec_sealing.specs.Plaintext.{plaintext};
ghost use Rattle.spec_sealing.specs.Received.{entries_in, if_has_meta, received};

/// The header of each suite.
pub fn header_rows()
    ensures short { header_text A128Gcm ≡ codes "eyJhbGciOiJkaXIiLCJlbmMiOiJBMTI4R0NNIn0" }
    ensures long { header_text A256Gcm ≡ codes "eyJhbGciOiJkaXIiLCJlbmMiOiJBMjU2R0NNIn0" }
{}

/// What is sealed is an object with the list of the values.
pub fn plaintext_rows()
    ensures some { plaintext (words (codes "imsi-001010000000001") ∷ []) ≡ codes "{\"dataToEncrypt\":[\"imsi-001010000000001\"]}" }
    ensures none { plaintext [] ≡ codes "{\"dataToEncrypt\":[]}" }
{}

/// The first member that has not its form is named.
pub fn form_rows()
    ensures document { received (words []) ≡ Err (codes "document") }
    ensures absent { received (members (object [])) ≡ Err (codes "reformattedData") }
    ensures text { received (members (object ((codes "reformattedData", words []) ∷ []))) ≡ Err (codes "reformattedData") }
    ensures jwe { received (members (object ((codes "reformattedData", members (object [])) ∷ (codes "modificationsBlock", words []) ∷ []))) ≡ Err (codes "protected") }
    ensures three { entries_in (Some (items (trees (null ∷ null ∷ null ∷ [])))) ≡ None }
    ensures two { entries_in (Some (items (trees (null ∷ null ∷ [])))) ≡ Some (null ∷ null ∷ []) }
    ensures no_list { entries_in (Some (words [])) ≡ None }
    ensures null_list { entries_in (Some null) ≡ Some [] }
    ensures metadata { if_has_meta block_three ≡ Some block_three }
    ensures no_metadata { if_has_meta (members (object [])) ≡ None }
{}
