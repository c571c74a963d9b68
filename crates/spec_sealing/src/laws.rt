//! Laws: what was sealed opens, and what is written is read.

ghost use Rattle.std.specs.Prelude.{◌≡◌, ◌≤◌, ℕ, List, [], Some, None, Ok};
ghost use Rattle.base64.specs.GeneralPurpose.{IsBytes};
ghost use Rattle.spec_documents.specs.Tree.{Tree, items, trees, depth};
ghost use Rattle.spec_documents.specs.Document.{IsDocument};
ghost use Rattle.spec_sealing.specs.Gcm.{SealedOpens};
ghost use Rattle.spec_sealing.specs.Suites.{ContentKey};
ghost use Rattle.spec_sealing.specs.Jwe.{Jwe, jwe_in, jwe_members, misfit, opened, sealed};
ghost use Rattle.spec_sealing.specs.Forms.{HasParts, HasTexts};
ghost use Rattle.spec_sealing.specs.Plaintext.{plaintext, values_of};
ghost use Rattle.spec_sealing.specs.Received.{block_in, carrier, parts_of, received};

/// What was sealed with GCM opens with the same key, nonce and additional data. The tag is equal, and the
/// plaintext comes back.
pub fn sealed_opens()
    ensures { SealedOpens }
{}

/// What was sealed is allowed to the key that sealed it, and opens with it as the values. Its texts are
/// a header's and a block's.
pub fn sealed_jwe_opens()
    ensures allowed { (key : ContentKey) (nonce block values : List ℕ) → misfit key (sealed key nonce block values) ≡ None }
    ensures opens { (key : ContentKey) (nonce block values : List ℕ) → opened key (sealed key nonce block values) ≡ Some values }
    ensures texts { (key : ContentKey) (nonce block values : List ℕ) → IsBytes block → HasTexts (sealed key nonce block values) }
{}

/// The document that is written for a JWE is read to it.
pub fn written_jwe_is_read()
    ensures { (w : Jwe) → HasParts w → HasTexts w → jwe_in (jwe_members w) ≡ Ok w }
{}

/// The document that carries a JWE is received with this JWE, its block and no entries.
pub fn carried_jwe_is_received()
    ensures { (w : Jwe) (block : Tree) → HasParts w → HasTexts w → block_in w.aad ≡ Some block → received (carrier w) ≡ Ok (parts_of w block []) }
{}

/// The values that are written are read, where they nest at most 126 deep with their list.
pub fn written_values_are_read()
    ensures { (vs : List Tree) → IsDocument (items (trees vs)) → depth (items (trees vs)) ≤ 126 → values_of (plaintext vs) ≡ Some vs }
{}
