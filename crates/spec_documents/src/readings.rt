//! Laws on base64url texts, and on the bytes of documents.

ghost use Rattle.std.specs.Prelude.{◌≡◌, ◌≢◌, ◌≤◌, ℕ, List, Some, None};
ghost use Rattle.base64.specs.GeneralPurpose.{IsBytes};
ghost use Rattle.serde_json.specs.Data.{Data};
ghost use Rattle.spec_documents.specs.Tree.{Tree, depth};
ghost use Rattle.spec_documents.specs.Compact.{compact_text};
ghost use Rattle.spec_documents.specs.Document.{IsDocument};
ghost use Rattle.spec_documents.specs.Base64url.{base64url, bytes_of};
ghost use Rattle.spec_documents.specs.Reading.{HasReading, ReadsTo, HasOtherNumber, document_of};

/// The bytes of a base64url text are those whose text it is, no other text has bytes, and different bytes have different texts.
pub fn texts_have_their_bytes()
    ensures there { (bytes : List ℕ) → IsBytes bytes → bytes_of (base64url bytes) ≡ Some bytes }
    ensures are { (text bytes : List ℕ) → bytes_of text ≡ Some bytes → IsBytes bytes }
    ensures text { (text bytes : List ℕ) → bytes_of text ≡ Some bytes → text ≡ base64url bytes }
    ensures none { (text : List ℕ) → ((bytes : List ℕ) → IsBytes bytes → text ≢ base64url bytes) → bytes_of text ≡ None }
    ensures apart { (a b : List ℕ) → IsBytes a → IsBytes b → base64url a ≡ base64url b → a ≡ b }
{}

/// The document of some bytes is the one that they are read to.
pub fn documents_are_read()
    ensures there { (bytes : List ℕ) (t : Tree) → ReadsTo bytes t → document_of bytes ≡ Some t }
    ensures read { (bytes : List ℕ) (t : Tree) → document_of bytes ≡ Some t → ReadsTo bytes t }
    ensures syntax { (bytes : List ℕ) → ((d : Data) → HasReading bytes d → ⊥) → document_of bytes ≡ None }
    ensures number { (bytes : List ℕ) → HasOtherNumber bytes → document_of bytes ≡ None }
{}

/// The compact text of a document that nests at most 127 deep is read to this document.
pub fn written_documents_are_read()
    ensures { (t : Tree) → IsDocument t → depth t ≤ 127 → document_of (compact_text t) ≡ Some t }
{}
