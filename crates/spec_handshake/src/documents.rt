//! The documents of a handshake, and how policies differ.

ghost use Rattle.std.specs.Prelude.{◌≡◌, ◌≤◌, ℕ, take, slice_get, option_map, Ok, Some, None};
ghost use Rattle.spec_documents.specs.Tree.{Tree, depth};
ghost use Rattle.spec_messages.specs.Policy.{Policy};
ghost use Rattle.spec_messages.specs.PolicyDocument.{mapping_tree, ReadsBack};
ghost use Rattle.spec_handshake.specs.Documents.{Document, document_of, document_tree};
ghost use Rattle.spec_handshake.specs.Differences.{AtMapping, InTypes, difference};
ghost use Rattle.spec_handshake.specs.Forms.{IsFormed, IsNamed};

/// The tree of a document nests a few levels deep, and is read to this document.
pub fn written_document_is_read()
    ensures shallow { (d : Document) → depth (document_tree d) ≤ 8 }
    ensures read { (d : Document) → IsFormed d → document_of (document_tree d) ≡ Ok d }
{}

/// The names in a document that was read are in their grammar.
pub fn what_is_read_is_named()
    ensures { (t : Tree) (d : Document) → document_of t ≡ Ok d → IsNamed d }
{}

/// Policies have no difference exactly where they are equal. Else the first mapping that differs is told, as both sides
/// print it, and the types where no mapping differs.
pub fn first_difference_is_told()
    ensures equal { (own other : Policy) → ReadsBack own → ReadsBack other → difference own other ≡ None → own ≡ other }
    ensures none { (p : Policy) → difference p p ≡ None }
    ensures mapping { (own other : Policy) (k : ℕ) → ReadsBack own → ReadsBack other → take k own.mappings ≡ take k other.mappings → (slice_get own.mappings k ≡ slice_get other.mappings k → ⊥) →
        difference own other ≡ Some (AtMapping k (option_map mapping_tree (slice_get own.mappings k)) (option_map mapping_tree (slice_get other.mappings k))) }
    ensures types { (own other : Policy) → own.mappings ≡ other.mappings → (own.sorts ≡ other.sorts → ⊥) → difference own other ≡ Some InTypes }
{}
