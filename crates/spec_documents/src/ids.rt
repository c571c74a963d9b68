//! A law of ids.

ghost use Rattle.std.specs.Prelude.{◌≡◌, ◌<◌, ◌^◌, ℕ, Some};
ghost use Rattle.spec_documents.specs.Ids.{id_of, id_text};

/// The text of an id is read to it.
pub fn ids_are_read()
    ensures { (n : ℕ) → n < 2 ^ 64 → id_of (id_text n) ≡ Some n }
{}
