//! A law: what `read_jws` gives has a payload that `read_entry` reads.

ghost use Rattle.std.specs.Prelude.{◌≡◌, ◌≢◌, Ok, Err, codes};
ghost use Rattle.spec_documents.specs.Tree.{Tree};
ghost use Rattle.spec_sealing.specs.Jws.{Jws, jws_in};
ghost use Rattle.spec_sealing.specs.Entries.{entry_of};

/// The payload of a JWS that was read is never what refuses its entry.
pub fn read_payloads_are_objects()
    ensures { (t : Tree) (w : Jws) → jws_in t ≡ Ok w → entry_of w.payload ≢ Err (codes "payload") }
{}
