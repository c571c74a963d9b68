//! Worked examples, by computation.

ghost use Rattle.std.specs.Prelude.{◌≡◌, true, false, [], ◌∷◌, codes};
ghost use Rattle.prins_document.specs.Route.{route, in_route};

/// The route of a document has the authorized intermediary first, where the peer has announced it, and then
/// the own ones. Entries come in its order, and may leave some out.
pub fn route_rows()
    ensures both { route (codes "a") (codes "b" ∷ codes "a" ∷ []) (codes "c" ∷ []) ≡ codes "a" ∷ codes "c" ∷ [] }
    ensures unknown { route (codes "null") (codes "a" ∷ []) (codes "c" ∷ codes "d" ∷ []) ≡ codes "c" ∷ codes "d" ∷ [] }
    ensures none { in_route [] [] ≡ true }
    ensures skipped { in_route (codes "c" ∷ []) (codes "a" ∷ codes "c" ∷ []) ≡ true }
    ensures turned { in_route (codes "c" ∷ codes "a" ∷ []) (codes "a" ∷ codes "c" ∷ []) ≡ false }
    ensures twice { in_route (codes "a" ∷ codes "a" ∷ []) (codes "a" ∷ codes "c" ∷ []) ≡ false }
{}
