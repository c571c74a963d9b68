//! Worked examples, by computation.

ghost use Rattle.std.specs.Prelude.{◌≡◌, List, [], ◌∷◌, Some, None, Ok, Err, pos, codes};
ghost use Rattle.spec_documents.specs.Tree.{whole, items, item, no_items};
ghost use Rattle.spec_documents.specs.Place.{no_place, bad_index, into_itself, at, read_pointer, pointer_text};
ghost use Rattle.spec_documents.specs.Patch.{add, remove, move, copy, test, patched};
ghost use Rattle.spec_documents.specs.Base64url.{bytes_of};
ghost use Rattle.spec_documents.specs.Examples.{number, list, map_of, one_two};

/// Pointer texts are read and written.
pub fn pointer_rows()
    ensures empty { read_pointer (codes "") ≡ Ok [] }
    ensures one { read_pointer (codes "/") ≡ Ok ([] ∷ []) }
    ensures two { read_pointer (codes "/a~1b/m~0n") ≡ Ok (codes "a/b" ∷ codes "m~n" ∷ []) }
    ensures plain { read_pointer (codes "a") ≡ Err 0 }
    ensures tilde { read_pointer (codes "/a~2") ≡ Err 2 }
    ensures written { pointer_text (codes "a/b" ∷ codes "m~n" ∷ []) ≡ codes "/a~1b/m~0n" }
    ensures first { at (items (item (whole (pos 10)) no_items)) (codes "0" ∷ []) ≡ Ok (whole (pos 10)) }
    ensures past { at (items (item (whole (pos 10)) no_items)) (codes "1" ∷ []) ≡ Err no_place }
    ensures end { at (items (item (whole (pos 10)) no_items)) (codes "-" ∷ []) ≡ Err no_place }
    ensures zero { at (items (item (whole (pos 10)) no_items)) (codes "01" ∷ []) ≡ Err bad_index }
{}

/// Patches of a small document.
pub fn patch_rows()
    ensures insert { patched one_two (add (codes "a" ∷ codes "1" ∷ []) (number 9)) ≡ Ok (map_of ((codes "a", list (number 1 ∷ number 9 ∷ number 2 ∷ [])) ∷ [])) }
    ensures end { patched one_two (add (codes "a" ∷ codes "-" ∷ []) (number 9)) ≡ Ok (map_of ((codes "a", list (number 1 ∷ number 2 ∷ number 9 ∷ [])) ∷ [])) }
    ensures past { patched one_two (remove (codes "a" ∷ codes "2" ∷ [])) ≡ Err no_place }
    ensures into { patched one_two (move (codes "a" ∷ []) (codes "a" ∷ codes "0" ∷ [])) ≡ Err into_itself }
    ensures copied { patched one_two (copy (codes "a" ∷ codes "0" ∷ []) (codes "b" ∷ [])) ≡ Ok (map_of ((codes "a", list (number 1 ∷ number 2 ∷ [])) ∷ (codes "b", number 1) ∷ [])) }
    ensures tested { patched one_two (test (codes "a" ∷ []) (list (number 1 ∷ number 2 ∷ []))) ≡ Ok one_two }
    ensures root { patched one_two (remove []) ≡ Err no_place }
    ensures same { patched one_two (move [] []) ≡ Err no_place }
{}

/// A base64url text has no padding and no bits left over.
pub fn text_rows()
    ensures one { bytes_of (codes "AA") ≡ Some (0 ∷ []) }
    ensures left_over { bytes_of (codes "AB") ≡ None }
    ensures empty { bytes_of [] ≡ Some [] }
    ensures padded { bytes_of (codes "AA==") ≡ None }
    ensures single { bytes_of (codes "A") ≡ None }
    ensures last { bytes_of (codes "_-8") ≡ Some (255 ∷ 239 ∷ []) }
{}
