//! Laws of the script of `exercise N`, and of what a summary counts.

ghost use Rattle.std.specs.Prelude.{◌≡◌, ◌≤◌, ◌+◌, ◌*◌, ℕ, List, length, false, is_some};
ghost use Rattle.spec_documents.specs.Tree.{Members, members, get_member, depth};
ghost use Rattle.spec_documents.specs.Document.{IsDocument};
ghost use Rattle.spec_documents.specs.Compact.{compact_text};
ghost use Rattle.spec_documents.specs.Lines.{is_blank};
ghost use Rattle.spec_exercise.specs.Script.{Line};
ghost use Rattle.spec_exercise.specs.Documents.{line_text, lines};
ghost use Rattle.spec_exercise.specs.Summary.{answer_has};

/// No line of a script is blank, and there are at most four lines a turn, and six before them.
pub fn each_line_speaks()
    ensures spoken { (line : Line) → is_blank (line_text line) ≡ false }
    ensures few { (n : ℕ) → length (lines n) ≤ 6 + 4 * n }
{}

/// The compact text of an object that nests at most 127 deep has the members that the object has.
pub fn answers_have_their_members()
    ensures { (name : List ℕ) (ms : Members) → IsDocument (members ms) → depth (members ms) ≤ 127 → answer_has name (compact_text (members ms)) ≡ is_some (get_member name ms) }
{}
