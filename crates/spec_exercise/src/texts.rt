//! The law of the script's text.

ghost use Rattle.std.specs.Prelude.{◌≡◌, ℕ};
ghost use Rattle.spec_documents.specs.Lines.{lines_of};
ghost use Rattle.spec_exercise.specs.Documents.{lines};
ghost use Rattle.spec_exercise.specs.Texts.{script_text};

/// The lines of the script's text are the lines of the script.
pub fn lines_stand_apart()
    ensures { (n : ℕ) → lines_of (script_text n) ≡ lines n }
{}
