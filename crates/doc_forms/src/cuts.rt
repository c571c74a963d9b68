// Texts cut at an ASCII character.
ghost use Rattle.std.specs.Prelude.{◌≡◌, ◌<◌, [], ◌∷◌, length, IfSome};
ghost use Rattle.std.specs.Option.{option_copied, option_map_or};
ghost use Rattle.spec_documents.specs.Text as spec;

/// What stands before the first `at`, and what stands after it, if there is one.
pub fn cut(text: &str, at: char) -> (&str, Option<&str>)
    requires { at < 128 }
    ensures before { result.0.now ≡ (spec.cut_at at text.now).0 }
    ensures after { option_copied result.1 ≡ (spec.cut_at at text.now).1 }
    ensures pieces { spec.pieces at text.now ≡ result.0.now ∷ option_map_or (λ rest. spec.pieces at rest.now) result.1 [] }
    ensures shorter { IfSome result.1 (λ rest. length rest.now < length text.now) }
{
    match text.split_once(at) {
        Some((before, after)) => (before, Some(after)),
        None => (text, None),
    }
}
