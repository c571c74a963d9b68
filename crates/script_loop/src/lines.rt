ghost use Rattle.std.specs.Prelude.{◌≡◌, ◌∷◌, ◌++◌, IfSome, IfNone};
ghost use Rattle.spec_documents.specs.Lines.{is_blank};
ghost use Rattle.script_loop.specs.Progress.{IsPlain};

use memchr::memchr;

/// The byte that ends a line.
pub const NEWLINE: u8 = b'\n';

/// The bytes before the first newline, and those behind it.
pub fn split_line(bytes: &[u8]) -> Option<(&[u8], &[u8])>
    ensures found { IfSome result (λ parts. bytes.now ≡ parts.0.now ++ 10 ∷ parts.1.now) }
    ensures plain { IfSome result (λ parts. IsPlain parts.0.now) }
    ensures none { IfNone result (IsPlain bytes.now) }
{
    let end = memchr(NEWLINE, bytes)?;
    Some((&bytes[..end], &bytes[end + 1..]))
}

/// Whether a line has nothing but spaces, tabs and carriage returns.
pub fn is_blank_line(line: &[u8]) -> bool
    ensures { result ≡ is_blank line.now }
{
    line.iter()
        .all(|byte| matches!(*byte, b' ' | b'\t' | b'\r'))
}
