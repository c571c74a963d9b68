ghost use Rattle.std.specs.Prelude.{◌≡◌, ◌++◌, ◌∷◌, OnOk, IfOk, string_bytes};
ghost use Rattle.std.specs.Char.{encode_utf8};
ghost use Rattle.spec_documents.specs.Place.{escaped, pointer_text as text_of_pointer};

use crate::Pointer;
use n32_values::{NoMemory, Text};
use std::alloc::Global;

/// The text of a pointer (RFC 6901, section 3): before each token a `/`, with `~` as `~0` and `/` as `~1`.
pub fn pointer_text(alloc: Global, pointer: &Pointer) -> Result<Text, NoMemory>
    ensures { IfOk result (λ t. t ≡ text_of_pointer pointer.now) }
{
    let mut out = String::new(alloc);
    for i in 0..pointer.len() {
        push_token(&mut out, pointer.token(i).as_str())?;
    }
    Ok(Text::from_string(out))
}

fn push_token(out: &mut String, token: &str) -> Result<(), NoMemory>
    ensures { OnOk result (string_bytes out.new ≡ string_bytes out.old ++ 47 ∷ escaped token.now) }
{
    out.push_str("/")?;
    for c in token.chars() {
        push_escaped(out, c)?;
    }
    Ok(())
}

fn push_escaped(out: &mut String, c: char) -> Result<(), NoMemory>
    ensures { OnOk result (string_bytes out.new ≡ string_bytes out.old ++ escaped (encode_utf8 c)) }
{
    if c == '~' {
        out.push_str("~0")?;
    } else if c == '/' {
        out.push_str("~1")?;
    } else {
        out.push(c)?;
    }
    Ok(())
}
