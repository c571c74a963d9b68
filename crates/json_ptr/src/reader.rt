ghost use Rattle.std.specs.Prelude.{◌≡◌, ◌+◌, ◌<◌, ◌^◌, ◌++◌, ◌⊎◌, [], ℕ, List, Ok, OnOk, MatchResult, MatchOption, length, string_bytes, if◌then◌else◌};
ghost use Rattle.std.specs.Char.{encode_utf8};
ghost use Rattle.spec_documents.specs.Place.{read_pointer as pointer_of, tokens_after};
ghost use Rattle.json_ptr.specs.Reading.{left_of, Tells};

use crate::Pointer;
use n32_values::{NoMemory, Text, TextList};
use std::alloc::{AllocError, Global};
use std::mem;

/// Why a text gives no pointer.
#[derive(Clone, Copy, Debug, PartialEq, Eq, Drop)]
pub enum PointerRead {
    /// The byte place of its first fault: 0 where a text doesn't begin with `/`, else the place of the first `~` that neither `0` nor `1` follows.
    Fault(usize),
    NoMemory,
}

impl From<NoMemory> for PointerRead {
    ghost use Rattle.json_ptr.specs.declared.reader.PointerRead.TheVariants.{NoMemory as read_memory};
    ghost use Rattle.std.specs.Prelude.{◌≡◌};

    ghost from_gives = { λ _ e. e ≡ read_memory };

    fn from(_refused: NoMemory) -> PointerRead {
        PointerRead::NoMemory
    }
}

impl From<AllocError> for PointerRead {
    ghost use Rattle.json_ptr.specs.declared.reader.PointerRead.TheVariants.{NoMemory as read_memory};
    ghost use Rattle.std.specs.Prelude.{◌≡◌};

    ghost from_gives = { λ _ e. e ≡ read_memory };

    fn from(_refused: AllocError) -> PointerRead {
        PointerRead::NoMemory
    }
}

/// The pointer that a text is (RFC 6901, sections 3 and 4). The empty text is the pointer without tokens.
pub fn read_pointer(alloc: Global, text: &str) -> Result<Pointer, PointerRead>
    ensures { MatchResult result
        (λ p. pointer_of text.now ≡ Ok p)
        (λ e. Tells e (pointer_of text.now)) }
{
    if text.is_empty() {
        return Ok(Pointer::new(alloc));
    }
    let _fits = text.len();
    let Some(rest) = text.strip_prefix('/') else {
        return Err(PointerRead::Fault(0));
    };
    read_tokens(alloc, rest)
}

// What is read of a pointer's text behind its first `/`: tokens, bytes of the next one, the byte place, and whether a `~` waits there.
#[derive(Drop)]
struct Reader {
    done: TextList,
    part: String,
    place: usize,
    tilde: bool,
}

fn read_tokens(alloc: Global, rest: &str) -> Result<Pointer, PointerRead>
    requires { length rest.now + 1 < 2 ^ 64 }
    ensures { MatchResult result
        (λ p. tokens_after 1 [] rest.now ≡ Ok p)
        (λ e. Tells e (tokens_after 1 [] rest.now)) }
{
    let mut reader = Reader {
        done: TextList::new(alloc),
        part: String::new(alloc),
        place: 1,
        tilde: false,
    };
    for c in rest.chars() {
        take_char(alloc, &mut reader, c)?;
    }
    if reader.tilde {
        return Err(PointerRead::Fault(reader.place));
    }
    let Reader {
        mut done,
        part,
        place: _,
        tilde: _,
    } = reader;
    done.push(Text::from_string(part))?;
    Ok(Pointer::from_tokens(done))
}

fn take_char(alloc: Global, reader: &mut Reader, c: char) -> Result<(), PointerRead>
    requires { reader.old.place + (if reader.old.tilde then 1 else 0) + length (encode_utf8 c) < 2 ^ 64 }
    ensures steps { MatchResult result
        (λ _. (rest : List ℕ) → left_of reader.old.done (string_bytes reader.old.part) reader.old.place reader.old.tilde (encode_utf8 c ++ rest)
        ≡ left_of reader.new.done (string_bytes reader.new.part) reader.new.place reader.new.tilde rest)
        (λ e. (rest : List ℕ) → Tells e (left_of reader.old.done (string_bytes reader.old.part) reader.old.place reader.old.tilde (encode_utf8 c ++ rest))) }
    ensures place { OnOk result
        (reader.new.place + (if reader.new.tilde then 1 else 0) ≡ reader.old.place + (if reader.old.tilde then 1 else 0) + length (encode_utf8 c)) }
{
    if reader.tilde {
        let Some(meant) = meant_by(c) else {
            return Err(PointerRead::Fault(reader.place));
        };
        reader.part.push(meant)?;
        reader.place += 2;
        reader.tilde = false;
        Ok(())
    } else if c == '~' {
        reader.tilde = true;
        Ok(())
    } else if c == '/' {
        let part = mem::replace(&mut reader.part, String::new(alloc));
        reader.done.push(Text::from_string(part))?;
        reader.place += 1;
        Ok(())
    } else {
        reader.part.push(c)?;
        reader.place += c.len_utf8();
        Ok(())
    }
}

// What a character behind `~` means.
fn meant_by(c: char) -> Option<char>
    ensures { MatchOption result
        ((c ≡ 48 → ⊥) × (c ≡ 49 → ⊥))
        (λ d. ((c ≡ 48) × (d ≡ 126)) ⊎ ((c ≡ 49) × (d ≡ 47))) }
{
    if c == '0' {
        Some('~')
    } else if c == '1' {
        Some('/')
    } else {
        None
    }
}
