ghost use Rattle.std.specs.Prelude.{◌≡◌, [], ◌∷◌, ◌++◌, ◌<◌, length, slice_get, IfOk, IfSome, OnOk, OnErr, OnSome, Some, string_bytes, IsTrue, ◌↔◌, IsUtf8};
ghost use Rattle.std.specs.Option.{option_copied};
ghost use Rattle.spec_documents.specs.Text.{lower};

use crate::memory::{self, NoMemory};
use arrayvec::ArrayString;
use std::alloc::Global;
use std::marker::Model;
use std::str;

// The most bytes of a text that takes no memory.
const SHORT: usize = 24;

// The bytes of a text: in the value itself, or in memory.
#[derive(Drop)]
enum Chars {
    Short(ArrayString<SHORT>),
    Long(String),
}

/// A text, which contracts see as the list of its bytes in UTF-8. A short one that is copied takes no memory.
pub struct Text {
    inner: Chars,
}

// By hand, so that whoever lets a text go has no cases by how its bytes are kept.
impl Drop for Text {
    fn drop(self) {
        let Text { inner: _ } = self;
    }
}

impl Model for Text {
    ghost use Rattle.std.specs.Prelude.{List, ℕ};
    ghost use Rattle.n32_values.specs.Chars.{chars_bytes};

    ghost Value = { List ℕ };

    ghost view = { λ t. chars_bytes t.inner };
}

// A short text with its ASCII letters in lower case.
fn short_lowered(text: &str) -> Option<ArrayString<SHORT>>
    ensures { IfSome result (λ short. short.bytes ≡ lower text.now) }
{
    if SHORT < text.len() {
        return None;
    }
    let mut room = [0u8; SHORT];
    let bytes = &mut room[..text.len()];
    bytes.copy_from_slice(text.as_bytes());
    bytes.make_ascii_lowercase();
    let Ok(lowered) = str::from_utf8(bytes) else {
        return None;
    };
    match ArrayString::from(lowered) {
        Ok(short) => Some(short),
        Err(_) => None,
    }
}

impl Text {
    /// Copies a text.
    pub fn from_text(alloc: Global, text: &str) -> Result<Text, NoMemory>
        ensures { IfOk result (λ t. t ≡ text.now) }
    {
        if let Ok(short) = ArrayString::from(text) {
            return Ok(Text {
                inner: Chars::Short(short),
            });
        }
        Ok(Text {
            inner: Chars::Long(String::from_str(alloc, text)?),
        })
    }

    /// A text with its ASCII letters in lower case.
    pub fn lowered(alloc: Global, text: &str) -> Result<Text, NoMemory>
        ensures { IfOk result (λ t. t ≡ lower text.now) }
    {
        if let Some(short) = short_lowered(text) {
            return Ok(Text {
                inner: Chars::Short(short),
            });
        }
        Ok(Text {
            inner: Chars::Long(text.to_ascii_lowercase(alloc)?),
        })
    }

    /// Takes a `String` without taking memory.
    pub fn from_string(inner: String) -> Text
        ensures { result ≡ string_bytes inner }
    {
        Text {
            inner: Chars::Long(inner),
        }
    }

    /// The text as a slice.
    pub fn as_str(&self) -> &str
        ensures { result.now ≡ self.now }
    {
        match &self.inner {
            Chars::Short(text) => text.as_str(),
            Chars::Long(text) => text.as_str(),
        }
    }

    /// An equal text.
    pub fn copy(&self, alloc: Global) -> Result<Text, NoMemory>
        ensures { IfOk result (λ t. t ≡ self.now) }
    {
        Text::from_text(alloc, self.as_str())
    }
}
