// The two texts of a block's request line that may have holes.
ghost use Rattle.std.specs.Prelude.{◌≡◌, IfOk, IfSome, [], length, ◌≤◌, option_map};
ghost use Rattle.std.specs.Option.{option_copied, option_map_or};
ghost use Rattle.spec_documents.specs.Text.{pieces};
ghost use Rattle.doc_forms.specs.Capped.{capped};
ghost use Rattle.enc_index.specs.Lines.{name_of, separator_of, look_of, pieces_of, pointer_of};

use doc_forms::{cut, text_hole};
use json_ptr::Pointer;
use n32_values::{NoMemory, Text};
use std::alloc::Global;

#[derive(Clone, Copy, Drop)]
pub(crate) enum Line {
    Path,
    Query,
}

impl Line {
    pub(crate) fn name(self) -> &'static str
        ensures { result.now ≡ name_of self }
    {
        match self {
            Line::Path => "path",
            Line::Query => "queryFragment",
        }
    }

    // What stands between two pieces.
    pub(crate) fn separator(self) -> char
        ensures { result ≡ separator_of self }
    {
        match self {
            Line::Path => '/',
            Line::Query => '&',
        }
    }

    // The pieces that are numbered from 0: the segments, each behind its `/`, or the pairs.
    pub(crate) fn pieces(self, text: &str) -> Option<&str>
        ensures value { option_map_or (λ rest. pieces (separator_of self) rest.now) result [] ≡ pieces_of self text.now }
        ensures short { IfSome result (λ rest. length rest.now ≤ length text.now) }
    {
        match self {
            Line::Path => cut(text, '/').1,
            Line::Query => Some(text),
        }
    }

    // The index of the hole that a piece is, or has as its value.
    pub(crate) fn hole(self, piece: &str) -> Option<u32>
        ensures { result ≡ option_map capped (look_of self piece.now) }
    {
        match self {
            Line::Path => text_hole(piece),
            Line::Query => match cut(piece, '=').1 {
                Some(value) => text_hole(value),
                None => None,
            },
        }
    }

    pub(crate) fn pointer(self, alloc: Global) -> Result<Pointer, NoMemory>
        ensures { IfOk result (λ p. p ≡ pointer_of self) }
    {
        let mut pointer = Pointer::new(alloc);
        pointer.push(Text::from_text(alloc, "requestLine")?)?;
        pointer.push(Text::from_text(alloc, self.name())?)?;
        Ok(pointer)
    }
}
