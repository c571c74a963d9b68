ghost use Rattle.std.specs.Prelude.{◌≡◌, IfOk, option_map};
ghost use Rattle.spec_documents.specs.Ids.{id_of, id_text};

use crate::memory::NoMemory;
use crate::text::Text;
use hex::FromHex;
use std::alloc::Global;

/// An id of 64 bits, whose text is 16 hexadecimal digits. Ids are compared by value.
#[derive(Clone, Copy, Debug, PartialEq, Eq, Drop)]
pub struct Hex64 {
    pub value: u64,
}

/// The id that a text of 16 hexadecimal digits is, in either case. It is `None` exactly for every other text.
pub fn read_hex64(text: &str) -> Option<Hex64>
    ensures { option_map (λ id. id.value) result ≡ id_of text.now }
{
    match <[u8; 8] as FromHex>::from_hex(text) {
        Ok(bytes) => Some(Hex64 {
            value: u64::from_be_bytes(bytes),
        }),
        Err(_) => None,
    }
}

/// The text of an id: 16 hexadecimal digits in lower case.
pub fn hex64_text(alloc: Global, id: Hex64) -> Result<Text, NoMemory>
    ensures { IfOk result (λ t. t ≡ id_text id.value) }
{
    let digits = hex::encode(alloc, id.value.to_be_bytes())?;
    Ok(Text::from_string(digits))
}
