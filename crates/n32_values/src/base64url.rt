ghost use Rattle.std.specs.Prelude.{◌≡◌, IfOk, IfErr, List, ℕ, Some};
ghost use Rattle.base64.specs.Alphabet.{alphabet_symbols};
ghost use Rattle.base64.specs.GeneralPurpose.{IsStrict, encode_of};
ghost use Rattle.spec_documents.specs.Base64url.{base64url, bytes_of};
ghost use Rattle.n32_values.specs.Faults.{NoBytes};

use crate::bytes::Bytes;
use crate::memory::NoMemory;
use crate::text::Text;
use base64::DecodeAllocError;
use base64::alphabet::Alphabet;
use base64::engine::general_purpose::{GeneralPurpose, NO_PAD};
use spec_documents::readings::texts_have_their_bytes;
use std::alloc::Global;
use thiserror::Error;

const SYMBOLS: &str = "ABCDEFGHIJKLMNOPQRSTUVWXYZabcdefghijklmnopqrstuvwxyz0123456789-_";

/// Why a text gives no bytes.
#[derive(Clone, Copy, Debug, PartialEq, Eq, Drop, Error)]
pub enum B64Fault {
    /// It is the base64url text of no bytes.
    #[error("no base64url text without padding")]
    NotText,
    #[error("out of memory")]
    NoMemory,
}

/// The base64url text of bytes (RFC 4648 section 5), without padding.
pub fn base64url_text(alloc: Global, bytes: &[u8]) -> Result<Text, NoMemory>
    ensures { IfOk result (λ t. t ≡ base64url bytes.now) }
{
    let text = engine().encode(alloc, bytes)?;
    Ok(Text::from_string(text))
}

/// The bytes whose base64url text (RFC 4648 section 5) a text is. Padding, another length and bits left over are `NotText`.
pub fn read_base64url(alloc: Global, text: &str) -> Result<Bytes, B64Fault>
    ensures ok { IfOk result (λ b. bytes_of text.now ≡ Some b) }
    ensures none { IfErr result (λ why. NoBytes why (bytes_of text.now)) }
{
    texts_have_their_bytes();
    match engine().decode(alloc, text.as_bytes()) {
        Ok(bytes) => Ok(Bytes::from_vec(bytes)),
        Err(DecodeAllocError::DecodeError(_)) => Err(B64Fault::NotText),
        Err(DecodeAllocError::OutOfMemory) => Err(B64Fault::NoMemory),
    }
}

// The encoding under this alphabet, that reads what it writes and nothing else.
fn engine() -> GeneralPurpose
    ensures strict { IsStrict result }
    ensures text { (bytes : List ℕ) → encode_of result bytes ≡ base64url bytes }
{
    let alphabet = Alphabet::new(SYMBOLS).unwrap();
    GeneralPurpose::new(&alphabet, NO_PAD)
}
