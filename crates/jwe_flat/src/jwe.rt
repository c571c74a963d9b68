//! A JWE and its additional data.

ghost use Rattle.std.specs.Prelude.{◌≡◌, IfOk, string_bytes};
ghost use Rattle.spec_sealing.specs.Jwe.{before_aad};

use n32_values::{Bytes, NoMemory, Text};
use std::alloc::Global;

/// A JWE whose only header is the protected one, and that encloses no key (RFC 7516, section 7.2.2).
#[derive(Drop)]
pub struct FlatJwe {
    /// The base64url text of the protected header, as received.
    pub protected: Text,
    /// The base64url text of the block, as received.
    pub aad: Text,
    /// The nonce of GCM.
    pub iv: [u8; 12],
    /// The sealed values, of as many bytes as these.
    pub ciphertext: Bytes,
    /// The tag of GCM.
    pub tag: [u8; 16],
}

// The header's text and a full stop, which come before the `aad` text in the additional data.
pub(crate) fn before_aad(alloc: Global, protected: &str) -> Result<String, NoMemory>
    ensures { IfOk result (λ s. string_bytes s ≡ before_aad protected.now) }
{
    let mut head = String::from_str(alloc, protected)?;
    head.push_str(".")?;
    Ok(head)
}
