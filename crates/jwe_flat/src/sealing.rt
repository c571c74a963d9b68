//! Sealing a block and values.

ghost use Rattle.std.specs.Prelude.{◌≡◌, IfOk};
ghost use Rattle.spec_sealing.specs.Jwe.{sealed};
ghost use Rattle.jwe_flat.specs.View.{content_key_view, jwe_view};

use crate::header::header_text;
use crate::jwe::{FlatJwe, before_aad};
use crate::key::ContentKey;
use gcm_mode::seal_in_place;
use n32_values::{Bytes, NoMemory, base64url_text};
use std::alloc::Global;

/// Seals values under a key and a nonce, which must never come twice with one key: the values are the
/// plaintext, and the block stands in clear and is authenticated (RFC 7516, section 5.1).
pub fn seal_jwe(
    alloc: Global,
    key: &ContentKey,
    iv: [u8; 12],
    block: &[u8],
    values: &[u8],
) -> Result<FlatJwe, NoMemory>
    ensures { IfOk result (λ w. jwe_view w ≡ sealed (content_key_view key.now) iv block.now values.now) }
{
    let protected = header_text(alloc, key.suite())?;
    let aad = base64url_text(alloc, block)?;
    let head = before_aad(alloc, protected.as_str())?;
    let mut buffer = Bytes::from_slice(alloc, values)?.into_vec();
    let tag = seal_in_place(
        key,
        &iv,
        head.as_str().as_bytes(),
        aad.as_str().as_bytes(),
        buffer.as_mut_slice(),
    );
    Ok(FlatJwe {
        protected,
        aad,
        iv,
        ciphertext: Bytes::from_vec(buffer),
        tag,
    })
}
