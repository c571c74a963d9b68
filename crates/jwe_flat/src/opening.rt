//! Opening a JWE.

ghost use Rattle.spec_documents.specs.Gives.{Gives};
ghost use Rattle.spec_sealing.specs.Jwe.{opens};
ghost use Rattle.jwe_flat.specs.View.{content_key_view, jwe_view, shut_told};

use crate::header::header_fault;
use crate::jwe::{FlatJwe, before_aad};
use crate::key::ContentKey;
use gcm_mode::open_in_place;
use n32_values::{Bytes, NoMemory};
use std::alloc::Global;

/// By which member of its header a JWE isn't opened (RFC 7516, section 4.1), in the order in which they
/// are asked. Other members of a header are ignored.
#[derive(Clone, Copy, Debug, PartialEq, Eq, Drop)]
pub enum CipherWhy {
    /// `alg` isn't `dir`, or the text is no header.
    Alg,
    /// `enc` isn't the name of the key's suite.
    Enc,
    /// `zip` is there.
    Zip,
    /// `crit` is there.
    Crit,
}

/// Why a JWE isn't opened.
#[derive(Clone, Copy, Debug, PartialEq, Eq, Drop)]
pub enum JweOpen {
    /// Its header isn't of this profile or of the key's suite.
    Cipher(CipherWhy),
    /// Its tag isn't the one that recomputes.
    Integrity,
    /// Memory was refused.
    NoMemory,
}

impl From<NoMemory> for JweOpen {
    ghost use Rattle.std.specs.Prelude.{◌≡◌};
    ghost use Rattle.jwe_flat.specs.declared.opening.JweOpen.TheVariants.{NoMemory as refused_memory};

    ghost from_gives = { λ _ e. e ≡ refused_memory };

    fn from(_refused: NoMemory) -> JweOpen {
        JweOpen::NoMemory
    }
}

/// Opens a JWE with a key (RFC 7516, section 5.2). What is authenticated is the protected text as
/// received, a full stop, and the `aad` text as received.
///
/// `Cipher` comes exactly where the header has a fault, and names the first in the order of
/// `CipherWhy`. `Integrity` comes exactly where it has none and the tag is another one.
#[tactic(auto, unfolding(spec_documents::specs::Chain::chains))]
pub fn open_jwe(alloc: Global, jwe: &FlatJwe, key: &ContentKey) -> Result<Bytes, JweOpen>
    ensures { Gives shut_told (λ plain. plain) result (opens (content_key_view key.now) (jwe_view jwe.now)) }
{
    if let Some(why) = header_fault(alloc, jwe.protected.as_str(), key.suite())? {
        return Err(JweOpen::Cipher(why));
    }
    let head = before_aad(alloc, jwe.protected.as_str())?;
    let mut buffer = jwe.ciphertext.copy(alloc)?.into_vec();
    let is_whole = open_in_place(
        key,
        &jwe.iv,
        head.as_str().as_bytes(),
        jwe.aad.as_str().as_bytes(),
        buffer.as_mut_slice(),
        &jwe.tag,
    );
    if is_whole {
        Ok(Bytes::from_vec(buffer))
    } else {
        Err(JweOpen::Integrity)
    }
}
