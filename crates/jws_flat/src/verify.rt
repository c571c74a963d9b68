//! Verifying an entry's signature.

ghost use Rattle.std.specs.Prelude.{◌≡◌, ◌≤◌, IsErrOf};
ghost use Rattle.n32_outside.specs.Causes.{Rose};
ghost use Rattle.spec_sealing.specs.Jws as spec;
ghost use Rattle.jws_flat.specs.Signing.{Judges};

use crate::jws::{FlatJws, signing_input};
use n32_outside::{OutFault, Verifier};
use n32_values::{NoMemory, Text};
use std::alloc::Global;

/// Why a signature isn't verified.
#[derive(Clone, Copy, Debug, PartialEq, Eq, Drop)]
pub enum VerifyFault {
    /// The verifier says that it isn't the identity's.
    Signature,
    /// The verifier failed.
    Verifier,
    /// Memory was refused.
    NoMemory,
}

impl From<NoMemory> for VerifyFault {
    ghost use Rattle.std.specs.Prelude.{◌≡◌};
    ghost use Rattle.jws_flat.specs.declared.verify.VerifyFault.TheVariants.{NoMemory as refused_memory};

    ghost from_gives = { λ _ e. e ≡ refused_memory };

    fn from(_refused: NoMemory) -> VerifyFault {
        VerifyFault::NoMemory
    }
}

/// Asks a verifier whether a JWS is signed by an identity (RFC 7515, section 5.2): its algorithm, the
/// texts as received, and the signature.
///
/// # Errors
/// `Signature` exactly where the verifier's meaning, if it tells one, is false. `Verifier` only where the
/// verifier failed, `NoMemory` where memory was refused.
pub fn verify_entry<V: Verifier>(
    alloc: Global,
    verifier: &mut V,
    jws: &FlatJws,
    identity: &Text,
) -> Result<(), VerifyFault>
    ensures judged { Judges (V.meaning verifier.old) result jws.now.alg identity.now (spec.signing_input jws.now.protected jws.now.payload) jws.now.signature }
    ensures same_meaning { V.meaning verifier.new ≡ V.meaning verifier.old }
    ensures later { V.faults verifier.old ≤ V.faults verifier.new }
    ensures failed { IsErrOf result VerifyFault.Verifier → Rose (V.faults verifier.old) (V.faults verifier.new) }
{
    let input = signing_input(alloc, &jws.protected, &jws.payload)?;
    match verifier.verify(
        alloc,
        jws.alg,
        identity,
        input.as_slice(),
        jws.signature.as_slice(),
    ) {
        Ok(true) => Ok(()),
        Ok(false) => Err(VerifyFault::Signature),
        Err(OutFault::Failed) => Err(VerifyFault::Verifier),
        Err(OutFault::NoMemory) => Err(VerifyFault::NoMemory),
    }
}
