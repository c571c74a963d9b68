ghost use Rattle.std.specs.Prelude.{◌≡◌, ℕ, List, Bool, Option};
ghost use Rattle.n32_outside.specs.Causes.{HasOutCause};
ghost use Rattle.n32_outside.specs.Meanings.{Signs, Verifies};
ghost use Rattle.n32_outside.specs.declared.algorithm.JwsAlg.{JwsAlg};

use crate::{JwsAlg, OutFault};
use n32_values::{Bytes, Text};
use std::alloc::Global;

/// What signs for an identity (RFC 7515 section 5.1). What is signed is the signing input.
pub trait Signer {
    /// The algorithm that it signs by.
    ghost algorithm: { Self → JwsAlg };

    /// The signature by an algorithm, for an identity, of an input, where the signer tells it.
    ghost meaning: { Self → Option (JwsAlg → List ℕ → List ℕ → List ℕ) };

    /// How often the signer has failed.
    ghost faults: { Self → ℕ };

    /// The algorithm that it signs by, which no call changes.
    fn alg(&self) -> JwsAlg
        ensures alg { result ≡ algorithm self.now };

    /// The signature of the input, for the identity, by the signer's algorithm.
    fn sign(&mut self, alloc: Global, identity: &Text, input: &[u8]) -> Result<Bytes, OutFault>
        ensures signature { Signs (meaning self.old) result (algorithm self.old) identity.now input.now }
        ensures same_meaning { meaning self.new ≡ meaning self.old }
        ensures same_algorithm { algorithm self.new ≡ algorithm self.old }
        ensures cause { HasOutCause (faults self.old) (faults self.new) result };
}

/// What tells whether a signature is an identity's (RFC 7515 section 5.2).
pub trait Verifier {
    /// Whether a signature by an algorithm, for an identity, of an input is true: the last two are the input and the signature.
    /// The verifier may not tell it.
    ghost meaning: { Self → Option (JwsAlg → List ℕ → List ℕ → List ℕ → Bool) };

    /// How often the verifier has failed.
    ghost faults: { Self → ℕ };

    /// Whether the signature by this algorithm, for the identity, of the input is true.
    fn verify(
        &mut self,
        alloc: Global,
        alg: JwsAlg,
        identity: &Text,
        input: &[u8],
        signature: &[u8],
    ) -> Result<bool, OutFault>
        ensures truth { Verifies (meaning self.old) result alg identity.now input.now signature.now }
        ensures same_meaning { meaning self.new ≡ meaning self.old }
        ensures cause { HasOutCause (faults self.old) (faults self.new) result };
}
