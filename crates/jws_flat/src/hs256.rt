//! A signer and verifier by HMAC.

ghost use Rattle.std.specs.Prelude.{◌≡◌, IfOk};
ghost use Rattle.spec_sealing.specs.Hmac as spec;
ghost use Rattle.jws_flat.specs.View.{root_of};

use crate::hmac::hmac_sha256;
use n32_outside::{JwsAlg, OutFault, Signer, Verifier};
use n32_values::{Bytes, NoMemory, Text};
use sha2::{Digest, Sha256};
use std::alloc::Global;

/// Signs and verifies by HMAC with SHA-256 (RFC 7518, section 3.2), with a key for each identity: what
/// the bytes of its root, followed by the identity, hash to. It never fails.
#[derive(Drop)]
pub struct Hs256 {
    root: Bytes,
}

impl Hs256 {
    /// One of this root, which is copied.
    ///
    /// # Errors
    /// `NoMemory` where memory was refused.
    pub fn new(alloc: Global, root: &[u8]) -> Result<Hs256, NoMemory>
        ensures { IfOk result (λ s. root_of s ≡ root.now) }
    {
        Ok(Hs256 {
            root: Bytes::from_slice(alloc, root)?,
        })
    }

    // The key of an identity.
    fn key(&self, identity: &Text) -> [u8; 32]
        ensures { result ≡ spec.identity_key (root_of self.now) identity.now }
    {
        let mut hasher = Sha256::new();
        hasher.update(self.root.as_slice());
        hasher.update(identity.as_str());
        hasher.finalize()
    }

    // The signature for an identity of an input.
    fn signature(&self, identity: &Text, input: &[u8]) -> [u8; 32]
        ensures { result ≡ spec.hs256 (root_of self.now) identity.now input.now }
    {
        hmac_sha256(&self.key(identity), input)
    }
}

impl Signer for Hs256 {
    ghost use Rattle.std.specs.Prelude.{Some};
    ghost use Rattle.spec_sealing.specs.Hmac.{hs256};
    ghost use Rattle.n32_outside.specs.declared.algorithm.JwsAlg.TheVariants as algorithms;
    ghost use Rattle.jws_flat.specs.View.{root_of};

    ghost algorithm = { λ _. algorithms.Hs256 };

    ghost meaning = { λ s. Some (λ alg identity input. hs256 (root_of s) identity input) };

    ghost faults = { λ _. 0 };

    fn alg(&self) -> JwsAlg {
        JwsAlg::Hs256
    }

    fn sign(&mut self, alloc: Global, identity: &Text, input: &[u8]) -> Result<Bytes, OutFault> {
        Ok(Bytes::from_slice(alloc, &self.signature(identity, input))?)
    }
}

impl Verifier for Hs256 {
    ghost use Rattle.std.specs.Prelude.{Some};
    ghost use Rattle.spec_sealing.specs.Hmac.{hs256_verifies};
    ghost use Rattle.jws_flat.specs.View.{alg_view, root_of};

    ghost meaning = { λ s. Some (λ alg identity input signature. hs256_verifies (root_of s) (alg_view alg) identity input signature) };

    ghost faults = { λ _. 0 };

    fn verify(
        &mut self,
        _alloc: Global,
        alg: JwsAlg,
        identity: &Text,
        input: &[u8],
        signature: &[u8],
    ) -> Result<bool, OutFault> {
        match alg {
            JwsAlg::Hs256 => Ok(signature == self.signature(identity, input).as_slice()),
            JwsAlg::Es256 => Ok(false),
        }
    }
}
