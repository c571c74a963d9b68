/// The algorithm of a signature (RFC 7518 section 3.1).
#[derive(Clone, Copy, Debug, PartialEq, Eq, Drop)]
pub enum JwsAlg {
    /// HMAC using SHA-256.
    Hs256,
    /// ECDSA using P-256 and SHA-256.
    Es256,
}
