//! Entries of intermediaries: flattened JWS (RFC 7515, section 7.2.2) whose payload is a JSON object, read,
//! signed and verified, and HMAC with SHA-256 (RFC 2104) to sign and verify them by.
#![tactic(auto)]

mod algorithm;
mod entry;
mod hmac;
mod hs256;
mod jws;
pub mod laws;
mod members;
mod sign;
mod verify;

pub use entry::{Entry, read_entry};
pub use hmac::hmac_sha256;
pub use hs256::Hs256;
pub use jws::{FlatJws, read_jws, signing_input};
pub use members::{EntryMember, JwsRead};
pub use sign::{SignFault, sign_entry};
pub use verify::{VerifyFault, verify_entry};
