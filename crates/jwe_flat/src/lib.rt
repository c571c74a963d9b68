//! The flattened JWE (RFC 7516, section 7.2.2) with direct encryption (RFC 7518, section 4.5) and AES GCM
//! (RFC 7518, section 5.3): the block is its `aad`, and the values are its plaintext.
#![tactic(auto)]

mod header;
mod jwe;
mod key;
mod opening;
mod read;
mod sealing;
mod write;

pub use header::read_header;
pub use jwe::FlatJwe;
pub use key::{ContentKey, Suite};
pub use opening::{CipherWhy, JweOpen, open_jwe};
pub use read::{JweMember, JweRead, read_jwe, read_jwe_members};
pub use sealing::seal_jwe;
pub use write::jwe_doc;
