//! What is sealed, as definitions: AES (FIPS 197), GCM (SP 800-38D), the flattened JWE (RFC 7516, section 7.2.2), the reformatted
//! document that carries one (PRINS, TS 29.573 clause 5.3.2) and its plaintext, and laws over them.
#![tactic(auto)]

pub mod entry_laws;
pub mod entry_rows;
pub mod laws;
pub mod rows;
