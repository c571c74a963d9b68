//! The records that a SEPP keeps of its contexts (the N32-f context of TS 29.573 in outline): their values,
//! and the texts that they are written as and read from.
#![tactic(auto)]

mod context;
/// Keys and salts, as hexadecimal digits.
pub mod keys;
mod read;
mod record;
mod suite_keys;
/// The words, numbers and lists that records and events have.
pub mod words;
mod write;

pub use context::{Context, KeySet, OneKey};
pub use read::{RecordRead, read_record, read_record_in};
pub use record::Record;
pub use suite_keys::{receive_key, send_key, send_nonce};
pub use write::record_text;
