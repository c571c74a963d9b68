//! The reformatted document (PRINS, TS 29.573 clause 6.2 in outline): a JWE that holds a block in clear
//! and its values sealed, and the entries that intermediaries have added.
#![tactic(auto)]

mod block;
mod data;
mod document;
mod rows;
mod values;
mod write;

pub use document::{WireDoc, WireMember, WireRead, entries, read_wire_doc};
pub use rows::route_rows;
pub use values::{ValuesRead, read_values, values_text};
pub use write::wire_doc;
