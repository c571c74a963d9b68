//! The values that the other crates stand on: texts, bytes, whole numbers and document trees.
#![tactic(auto)]

mod base64url;
mod bytes;
mod direct;
mod doc;
mod ids;
mod length;
mod list;
mod memory;
mod node;
mod plmn;
mod read;
mod same;
mod text;
mod whole;
mod write;

pub use base64url::{B64Fault, base64url_text, read_base64url};
pub use bytes::Bytes;
pub use direct::ReadingRoom;
pub use doc::Doc;
pub use ids::{Hex64, hex64_text, read_hex64};
pub use length::{is_longer, text_length};
pub use list::{DocList, List, TextList};
pub use memory::NoMemory;
pub use node::{Node, NodeList, NodeMap, copy_doc, depth};
pub use plmn::{PlmnId, read_plmn};
pub use read::{DocFault, read_doc, read_doc_in};
pub use same::is_same_doc;
pub use text::Text;
pub use whole::Whole;
pub use write::doc_text;
