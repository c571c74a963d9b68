//! HTTP messages, in the parts that a sealed message keeps apart, and their JSON documents.
#![tactic(auto)]

mod doc;
mod form;
mod headers;
mod laws;
mod line;
mod message;
mod protocol;
mod read;
mod refusal;
mod whole;

pub use doc::{line_node, message_doc, put_headers};
pub use form::Form;
pub use headers::read_headers;
pub use laws::block_parts_are_kept;
pub use line::{Head, Line, read_head};
pub use message::{
    Header, HeaderList, Kind, Message, Pair, PairList, Part, PartList, Request, Response,
};
pub use read::{read_message, take_message};
pub use refusal::{MessageMember, MessageRead};
pub use whole::is_whole;
