//! The lines of a script and of its answers: lines are read to documents, messages and events, and answers and refusals
//! are written as texts.
#![tactic(auto)]

mod answer_messages;
mod answers;
mod event;
mod event_fault;
mod event_kind;
mod event_member;
mod event_reading;
mod event_values;
mod hand_answers;
mod hand_reading;
mod line_reading;
mod offer;
mod offer_reading;
mod refusal;
mod refusal_detail;
mod unanswered;

pub use answers::{
    delivered_text, document_text, done_text, refusal_text, reported_text, wire_text,
};
pub use event::{Event, HandedContext};
pub use event_fault::EventRead;
pub use event_member::EventMember;
pub use event_reading::read_event;
pub use hand_answers::{ended_text, opened_text, opening_text};
pub use line_reading::{read_line, read_line_in, read_line_message, take_line_message};
pub use offer::HandedOffer;
pub use refusal::Refusal;
pub use unanswered::Unanswered;
