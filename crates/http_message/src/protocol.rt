// Methods and status codes, by the crates `http_header` and `http`.
ghost use Rattle.std.specs.Prelude.{◌≡◌};
ghost use Rattle.spec_documents.specs.Text as texts;
ghost use Rattle.spec_messages.specs.Message as spec;
ghost use Rattle.http_message.specs.Reading.{Gives};

use crate::refusal::{MessageMember, MessageRead};
use doc_forms::is_token;
use http::StatusCode;

// A token of 1 to 15 bytes.
#[tactic(auto, using(doc_forms::proofs::Tokens::limited_token))]
pub(crate) fn is_method(text: &str) -> bool
    ensures { result ≡ texts.is_method text.now }
{
    text.len() <= 15 && is_token(text)
}

pub(crate) fn is_status(status: u16) -> bool
    ensures { result ≡ texts.is_within 100 999 status }
{
    StatusCode::from_u16(status).is_ok()
}

// The number of three digits, of which the first is not 0.
pub(crate) fn read_status_text(text: &str) -> Result<u16, MessageRead>
    ensures { Gives spec.response result (spec.status_head (texts.status_of text.now)) }
{
    match StatusCode::from_bytes(text.as_bytes()) {
        Ok(status) => Ok(status.as_u16()),
        Err(_) => Err(MessageRead::Member(MessageMember::StatusLine)),
    }
}
