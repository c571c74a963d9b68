// Why a message isn't sent, and what stops a call.
ghost use Rattle.std.specs.Prelude.{◌≡◌, IfOk};
ghost use Rattle.spec_exchange.specs.SendingRefusals as spec;
ghost use Rattle.sending_sepp.specs.Sending.{refusal_view};

use block_forms::{LimitName, limit_name};
use context_store::CallFault;
use n32_values::{NoMemory, Text};
use std::alloc::Global;

/// Why a message isn't sent. The first that holds counts, in this order.
#[derive(Clone, Copy, Debug, PartialEq, Eq, Drop)]
pub enum SendFault {
    /// The node has no open context of that id.
    ContextNotFound,
    /// The context has no keys.
    NoKeys,
    /// No request of that message id was delivered. Of a response alone.
    NoRequest,
    /// The request has its response. Of a response alone.
    Answered,
    /// No sequence number is left.
    SeqSpent,
    /// The first limit that is passed: of `Headers`, `Payload`, `Values`, `Block` and `Records`.
    Limit(LimitName),
}

// Why the checks of a message come to no document.
pub(crate) type CheckFault = context_store::CheckFault<SendFault>;

/// Why protecting a message gives no document.
pub type ProtectFault = CallFault<SendFault>;

impl SendFault {
    /// The number that stands for the refusal in an answer.
    pub fn number(&self) -> u64
        ensures { result ≡ (spec.telling (refusal_view self.now)).number }
    {
        match self {
            SendFault::ContextNotFound => 10,
            SendFault::NoKeys => 11,
            SendFault::NoRequest => 15,
            SendFault::Answered => 16,
            SendFault::SeqSpent => 12,
            SendFault::Limit(_) => 7,
        }
    }

    /// The refusal's name in an answer.
    pub fn name(&self) -> &'static str
        ensures { result.now ≡ (spec.telling (refusal_view self.now)).name }
    {
        match self {
            SendFault::ContextNotFound => "CONTEXT_NOT_FOUND",
            SendFault::NoKeys => "NO_KEYS",
            SendFault::NoRequest => "NO_REQUEST",
            SendFault::Answered => "ANSWERED",
            SendFault::SeqSpent => "SEQ_SPENT",
            SendFault::Limit(_) => "LIMIT",
        }
    }

    /// What the refusal names besides: a limit, where one is passed.
    ///
    /// # Errors
    /// `NoMemory` where memory was refused.
    pub fn detail(&self, alloc: Global) -> Result<Option<Text>, NoMemory>
        ensures { IfOk result (λ d. d ≡ (spec.telling (refusal_view self.now)).detail) }
    {
        match self {
            SendFault::Limit(limit) => Ok(Some(Text::from_text(alloc, limit_name(*limit))?)),
            _ => Ok(None),
        }
    }
}
