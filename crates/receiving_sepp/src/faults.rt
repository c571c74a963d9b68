// What stops a call: a refusal, a fault of the outside, or want of memory.
use crate::refused::Refused;
use context_store::CallFault;

// Why the checks of a document come to no message.
pub(crate) type CheckFault = context_store::CheckFault<Refused>;

/// Why accepting a document delivers nothing.
pub type AcceptFault = CallFault<Refused>;
