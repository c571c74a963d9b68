// What stops a call: a refusal, a fault of the outside, or want of memory.
use crate::read::DocumentRead;
use crate::refusal::HandRefusal;
use context_store::CallFault;

// Why the checks of a call come to nothing.
pub(crate) type CheckFault = context_store::CheckFault<HandRefusal>;

/// Why a call of the handshake gives nothing.
pub type HandFault = CallFault<HandRefusal>;

impl From<DocumentRead> for context_store::CheckFault<HandRefusal> {
    ghost use Rattle.std.specs.Prelude.{◌≡◌};
    ghost use Rattle.n32c_handshake.specs.Faults.{of_read};

    ghost from_gives = { λ fault e. e ≡ of_read fault };

    fn from(fault: DocumentRead) -> CheckFault {
        match fault {
            DocumentRead::Member(member) => CheckFault::Refused(HandRefusal::Form(member)),
            DocumentRead::NoMemory => CheckFault::NoMemory,
        }
    }
}
