// Faults of the store and of the calls of a SEPP, as they are told of an event.
ghost use Rattle.std.specs.Prelude.{◌≡◌};
ghost use Rattle.replay_world.specs.Refusing.{Undelivers, of_adding, of_hand, of_opening, of_passing, of_sending};

use crate::reporting::report_on;
use block_forms::LimitName;
use context_store::{AddFault, OpenFault};
use ipx_node::PassFault;
use n32_values::Doc;
use n32c_handshake::HandFault;
use receiving_sepp::AcceptFault;
use script_lines::{Refusal, Unanswered};
use sending_sepp::ProtectFault;
use std::alloc::Global;

pub(crate) fn unread(fault: OpenFault) -> Unanswered
    ensures { result ≡ of_opening fault }
{
    match fault {
        OpenFault::Journal(number) => Unanswered::Refused(Refusal::Journal(number)),
        OpenFault::Keeper => Unanswered::Refused(Refusal::Keeper),
        OpenFault::NoMemory => Unanswered::NoMemory,
    }
}

pub(crate) fn unrecorded(fault: AddFault) -> Unanswered
    ensures { result ≡ of_adding fault }
{
    match fault {
        AddFault::Limit => Unanswered::Refused(Refusal::Limit(LimitName::Records)),
        AddFault::Keeper => Unanswered::Refused(Refusal::Keeper),
        AddFault::NoMemory => Unanswered::NoMemory,
    }
}

pub(crate) fn unsent(fault: ProtectFault) -> Unanswered
    ensures { result ≡ of_sending fault }
{
    match fault {
        ProtectFault::Refused(refusal) => Unanswered::Refused(Refusal::Sending(refusal)),
        ProtectFault::Journal(number) => Unanswered::Refused(Refusal::Journal(number)),
        ProtectFault::Keeper => Unanswered::Refused(Refusal::Keeper),
        ProtectFault::NoMemory => Unanswered::NoMemory,
    }
}

pub(crate) fn unshaken(fault: HandFault) -> Unanswered
    ensures { result ≡ of_hand fault }
{
    match fault {
        HandFault::Refused(refusal) => Unanswered::Refused(Refusal::Handshake(refusal)),
        HandFault::Journal(number) => Unanswered::Refused(Refusal::Journal(number)),
        HandFault::Keeper => Unanswered::Refused(Refusal::Keeper),
        HandFault::NoMemory => Unanswered::NoMemory,
    }
}

pub(crate) fn unpassed(fault: PassFault) -> Unanswered
    ensures { result ≡ of_passing fault }
{
    match fault {
        PassFault::Form(part) => Unanswered::Refused(Refusal::Form(part)),
        PassFault::Signer => Unanswered::Refused(Refusal::Signer),
        PassFault::NoMemory => Unanswered::NoMemory,
    }
}

// A document is refused with its report.
pub(crate) fn undelivered(alloc: Global, document: &Doc, fault: AcceptFault) -> Unanswered
    ensures { Undelivers document.now fault result }
{
    match fault {
        AcceptFault::Refused(refused) => match report_on(alloc, document, &refused) {
            Ok(report) => Unanswered::Refused(Refusal::Receiving { refused, report }),
            Err(_) => Unanswered::NoMemory,
        },
        AcceptFault::Journal(number) => Unanswered::Refused(Refusal::Journal(number)),
        AcceptFault::Keeper => Unanswered::Refused(Refusal::Keeper),
        AcceptFault::NoMemory => Unanswered::NoMemory,
    }
}
