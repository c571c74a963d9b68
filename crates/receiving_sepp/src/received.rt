// The form of a document.
ghost use Rattle.std.specs.Prelude.{◌≡◌, IfOk};
ghost use Rattle.spec_documents.specs.Gives.{Gives};
ghost use Rattle.spec_exchange.specs.Accepting.{formed};
ghost use Rattle.prins_document.specs.View.{part_name, wire_view};
ghost use Rattle.receiving_sepp.specs.Refusing.{told};

use crate::faults::CheckFault;
use crate::refused::Refused;
use n32_values::{Doc, NoMemory, Text};
use prins_document::{WireDoc, WireMember, WireRead, read_wire_doc};
use std::alloc::Global;

fn out_of_form(alloc: Global, member: WireMember) -> Result<Text, NoMemory>
    ensures { IfOk result (λ t. t ≡ part_name member) }
{
    Text::from_text(alloc, member.name())
}

/// The parts of a document of the form.
pub(crate) fn read_received(alloc: Global, document: &Doc) -> Result<WireDoc, CheckFault>
    ensures { Gives told (wire_view document.now) result (formed document.now) }
{
    match read_wire_doc(alloc, document) {
        Ok(wire) => Ok(wire),
        Err(WireRead::Form(member)) => {
            let name = out_of_form(alloc, member)?;
            Err(CheckFault::Refused(Refused::Form(name)))
        }
        Err(WireRead::NoMemory) => Err(CheckFault::NoMemory),
    }
}
