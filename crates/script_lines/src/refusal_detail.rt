// What refusals name besides.
ghost use Rattle.std.specs.Prelude.{◌≡◌, IfOk};
ghost use Rattle.std.specs.Fmt.{decimal};
ghost use Rattle.spec_script.specs.RefusalTexts as spec;
ghost use Rattle.script_lines.specs.View.{refusal_view};

use crate::refusal::Refusal;
use block_forms::limit_name;
use n32_values::{NoMemory, Text};
use std::alloc::Global;

fn number_text(alloc: Global, number: u64) -> Result<Text, NoMemory>
    ensures { IfOk result (λ t. t ≡ decimal number) }
{
    Ok(Text::from_string(format!(in alloc; "{number}")?))
}

/// What a refusal names besides, where it names anything: a member, a limit, a number, a reason or an address.
pub(crate) fn detail_text(alloc: Global, refusal: &Refusal) -> Result<Option<Text>, NoMemory>
    ensures { IfOk result (λ d. d ≡ (spec.telling (refusal_view refusal.now)).detail) }
{
    let text = match refusal {
        Refusal::Event(member) => Text::from_text(alloc, member)?,
        Refusal::Limit(limit) => Text::from_text(alloc, limit_name(*limit))?,
        Refusal::Message(member) => Text::from_text(alloc, member.name())?,
        Refusal::PolicyForm(mapping) => number_text(alloc, u64::from(*mapping))?,
        Refusal::Sending(fault) => return fault.detail(alloc),
        Refusal::Form(part) => Text::from_text(alloc, part.name())?,
        Refusal::Receiving { refused, report: _ } => return refused.detail(alloc),
        Refusal::Handshake(refusal) => return refusal.detail(alloc),
        Refusal::Journal(number) => number_text(alloc, *number)?,
        _ => return Ok(None),
    };
    Ok(Some(text))
}
