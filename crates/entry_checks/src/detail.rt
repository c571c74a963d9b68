// What a refusal of an entry names besides.
ghost use Rattle.std.specs.Prelude.{◌≡◌, ◌++◌, IfOk, codes};
ghost use Rattle.std.specs.Fmt.{decimal};
ghost use Rattle.spec_exchange.specs.EntryRefusals as spec;
ghost use Rattle.block_patch.specs.Answers as patching;
ghost use Rattle.json_patch6902.specs.Faults.{cause_view};
ghost use Rattle.entry_checks.specs.Views.{why_view};

use crate::refused::{EntryWhy, RefusedEntry};
use block_patch::OpWhy;
use json_patch6902::PatchFault;
use n32_values::{NoMemory, Text};
use policy_tables::{Address, address_text};
use std::alloc::Global;

fn cause_name(why: PatchFault) -> &'static str
    ensures { result.now ≡ spec.cause_text (cause_view why) }
{
    match why {
        PatchFault::NoPlace => "NO_PLACE",
        PatchFault::BadIndex => "BAD_INDEX",
        PatchFault::TestFailed => "TEST_FAILED",
        PatchFault::IntoItself => "INTO_ITSELF",
        PatchFault::TooDeep => "TOO_DEEP",
    }
}

fn numbered(alloc: Global, entry: u64, operation: u32, reason: &str) -> Result<Text, NoMemory>
    ensures { IfOk result (λ t. t ≡ spec.beside (decimal entry) (spec.beside (decimal operation) reason.now)) }
{
    Ok(Text::from_string(format!(in alloc; "{entry} {operation} {reason}")?))
}

fn fixed_text(
    alloc: Global,
    entry: u64,
    operation: u32,
    address: &Address,
) -> Result<Text, NoMemory>
    ensures { IfOk result (λ t. t ≡ spec.beside (decimal entry) (spec.beside (decimal operation) (spec.reason_text (patching.why_view (OpWhy.NotModifiable address.now))))) }
{
    let address = address_text(alloc, address)?;
    let address = address.as_str();
    Ok(Text::from_string(format!(in alloc; "{entry} {operation} NOT_MODIFIABLE {address}")?))
}

fn operation_text(alloc: Global, entry: u64, operation: u32, why: &OpWhy) -> Result<Text, NoMemory>
    ensures { IfOk result (λ t. t ≡ spec.beside (decimal entry) (spec.beside (decimal operation) (spec.reason_text (patching.why_view why.now)))) }
{
    let reason = match why {
        OpWhy::HoleValue => "HOLE_VALUE",
        OpWhy::IntoHole => "INTO_HOLE",
        OpWhy::Patch(why) => cause_name(*why),
        OpWhy::HoleTaken => "HOLE_TAKEN",
        OpWhy::TooLarge => "TOO_LARGE",
        OpWhy::Meta => "META",
        OpWhy::NotBlock => "NOT_BLOCK",
        OpWhy::HoleMoved => "HOLE_MOVED",
        OpWhy::NotModifiable(address) => return fixed_text(alloc, entry, operation, address),
    };
    numbered(alloc, entry, operation, reason)
}

fn member_text(alloc: Global, entry: u64, member: &str) -> Result<Text, NoMemory>
    ensures { IfOk result (λ t. t ≡ spec.beside (decimal entry) member.now) }
{
    Ok(Text::from_string(format!(in alloc; "{entry} {member}")?))
}

fn number_text(alloc: Global, entry: u64) -> Result<Text, NoMemory>
    ensures { IfOk result (λ t. t ≡ decimal entry) }
{
    Ok(Text::from_string(format!(in alloc; "{entry}")?))
}

impl RefusedEntry {
    /// What the refusal names besides: the entry's number, and with it the member, or the operation's number
    /// and its reason.
    ///
    /// # Errors
    /// `NoMemory` where memory was refused.
    pub fn detail(&self, alloc: Global) -> Result<Option<Text>, NoMemory>
        ensures { IfOk result (λ d. d ≡ (spec.entry_telling self.now.entry (why_view self.now.why)).detail) }
    {
        let text = match &self.why {
            EntryWhy::Form(member) => member_text(alloc, self.entry, member.name())?,
            EntryWhy::Operation(number, why) => operation_text(alloc, self.entry, *number, why)?,
            EntryWhy::Identity => number_text(alloc, self.entry)?,
            EntryWhy::Verifier => number_text(alloc, self.entry)?,
            EntryWhy::Signature => number_text(alloc, self.entry)?,
            EntryWhy::Tag => number_text(alloc, self.entry)?,
        };
        Ok(Some(text))
    }
}
