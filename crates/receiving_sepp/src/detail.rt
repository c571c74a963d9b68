// What refusals name besides.
ghost use Rattle.std.specs.Prelude.{◌≡◌, ◌++◌, IfOk, codes};
ghost use Rattle.std.specs.Fmt.{decimal};
ghost use Rattle.enc_index.specs.Places.{place_view};
ghost use Rattle.spec_exchange.specs.RebuildTexts as texts;
ghost use Rattle.spec_exchange.specs.AcceptRefusals as spec;
ghost use Rattle.spec_exchange.specs.ReceivingRefusals.{cipher_name};
ghost use Rattle.jwe_flat.specs.View.{misfit_view};
ghost use Rattle.receiving_sepp.specs.Views.{fault_view, refused_view, why_view};

use crate::refused::{RebuildWhy, Refused};
use block_forms::{BlockWhy, limit_name};
use enc_index::Place;
use json_ptr::pointer_text;
use jwe_flat::CipherWhy;
use n32_values::{NoMemory, Text};
use policy_tables::address_text;
use std::alloc::Global;

fn cipher_name(why: CipherWhy) -> &'static str
    ensures { result.now ≡ cipher_name (misfit_view why) }
{
    match why {
        CipherWhy::Alg => "alg",
        CipherWhy::Enc => "enc",
        CipherWhy::Zip => "zip",
        CipherWhy::Crit => "crit",
    }
}

fn number_text(alloc: Global, number: u64) -> Result<Text, NoMemory>
    ensures { IfOk result (λ t. t ≡ decimal number) }
{
    Ok(Text::from_string(format!(in alloc; "{number}")?))
}

// A reason, a space and a number.
fn numbered(alloc: Global, reason: &str, number: u32) -> Result<Text, NoMemory>
    ensures { IfOk result (λ t. t ≡ reason.now ++ decimal number) }
{
    Ok(Text::from_string(format!(in alloc; "{reason}{number}")?))
}

fn text_after(alloc: Global, front: &str, rest: &str) -> Result<Text, NoMemory>
    ensures { IfOk result (λ t. t ≡ front.now ++ rest.now) }
{
    Ok(Text::from_string(format!(in alloc; "{front}{rest}")?))
}

fn bad_hole_text(alloc: Global, place: &Place) -> Result<Text, NoMemory>
    ensures { IfOk result (λ t. t ≡ codes "BAD_HOLE " ++ texts.place_text (place_view place.now)) }
{
    let pointer = pointer_text(alloc, &place.pointer)?;
    let pointer = pointer.as_str();
    let text = match place.part {
        Some(part) => format!(in alloc; "BAD_HOLE {pointer}#{part}")?,
        None => format!(in alloc; "BAD_HOLE {pointer}")?,
    };
    Ok(Text::from_string(text))
}

fn block_text(alloc: Global, why: &BlockWhy) -> Result<Text, NoMemory>
    ensures { IfOk result (λ t. t ≡ texts.block_text (fault_view why.now)) }
{
    match why {
        BlockWhy::Member(name) => text_after(alloc, "MEMBER ", name.as_str()),
        BlockWhy::Limit(limit) => text_after(alloc, "LIMIT ", limit_name(*limit)),
        BlockWhy::IePath(number) => numbered(alloc, "IE_PATH ", *number),
        BlockWhy::Overlap(number) => numbered(alloc, "OVERLAP ", *number),
        BlockWhy::BadHole(place) => bad_hole_text(alloc, place),
        BlockWhy::Twice(index) => numbered(alloc, "TWICE ", *index),
        BlockWhy::Missing(index) => numbered(alloc, "MISSING ", *index),
        BlockWhy::Depth => Text::from_text(alloc, "DEPTH"),
    }
}

fn rebuild_text(alloc: Global, why: &RebuildWhy) -> Result<Text, NoMemory>
    ensures { IfOk result (λ t. t ≡ texts.rebuild_text (why_view why.now)) }
{
    match why {
        RebuildWhy::Values => Text::from_text(alloc, "VALUES"),
        RebuildWhy::Block(why) => block_text(alloc, why),
        RebuildWhy::NotText(index) => numbered(alloc, "NOT_TEXT ", *index),
        RebuildWhy::Depth => Text::from_text(alloc, "DEPTH"),
    }
}

impl Refused {
    /// What the refusal names besides, where it names anything: a member, a reason, a number, an address, what is
    /// told of an entry, or a limit.
    ///
    /// # Errors
    /// `NoMemory` where memory was refused.
    pub fn detail(&self, alloc: Global) -> Result<Option<Text>, NoMemory>
        ensures { IfOk result (λ d. d ≡ (spec.telling (refused_view self.now)).detail) }
    {
        let text = match self {
            Refused::Form(member) => member.copy(alloc)?,
            Refused::Cipher(why) => Text::from_text(alloc, cipher_name(*why))?,
            Refused::Replay(number) => number_text(alloc, *number)?,
            Refused::Reconstruction(why) => rebuild_text(alloc, why)?,
            Refused::Policy(address) => address_text(alloc, address)?,
            Refused::Entry(entry) => return entry.detail(alloc),
            Refused::Limit => Text::from_text(alloc, "records")?,
            _ => return Ok(None),
        };
        Ok(Some(text))
    }
}
