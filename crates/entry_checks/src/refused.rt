// Why the entries of a document aren't applied.
ghost use Rattle.std.specs.Prelude.{◌≡◌};
ghost use Rattle.spec_exchange.specs.EntryRefusals.{entry_telling};
ghost use Rattle.entry_checks.specs.Views.{why_view};

use block_patch::OpWhy;
use jws_flat::EntryMember;

/// Why an entry isn't applied: the first that holds, in this order.
#[derive(Drop)]
pub enum EntryWhy {
    /// The member has not its form.
    Form(EntryMember),
    /// The identity isn't in the route, or not behind the place of the entry before.
    Identity,
    /// The verifier failed.
    Verifier,
    /// The signature isn't the identity's.
    Signature,
    /// The entry is bound to the tag of another document.
    Tag,
    /// The operation of this number, from 1, isn't allowed.
    Operation(u32, OpWhy),
}

/// An entry that is refused.
#[derive(Drop)]
pub struct RefusedEntry {
    /// The number of the entry, from 1.
    pub entry: u64,
    /// The first reason.
    pub why: EntryWhy,
}

/// Why the entries of a document aren't applied.
#[derive(Drop)]
pub enum EntriesFault {
    /// The first entry that is refused.
    Refused(RefusedEntry),
    /// Memory was refused.
    NoMemory,
}

impl RefusedEntry {
    /// The number that stands for the refusal in an answer.
    pub fn number(&self) -> u64
        ensures { result ≡ (entry_telling self.now.entry (why_view self.now.why)).number }
    {
        match &self.why {
            EntryWhy::Form(_) => 28,
            EntryWhy::Identity => 29,
            EntryWhy::Verifier => 35,
            EntryWhy::Signature => 30,
            EntryWhy::Tag => 31,
            EntryWhy::Operation(_, _) => 32,
        }
    }

    /// The refusal's name in an answer.
    pub fn name(&self) -> &'static str
        ensures { result.now ≡ (entry_telling self.now.entry (why_view self.now.why)).name }
    {
        match &self.why {
            EntryWhy::Form(_) => "MOD_FORM",
            EntryWhy::Identity => "MOD_IDENTITY",
            EntryWhy::Verifier => "VERIFIER",
            EntryWhy::Signature => "MOD_SIGNATURE",
            EntryWhy::Tag => "MOD_TAG",
            EntryWhy::Operation(_, _) => "MOD_OPERATION",
        }
    }
}

// Why one entry makes nothing.
#[derive(Drop)]
pub(crate) enum StepFault {
    Refused(EntryWhy),
    NoMemory,
}
