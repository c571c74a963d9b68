//! The members of an entry, and what is wrong with one that isn't read.

ghost use Rattle.std.specs.Prelude.{◌≡◌, ◌≤◌, IfOk};
ghost use Rattle.spec_documents.specs.Gives.{Gives};
ghost use Rattle.spec_documents.specs.Tree.{members, depth as nesting};
ghost use Rattle.spec_messages.specs.Message.{text_at, wanted};
ghost use Rattle.spec_sealing.specs.Jws.{payload_in};
ghost use Rattle.doc_forms.specs.Grammars.{test_of};
ghost use Rattle.jws_flat.specs.View.{member_name, member_told};

use doc_forms::{Grammar, text_at};
use jwe_flat::read_header;
use n32_values::{NoMemory, NodeMap};
use std::alloc::Global;

/// The members of an entry's document and of its payload. They are asked in this order.
#[derive(Clone, Copy, Debug, PartialEq, Eq, Drop)]
pub enum EntryMember {
    /// The entry is no object.
    Whole,
    /// `protected` isn't base64url of a JSON object whose `alg` is `HS256` or `ES256`, or has `crit`.
    Protected,
    /// `payload` isn't base64url of a JSON object.
    Payload,
    /// `signature` isn't base64url.
    Signature,
    /// `identity` of the payload is no identity.
    Identity,
    /// `operations` of the payload is there, and is neither null nor a list of operations.
    Operations,
    /// `tag` of the payload is no text.
    Tag,
}

impl EntryMember {
    /// The name by which a refusal tells the member: `entry` for the whole.
    pub fn name(self) -> &'static str
        ensures { result.now ≡ member_name self }
    {
        match self {
            EntryMember::Whole => "entry",
            EntryMember::Protected => "protected",
            EntryMember::Payload => "payload",
            EntryMember::Signature => "signature",
            EntryMember::Identity => "identity",
            EntryMember::Operations => "operations",
            EntryMember::Tag => "tag",
        }
    }
}

/// Why an entry isn't read.
#[derive(Clone, Copy, Debug, PartialEq, Eq, Drop)]
pub enum JwsRead {
    /// The first member that has not its form.
    Form(EntryMember),
    /// Memory was refused.
    NoMemory,
}

impl From<NoMemory> for JwsRead {
    ghost use Rattle.std.specs.Prelude.{◌≡◌};
    ghost use Rattle.jws_flat.specs.declared.members.JwsRead.TheVariants.{NoMemory as refused_memory};

    ghost from_gives = { λ _ e. e ≡ refused_memory };

    fn from(_refused: NoMemory) -> JwsRead {
        JwsRead::NoMemory
    }
}

// A member that is a text of a grammar.
pub(crate) fn text_of<'a>(
    map: &'a NodeMap,
    member: EntryMember,
    grammar: Grammar,
) -> Result<&'a str, JwsRead>
    ensures { Gives member_told (λ t. t.now) result (wanted (text_at (test_of grammar) (member_name member) map.now) (member_name member)) }
{
    match text_at(map, member.name(), grammar) {
        Some(text) => Ok(text),
        None => Err(JwsRead::Form(member)),
    }
}

// The members of the object that a payload's text is of.
pub(crate) fn payload_of(alloc: Global, text: &str) -> Result<NodeMap, JwsRead>
    ensures members { Gives member_told (λ m. m) result (wanted (payload_in text.now) (member_name EntryMember.Payload)) }
    ensures shallow { IfOk result (λ m. nesting (members m) ≤ 127) }
{
    match read_header(alloc, text) {
        Ok(Some(map)) => Ok(map),
        Ok(None) => Err(JwsRead::Form(EntryMember::Payload)),
        Err(NoMemory) => Err(JwsRead::NoMemory),
    }
}
