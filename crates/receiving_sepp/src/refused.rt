// Why a document isn't delivered.
ghost use Rattle.std.specs.Prelude.{◌≡◌};
ghost use Rattle.spec_exchange.specs.AcceptRefusals as spec;
ghost use Rattle.receiving_sepp.specs.Views.{refused_view};

use block_forms::BlockWhy;
use entry_checks::RefusedEntry;
use jwe_flat::CipherWhy;
use n32_values::Text;
use policy_tables::Address;

/// Why an opened document has no message. The first that holds counts, in this order.
#[derive(Drop)]
pub enum RebuildWhy {
    /// The plaintext is no list of values.
    Values,
    /// The document of `aad` is no block with so many values.
    Block(BlockWhy),
    /// The value of this index, the least of its kind, stands in a path, a query or a header and is no text
    /// of its grammar.
    NotText(u32),
    /// The body with its values nests deeper than 64.
    Depth,
}

/// Why a document isn't delivered. The first that holds counts, in this order.
#[derive(Drop)]
pub enum Refused {
    /// The member of this name has not its form; `document` where the whole is no object.
    Form(Text),
    /// The node has no open context of the document's id.
    ContextNotFound,
    /// The context has no keys.
    NoKeys,
    /// The JWE isn't of this profile and the context's suite.
    Cipher(CipherWhy),
    /// The tag isn't the one that recomputes.
    Integrity,
    /// The message was delivered before, as the record of this number says.
    Replay(u64),
    /// The context sent no request that the response answers.
    Unasked,
    /// The opened document has no message.
    Reconstruction(RebuildWhy),
    /// The policy makes what stands at this address secret, and the sender left it in clear.
    Policy(Address),
    /// An entry of an intermediary, the first that is refused.
    Entry(RefusedEntry),
    /// The screen doesn't pass the message.
    Screen,
    /// 1,048,576 records are held.
    Limit,
}

impl Refused {
    /// The number that stands for the refusal in an answer.
    pub fn number(&self) -> u64
        ensures { result ≡ (spec.telling (refused_view self.now)).number }
    {
        match self {
            Refused::Form(_) => 20,
            Refused::ContextNotFound => 21,
            Refused::NoKeys => 22,
            Refused::Cipher(_) => 23,
            Refused::Integrity => 24,
            Refused::Replay(_) => 25,
            Refused::Unasked => 38,
            Refused::Reconstruction(_) => 26,
            Refused::Policy(_) => 27,
            Refused::Entry(entry) => entry.number(),
            Refused::Screen => 33,
            Refused::Limit => 7,
        }
    }

    /// The refusal's name in an answer.
    pub fn name(&self) -> &'static str
        ensures { result.now ≡ (spec.telling (refused_view self.now)).name }
    {
        match self {
            Refused::Form(_) => "FORM",
            Refused::ContextNotFound => "CONTEXT_NOT_FOUND",
            Refused::NoKeys => "NO_KEYS",
            Refused::Cipher(_) => "CIPHER",
            Refused::Integrity => "INTEGRITY",
            Refused::Replay(_) => "REPLAY",
            Refused::Unasked => "UNASKED",
            Refused::Reconstruction(_) => "RECONSTRUCTION",
            Refused::Policy(_) => "POLICY",
            Refused::Entry(entry) => entry.name(),
            Refused::Screen => "SCREEN",
            Refused::Limit => "LIMIT",
        }
    }
}
