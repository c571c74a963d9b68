// Refusals, with their numbers and names.
ghost use Rattle.std.specs.Prelude.{◌≡◌, option_map};
ghost use Rattle.spec_script.specs.Answers.{report_of};
ghost use Rattle.spec_script.specs.RefusalTexts.{telling};
ghost use Rattle.script_lines.specs.View.{refusal_view};

use block_forms::LimitName;
use http_message::MessageMember;
use n32_values::Doc;
use n32c_handshake::HandRefusal;
use prins_document::WireMember;
use receiving_sepp::Refused;
use sending_sepp::SendFault;

/// Why a line of a script has no other answer.
#[derive(Drop)]
pub enum Refusal {
    /// The line is no JSON value in UTF-8 that nests at most 127 deep.
    Syntax,
    /// A number in the line is no whole number of 64 bits.
    Number,
    /// The member of this name is the first of the event's that is missing or has not its form.
    Event(&'static str),
    /// No node has this name.
    NodeUnknown,
    /// A node has this name already.
    NodeExists,
    /// No document on the wire has this number.
    WireUnknown,
    /// There is too much of this, where nothing is sent and no document is checked.
    Limit(LimitName),
    /// The context has keys already.
    KeysTwice,
    /// The node has no open context of this id to hand keys to.
    ContextNotFound,
    /// The first member that keeps the document from being a message.
    Message(MessageMember),
    /// All members of the message are right, and its body nests deeper than 64.
    Depth,
    /// The mapping of this number, from 1, is bad; 0 where the rest of the policy is.
    PolicyForm(u32),
    /// The id is used at the node already.
    ContextUsed,
    /// The first part of the document that keeps it from being passed on.
    Form(WireMember),
    /// The document is of no report.
    Report,
    /// The message isn't sent.
    Sending(SendFault),
    /// The document isn't delivered.
    Receiving {
        /// Why.
        refused: Refused,
        /// The document that reports it to the sender, where there is one.
        report: Option<Doc>,
    },
    /// The held record of this number is none, or stands past the limit.
    Journal(u64),
    /// The keeper failed.
    Keeper,
    /// The signer failed.
    Signer,
    /// A call of a handshake is refused.
    Handshake(HandRefusal),
}

impl Refusal {
    /// The number that stands for the refusal in an answer.
    pub fn number(&self) -> u64
        ensures { result ≡ (telling (refusal_view self.now)).number }
    {
        match self {
            Refusal::Syntax => 1,
            Refusal::Number => 2,
            Refusal::Event(_) => 3,
            Refusal::NodeUnknown => 4,
            Refusal::NodeExists => 5,
            Refusal::WireUnknown => 6,
            Refusal::Limit(_) => 7,
            Refusal::KeysTwice => 8,
            Refusal::ContextNotFound => 10,
            Refusal::Message(_) => 13,
            Refusal::Depth => 14,
            Refusal::PolicyForm(_) => 17,
            Refusal::ContextUsed => 44,
            Refusal::Form(_) => 20,
            Refusal::Report => 46,
            Refusal::Sending(fault) => fault.number(),
            Refusal::Receiving { refused, report: _ } => refused.number(),
            Refusal::Journal(_) => 9,
            Refusal::Keeper => 34,
            Refusal::Signer => 36,
            Refusal::Handshake(refusal) => refusal.number(),
        }
    }

    /// The document that reports it, where there is one.
    pub fn report(&self) -> Option<&Doc>
        ensures { option_map (λ d. d.now) result ≡ report_of (refusal_view self.now) }
    {
        match self {
            Refusal::Receiving { refused: _, report } => report.as_ref(),
            _ => None,
        }
    }

    /// The refusal's name in an answer.
    pub fn name(&self) -> &'static str
        ensures { result.now ≡ (telling (refusal_view self.now)).name }
    {
        match self {
            Refusal::Syntax => "SYNTAX",
            Refusal::Number => "NUMBER",
            Refusal::Event(_) => "EVENT",
            Refusal::NodeUnknown => "NODE_UNKNOWN",
            Refusal::NodeExists => "NODE_EXISTS",
            Refusal::WireUnknown => "WIRE_UNKNOWN",
            Refusal::Limit(_) => "LIMIT",
            Refusal::KeysTwice => "KEYS_TWICE",
            Refusal::ContextNotFound => "CONTEXT_NOT_FOUND",
            Refusal::Message(_) => "MESSAGE",
            Refusal::Depth => "DEPTH",
            Refusal::PolicyForm(_) => "POLICY_FORM",
            Refusal::ContextUsed => "CONTEXT_USED",
            Refusal::Form(_) => "FORM",
            Refusal::Report => "REPORT_FORM",
            Refusal::Sending(fault) => fault.name(),
            Refusal::Receiving { refused, report: _ } => refused.name(),
            Refusal::Journal(_) => "JOURNAL",
            Refusal::Keeper => "KEEPER",
            Refusal::Signer => "SIGNER",
            Refusal::Handshake(refusal) => refusal.name(),
        }
    }
}
