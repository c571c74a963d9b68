// Why a call of the handshake is refused, with numbers, names and details.
ghost use Rattle.std.specs.Prelude.{◌≡◌, ◌++◌, ◌∷◌, IfOk, option_map};
ghost use Rattle.std.specs.Fmt.{decimal};
ghost use Rattle.spec_documents.specs.Compact.{compact_text};
ghost use Rattle.spec_handshake.specs.Differences.{side_text};
ghost use Rattle.spec_handshake.specs.Refusals.{telling};
ghost use Rattle.n32c_handshake.specs.Faults.{refusal_view};

use crate::member::HandMember;
use n32_values::{Doc, NoMemory, Text, doc_text};
use std::alloc::Global;

/// Why a call of the handshake is refused.
#[derive(Drop)]
pub enum HandRefusal {
    /// This is the first member of the document that is missing or has not its form.
    Form(HandMember),
    /// The document is none that the call takes, or none that a start waits for.
    NotExpected,
    /// Both sides have no capability in common, or one was chosen that wasn't offered.
    NoCommonCapability,
    /// Both sides have no suite in common, or one was selected that wasn't offered.
    NoCommonSuite,
    /// The policies differ first at this mapping, from 0.
    MappingDiffers {
        /// Its number.
        number: u32,
        /// The node's own mapping, where it has it.
        own: Option<Doc>,
        /// The peer's, where that has it.
        other: Option<Doc>,
    },
    /// The mappings are the same, and the sets of types differ.
    TypesDiffer,
    /// The node has used the offer's id.
    ContextUsed,
    /// The node has no open context of that id.
    ContextNotFound,
    /// 1,048,576 records are held.
    Limit,
}

impl HandRefusal {
    /// The number that stands for the refusal in an answer.
    pub fn number(&self) -> u64
        ensures { result ≡ (telling (refusal_view self.now)).number }
    {
        match self {
            HandRefusal::Form(_) => 40,
            HandRefusal::NotExpected => 45,
            HandRefusal::NoCommonCapability => 41,
            HandRefusal::NoCommonSuite => 42,
            HandRefusal::MappingDiffers { .. } => 43,
            HandRefusal::TypesDiffer => 43,
            HandRefusal::ContextUsed => 44,
            HandRefusal::ContextNotFound => 10,
            HandRefusal::Limit => 7,
        }
    }

    /// The refusal's name in an answer.
    pub fn name(&self) -> &'static str
        ensures { result.now ≡ (telling (refusal_view self.now)).name }
    {
        match self {
            HandRefusal::Form(_) => "HS_FORM",
            HandRefusal::NotExpected => "NOT_EXPECTED",
            HandRefusal::NoCommonCapability => "NO_COMMON_CAPABILITY",
            HandRefusal::NoCommonSuite => "NO_COMMON_SUITE",
            HandRefusal::MappingDiffers { .. } => "POLICY_DIFFERS",
            HandRefusal::TypesDiffer => "POLICY_DIFFERS",
            HandRefusal::ContextUsed => "CONTEXT_USED",
            HandRefusal::ContextNotFound => "CONTEXT_NOT_FOUND",
            HandRefusal::Limit => "LIMIT",
        }
    }

    /// What the refusal names besides: a member, `records`, the first mapping on both sides, or `types`.
    ///
    /// # Errors
    /// `NoMemory` where memory was refused.
    pub fn detail(&self, alloc: Global) -> Result<Option<Text>, NoMemory>
        ensures { IfOk result (λ d. d ≡ (telling (refusal_view self.now)).detail) }
    {
        let text = match self {
            HandRefusal::Form(member) => Text::from_text(alloc, member.name())?,
            HandRefusal::MappingDiffers { number, own, other } => {
                difference_text(alloc, *number, own.as_ref(), other.as_ref())?
            }
            HandRefusal::TypesDiffer => Text::from_text(alloc, "types")?,
            HandRefusal::Limit => Text::from_text(alloc, "records")?,
            _ => return Ok(None),
        };
        Ok(Some(text))
    }
}

// The compact text of a document, which is UTF-8.
#[tactic(auto, using(crate::proofs::Texts::lossless))]
fn text_of(alloc: Global, document: &Doc) -> Result<Text, NoMemory>
    ensures { IfOk result (λ t. t ≡ compact_text document.now) }
{
    let bytes = doc_text(alloc, document.node())?;
    Ok(Text::from_string(String::from_utf8_lossy(alloc, bytes.as_slice())?))
}

// One side of a difference, as it is printed.
fn side_of(alloc: Global, side: Option<&Doc>) -> Result<Text, NoMemory>
    ensures { IfOk result (λ t. t ≡ side_text (option_map (λ d. d.now) side.entry)) }
{
    match side {
        Some(document) => text_of(alloc, document),
        None => Text::from_text(alloc, "none"),
    }
}

fn difference_text(
    alloc: Global,
    number: u32,
    own: Option<&Doc>,
    other: Option<&Doc>,
) -> Result<Text, NoMemory>
    ensures { IfOk result (λ t. t ≡ decimal number ++ 32 ∷ (side_text (option_map (λ d. d.now) own.entry) ++ 32 ∷ side_text (option_map (λ d. d.now) other.entry))) }
{
    let own = side_of(alloc, own)?;
    let other = side_of(alloc, other)?;
    let own = own.as_str();
    let other = other.as_str();
    Ok(Text::from_string(format!(in alloc; "{number} {own} {other}")?))
}
