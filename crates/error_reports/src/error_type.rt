//! What a report says went wrong.

ghost use Rattle.std.specs.Prelude.{◌≡◌, option_map};
ghost use Rattle.spec_reports.specs.Report.{type_for};
ghost use Rattle.spec_reports.specs.Document.{type_of, type_text};
ghost use Rattle.error_reports.specs.View.{type_view};

/// What went wrong with a message (`n32fErrorType` of TS 29.573 clause 6.1.5 in outline).
#[derive(Clone, Copy, Debug, PartialEq, Eq, Drop)]
pub enum ErrorType {
    /// The receiver has no open context of the message's id.
    ContextNotFound,
    /// The JWE goes by another algorithm or suite.
    DecipheringFailed,
    /// The tag of the JWE doesn't match.
    IntegrityCheckFailed,
    /// The message can't be rebuilt, came before, or answers no request.
    MessageReconstructionFailed,
    /// A secret stands in clear, or the receiver's screen doesn't let the message pass.
    PolicyMismatch,
    /// An entry of an intermediary is not in its form, or is not from an intermediary of the route.
    IntegrityCheckOnModificationsFailed,
    /// An operation of an intermediary isn't allowed.
    ModificationsInstructionsFailed,
}

impl ErrorType {
    /// The word that a report has for it.
    pub fn name(self) -> &'static str
        ensures { result.now ≡ type_text (type_view self) }
    {
        match self {
            ErrorType::ContextNotFound => "CONTEXT_NOT_FOUND",
            ErrorType::DecipheringFailed => "DECIPHERING_FAILED",
            ErrorType::IntegrityCheckFailed => "INTEGRITY_CHECK_FAILED",
            ErrorType::MessageReconstructionFailed => "MESSAGE_RECONSTRUCTION_FAILED",
            ErrorType::PolicyMismatch => "POLICY_MISMATCH",
            ErrorType::IntegrityCheckOnModificationsFailed => {
                "INTEGRITY_CHECK_ON_MODIFICATIONS_FAILED"
            }
            ErrorType::ModificationsInstructionsFailed => "MODIFICATIONS_INSTRUCTIONS_FAILED",
        }
    }

    /// The type of a word, or `None` exactly for a word that is none of theirs.
    pub(crate) fn named(word: &str) -> Option<ErrorType>
        ensures { option_map type_view result ≡ type_of word.now }
    {
        if word == "CONTEXT_NOT_FOUND" {
            Some(ErrorType::ContextNotFound)
        } else if word == "DECIPHERING_FAILED" {
            Some(ErrorType::DecipheringFailed)
        } else if word == "INTEGRITY_CHECK_FAILED" {
            Some(ErrorType::IntegrityCheckFailed)
        } else if word == "MESSAGE_RECONSTRUCTION_FAILED" {
            Some(ErrorType::MessageReconstructionFailed)
        } else if word == "POLICY_MISMATCH" {
            Some(ErrorType::PolicyMismatch)
        } else if word == "INTEGRITY_CHECK_ON_MODIFICATIONS_FAILED" {
            Some(ErrorType::IntegrityCheckOnModificationsFailed)
        } else if word == "MODIFICATIONS_INSTRUCTIONS_FAILED" {
            Some(ErrorType::ModificationsInstructionsFailed)
        } else {
            None
        }
    }

    /// The type that refusal `number` is reported as, or `None` exactly where it has no report.
    pub(crate) fn of_refusal(number: u16) -> Option<ErrorType>
        ensures { option_map type_view result ≡ type_for number }
    {
        match number {
            21 => Some(ErrorType::ContextNotFound),
            23 => Some(ErrorType::DecipheringFailed),
            24 => Some(ErrorType::IntegrityCheckFailed),
            25 | 26 | 38 => Some(ErrorType::MessageReconstructionFailed),
            27 | 33 => Some(ErrorType::PolicyMismatch),
            28..=31 => Some(ErrorType::IntegrityCheckOnModificationsFailed),
            32 => Some(ErrorType::ModificationsInstructionsFailed),
            _ => None,
        }
    }
}
