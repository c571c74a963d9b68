//! A report.

use crate::error_type::ErrorType;
use n32_values::{Hex64, Text};

/// What a SEPP tells its peer of a message that it refused (`N32fErrorInfo` of TS 29.573 clause 6.1.5 in outline).
#[derive(Drop)]
pub struct Report {
    /// The id of the context, as the refused message named it.
    pub context: Hex64,
    /// The id of the refused message.
    pub message: Hex64,
    /// What went wrong.
    pub error: ErrorType,
    /// The identity of the intermediary whose modifications failed, where one is named.
    pub entry: Option<Text>,
}
