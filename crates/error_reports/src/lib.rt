//! Error reports (TS 29.573 clause 5.2.5 in outline): what a SEPP tells its peer of a message that it refused. The report
//! of a refusal is made, and a peer's report is read.
#![tactic(auto)]

mod error_type;
mod made;
mod read;
mod report;

pub use error_type::ErrorType;
pub use made::{ReportCause, report_of};
pub use read::{ReportRead, read_report};
pub use report::Report;
