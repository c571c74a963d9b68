//! The script of `exercise N`, made line by line, and the summary of its answers.
#![tactic(auto)]

mod line;
mod opening;
mod printing;
mod script;
mod summary;
mod turn;
mod turns;
mod values;

pub use line::{Line, Sepp};
pub use printing::line_text;
pub use script::Script;
pub use summary::Summary;
