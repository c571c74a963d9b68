//! The word `blocks`: each request document of a script is answered by its integrity-protected block under the empty policy, or
//! by the first refusal. It keeps nothing from line to line, and needs no node, no context and no record.
#![tactic(auto)]

mod answering;
mod running;

pub use answering::answer;
pub use running::run;
