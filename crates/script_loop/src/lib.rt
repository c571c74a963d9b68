//! The reading loop, once for every machine: it reads a script line by line and writes a machine's answer to each line.
//!
//! A line ends at a newline or at the end of input. A line of nothing but spaces, tabs and carriage returns counts
//! as a line and has no answer. How the source cuts the script into reads changes nothing.
#![tactic(auto)]

mod answer;
mod ending;
mod line_buffer;
mod lines;
mod machine;
mod script;

pub use answer::write_all;
pub use ending::Ending;
pub use line_buffer::LINE_LIMIT;
pub use machine::Machine;
pub use script::{SCRIPT_LIMIT, run};

#[cfg(test)]
mod tests;
