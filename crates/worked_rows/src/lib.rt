//! Rows of worked calls: each line of a program's input is a row, as `{"call":"depth","text":"[[]]","is":2}`. A
//! program's `Calls` make the call of that name with these arguments, and the answer says whether it gives what
//! the row wants.
#![tactic(auto)]

mod args;
mod given;
mod nodes;
mod parts;
mod rows;

pub use args::{Args, number_of};
pub use given::{Given, request_in};
pub use nodes::{
    count_node, digits_node, fault_node, id_node, map_node, member_node, number_node,
    number_or_null, pair_node, put_part, text_node, words_of,
};
pub use rows::{Calls, answer_rows};
