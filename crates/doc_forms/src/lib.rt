//! What every reader and writer of this project's documents shares: the grammars of texts, texts cut
//! at a character, members looked up by name and grammar, holes, and the writers of members and numbers.
#![tactic(auto)]

mod cuts;
mod grammar;
mod holes;
mod lookup;
mod objects;
mod writers;

pub use cuts::cut;
pub use grammar::{
    Grammar, is_authority, is_header_name, is_header_value, is_id, is_identity, is_node_name,
    is_query_name, is_query_value, is_scheme, is_segment, is_token, is_version,
};
pub use holes::{hole_index, hole_node, push_hole, text_hole};
pub use lookup::text_at;
pub use objects::{lifted, members_in};
pub use writers::{number_text, put, put_text};
