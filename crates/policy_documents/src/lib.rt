//! Protection policies (the data types of TS 29.573 clause 6.1.5 in outline): read from a document,
//! written to one, copied and compared.
#![tactic(auto)]

mod copy;
mod grants;
mod policy;
mod read;
mod same;
mod template;
mod words;
mod write;

pub use grants::Grants;
pub use policy::{
    Element, ElementList, Mapping, MappingList, Names, Pattern, PatternList, Policy, Target,
    TypeList,
};
pub use read::{PolicyRead, read_policy};
pub use same::{PolicyMatch, same_policy};
pub use words::{IeLoc, IeType};
pub use write::{mapping_doc, policy_doc};
