//! Which parts of a message are secret under a policy, and which an intermediary may modify (TS 33.501
//! clause 13.2 in outline).
#![tactic(auto)]

mod address;
mod body;
mod covering;
mod mapping;
mod message_mapping;
mod modifiable;
mod rules;
mod secret;

pub use address::{Address, LinePart, address_text};
pub use mapping::mapping_of;
pub use message_mapping::mapping_for;
pub use modifiable::is_modifiable;
pub use policy_documents::{
    Element, ElementList, Grants, IeLoc, IeType, Mapping, MappingList, Names, Pattern, PatternList,
    Policy, PolicyMatch, PolicyRead, Target, TypeList, mapping_doc, policy_doc, read_policy,
    same_policy,
};
pub use rules::{Covering, Rules};
pub use secret::{is_secret, is_secret_header, is_secret_node, is_secret_pair, is_secret_segment};
