//! The handshake of two SEPPs over N32-c (TS 29.573 clauses 5.2.2 to 5.2.4 in outline): a capability is chosen, suites,
//! policy and intermediaries are agreed on, and a context is opened at both sides, or ended.
#![tactic(auto)]

mod capability;
mod closing;
mod document;
mod fault;
mod finishing;
mod hands;
mod keeping;
mod lists;
mod member;
mod offer;
mod policies;
mod read;
mod refusal;
mod replying;
mod starting;
mod starts;
mod suites;
mod write;

pub use capability::{Capability, CapabilityList};
pub use closing::{ended, terminate};
pub use fault::HandFault;
pub use finishing::{Finished, finish};
pub use hands::Hands;
pub use lists::{read_capabilities, read_suites};
pub use member::HandMember;
pub use offer::Offer;
pub use refusal::HandRefusal;
pub use replying::{Replied, answer};
pub use starting::start;
pub use suites::SuiteList;
