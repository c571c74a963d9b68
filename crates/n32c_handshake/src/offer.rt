use crate::capability::CapabilityList;
use crate::suites::SuiteList;
use n32_values::{Hex64, TextList};
use policy_documents::Policy;

/// What a node offers in a handshake.
#[derive(Drop)]
pub struct Offer {
    /// The id that its context is to have at the node.
    pub id: Hex64,
    /// The capabilities that it has.
    pub capabilities: CapabilityList,
    /// The suites that it has, the preferred one first.
    pub suites: SuiteList,
    /// The policy that it goes by.
    pub policy: Policy,
    /// Its own intermediary, at most one.
    pub ipx: TextList,
}
