// An offer of an event.
use n32_values::{Hex64, Node, TextList};
use n32c_handshake::{CapabilityList, SuiteList};

/// What a node offers in a handshake. The policy is a document whose form is judged later.
#[derive(Drop)]
pub struct HandedOffer {
    /// The id that its context is to have at the node.
    pub id: Hex64,
    /// The capabilities that it has.
    pub capabilities: CapabilityList,
    /// The suites that it has, the preferred one first.
    pub suites: SuiteList,
    /// The document of the policy.
    pub policy: Node,
    /// Its own intermediary, at most one.
    pub ipx: TextList,
}
