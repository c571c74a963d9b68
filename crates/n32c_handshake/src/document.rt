// The documents that the calls take, as values.
use crate::capability::{Capability, CapabilityList};
use crate::suites::SuiteList;
use jwe_flat::Suite;
use n32_values::{Hex64, PlmnId, Text, TextList};
use policy_documents::Policy;

/// The parameters that an initiator asks for (`SecParamExchReqData` of TS 29.573 in outline).
#[derive(Drop)]
pub(crate) struct Ask {
    pub(crate) call: Hex64,
    pub(crate) sender: Text,
    pub(crate) id: Hex64,
    pub(crate) plmn: PlmnId,
    pub(crate) suites: SuiteList,
    pub(crate) policy: Policy,
    pub(crate) ipx: TextList,
}

/// The parameters that a responder has selected (`SecParamExchRspData` of TS 29.573 in outline).
#[derive(Drop)]
pub(crate) struct Selection {
    pub(crate) call: Hex64,
    pub(crate) sender: Text,
    pub(crate) id: Hex64,
    pub(crate) plmn: PlmnId,
    pub(crate) suite: Suite,
    pub(crate) policy: Policy,
    pub(crate) ipx: TextList,
}

/// A document of the handshake.
#[derive(Drop)]
pub(crate) enum HandDocument {
    /// The capabilities that the initiator has.
    Supports {
        call: Hex64,
        sender: Text,
        capabilities: CapabilityList,
    },
    /// The one that the responder has chosen.
    Chooses {
        call: Hex64,
        sender: Text,
        capability: Capability,
    },
    /// The parameters that are asked for.
    Asks(Ask),
    /// The parameters that are selected.
    Selects(Selection),
    /// The receiver's context of that id ends.
    Terminates(Hex64),
    /// The receiver's context of that id has ended.
    Terminated(Hex64),
}
