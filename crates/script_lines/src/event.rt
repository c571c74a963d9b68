// Events.
use crate::offer::HandedOffer;
use context_records::KeySet;
use json_patch6902::OpList;
use jwe_flat::Suite;
use n32_values::{Hex64, Node, PlmnId, Text, TextList, Whole};

/// A context that is handed in. Its policy is a document whose form is judged later.
#[derive(Drop)]
pub struct HandedContext {
    /// The name of the node.
    pub node: Text,
    /// The context's id at the node.
    pub id: Hex64,
    /// The name of the peer's node.
    pub peer_node: Text,
    /// The context's id at the peer.
    pub peer: Hex64,
    /// The network of the peer.
    pub plmn: PlmnId,
    /// The suite that documents are sealed with.
    pub suite: Suite,
    /// The document of the policy.
    pub policy: Node,
    /// The node's own intermediary, at most one.
    pub own_ipx: TextList,
    /// The peer's intermediary, at most one.
    pub peer_ipx: TextList,
}

/// What a line of a script asks for.
#[derive(Drop)]
pub enum Event {
    /// A SEPP begins to work.
    Node {
        /// Its name.
        node: Text,
        /// The network that it stands in.
        plmn: PlmnId,
    },
    /// A context is handed in.
    Context(HandedContext),
    /// The keys of a context are handed in.
    Keys {
        /// The name of the node.
        node: Text,
        /// The context's id at the node.
        id: Hex64,
        /// The keys.
        keys: KeySet,
    },
    /// A message is sent.
    Send {
        /// The name of the node.
        node: Text,
        /// The context's id at the node.
        id: Hex64,
        /// The document of the message.
        message: Node,
        /// The id of the request that it answers.
        answers: Option<Hex64>,
    },
    /// An intermediary passes a document on with an entry of its own.
    Pass {
        /// The identity of the intermediary.
        ipx: Text,
        /// The number of the document on the wire.
        wire: Whole,
        /// The operations of the entry, which nest at most 126 deep.
        operations: Node,
    },
    /// A document is put on the wire.
    Inject {
        /// The document.
        document: Node,
    },
    /// A document goes on the wire again, with operations applied.
    Alter {
        /// The number of the document on the wire.
        wire: Whole,
        /// The operations.
        operations: OpList,
    },
    /// A document on the wire reaches a node.
    Deliver {
        /// The name of the node.
        node: Text,
        /// The number of the document.
        wire: Whole,
    },
    /// A node begins anew.
    Restart {
        /// The name of the node.
        node: Text,
    },
    /// A report of its peer reaches a node.
    Reported {
        /// The name of the node.
        node: Text,
        /// The document of the report.
        document: Node,
    },
    /// A node starts a handshake with a peer.
    Start {
        /// The name of the node.
        node: Text,
        /// The name of the peer's node.
        peer: Text,
        /// What the node offers.
        offer: HandedOffer,
    },
    /// A document of a handshake reaches a node, which answers it.
    Answer {
        /// The name of the node.
        node: Text,
        /// The number of the document.
        wire: Whole,
        /// What the node offers.
        offer: HandedOffer,
    },
    /// A reply reaches a node that started a handshake.
    Finish {
        /// The name of the node.
        node: Text,
        /// The number of the document.
        wire: Whole,
    },
    /// A node ends a context.
    Terminate {
        /// The name of the node.
        node: Text,
        /// The context's id at the node.
        id: Hex64,
    },
    /// The end of a context reaches its other node.
    Ended {
        /// The name of the node.
        node: Text,
        /// The number of the document.
        wire: Whole,
    },
}
