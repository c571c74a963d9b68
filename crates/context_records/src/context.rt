// Contexts and their keys.
ghost use Rattle.std.specs.Prelude.{◌≡◌, length};
ghost use Rattle.spec_records.specs.Records as spec;
ghost use Rattle.context_records.specs.View.{key_set_view, key_view, one_key_view, suite_view};

use jwe_flat::{ContentKey, Suite};
use n32_values::{Hex64, PlmnId, Text, TextList};
use policy_documents::Policy;

/// A context of N32-f at a node (the N32-f context of TS 29.573 in outline): what it agreed on with its peer.
#[derive(Drop)]
pub struct Context {
    /// The name of the node.
    pub node: Text,
    /// The context's id at the node.
    pub id: Hex64,
    /// The name of the peer's node.
    pub peer_node: Text,
    /// The context's id at the peer.
    pub peer: Hex64,
    /// The network of the peer.
    pub plmn: PlmnId,
    /// The suite that documents are sealed with.
    pub suite: Suite,
    /// The policy that both go by.
    pub policy: Policy,
    /// The node's own intermediary, at most one.
    pub own_ipx: TextList,
    /// The peer's intermediary, at most one.
    pub peer_ipx: TextList,
}

/// A key with the salt that stands in front of each of its nonces.
#[derive(Drop)]
pub struct OneKey {
    /// The key.
    pub key: ContentKey,
    /// The salt, 8 bytes.
    pub salt: [u8; 8],
}

/// The keys of a context: one for each direction and kind of message.
#[derive(Drop)]
pub struct KeySet {
    /// For requests that are sent.
    pub send_request: OneKey,
    /// For responses that are sent.
    pub send_response: OneKey,
    /// For requests that are received.
    pub receive_request: OneKey,
    /// For responses that are received.
    pub receive_response: OneKey,
    /// The first sequence number of each kind.
    pub first: u32,
}

fn key_length(key: &ContentKey) -> usize
    ensures { result ≡ length (key_view key.now) }
{
    match key {
        ContentKey::Aes128(key) => key.key().len(),
        ContentKey::Aes256(key) => key.key().len(),
    }
}

fn suite_key_length(suite: Suite) -> usize
    ensures { result ≡ spec.key_length (suite_view suite) }
{
    match suite {
        Suite::A128Gcm => 16,
        Suite::A256Gcm => 32,
    }
}

impl OneKey {
    /// Whether the key has the length of the suite's keys.
    pub fn fits(&self, suite: Suite) -> bool
        ensures { result ≡ spec.key_fits (suite_view suite) (one_key_view self.now) }
    {
        key_length(&self.key) == suite_key_length(suite)
    }
}

impl KeySet {
    /// Whether each key has the length of the suite's keys.
    pub fn fits(&self, suite: Suite) -> bool
        ensures { result ≡ spec.keys_fit (suite_view suite) (key_set_view self.now) }
    {
        self.send_request.fits(suite)
            && self.send_response.fits(suite)
            && self.receive_request.fits(suite)
            && self.receive_response.fits(suite)
    }
}
