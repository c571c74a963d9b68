//! A JWS, and what is signed of it.

ghost use Rattle.std.specs.Prelude.{◌≡◌, IfOk, codes};
ghost use Rattle.spec_documents.specs.Gives.{Gives};
ghost use Rattle.spec_messages.specs.Message.{any_text, text_at, wanted};
ghost use Rattle.n32_values.specs.View.{tree_of};
ghost use Rattle.spec_sealing.specs.Header.{object_in};
ghost use Rattle.spec_sealing.specs.Jwe.{bytes_at, text_with};
ghost use Rattle.spec_sealing.specs.Jws as spec;
ghost use Rattle.jws_flat.specs.View.{jws_view, member_told};

use crate::algorithm::read_algorithm;
use crate::members::{EntryMember, JwsRead, payload_of, text_of};
use doc_forms::Grammar;
use n32_outside::JwsAlg;
use n32_values::{B64Fault, Bytes, NoMemory, Node, NodeMap, Text, read_base64url};
use std::alloc::Global;

/// A flattened JWS (RFC 7515, section 7.2.2).
#[derive(Drop)]
pub struct FlatJws {
    /// The base64url text of the protected header, as received.
    pub protected: Text,
    /// The base64url text of the payload, as received.
    pub payload: Text,
    /// The algorithm that the header names.
    pub alg: JwsAlg,
    /// The bytes of the signature.
    pub signature: Bytes,
}

// The members of an entry's document.
fn members_in(node: &Node) -> Result<&NodeMap, JwsRead>
    ensures { Gives member_told (λ m. m.now) result (wanted (object_in (tree_of node.now)) (codes "entry")) }
{
    match node {
        Node::Members(map) => Ok(map),
        _ => Err(JwsRead::Form(EntryMember::Whole)),
    }
}

// The text of `payload`, which is that of an object.
fn read_payload(alloc: Global, map: &NodeMap) -> Result<Text, JwsRead>
    ensures { Gives member_told (λ t. t) result (wanted (text_with spec.payload_in (text_at any_text (codes "payload") map.now)) (codes "payload")) }
{
    let text = text_of(map, EntryMember::Payload, Grammar::Any)?;
    match payload_of(alloc, text) {
        Ok(_object) => Ok(Text::from_text(alloc, text)?),
        Err(fault) => Err(fault),
    }
}

fn read_signature(alloc: Global, map: &NodeMap) -> Result<Bytes, JwsRead>
    ensures { Gives member_told (λ b. b) result (wanted (bytes_at (codes "signature") map.now) (codes "signature")) }
{
    let text = text_of(map, EntryMember::Signature, Grammar::Any)?;
    match read_base64url(alloc, text) {
        Ok(bytes) => Ok(bytes),
        Err(B64Fault::NotText) => Err(JwsRead::Form(EntryMember::Signature)),
        Err(B64Fault::NoMemory) => Err(JwsRead::NoMemory),
    }
}

/// Reads the JWS of an entry. The texts of `protected` and `payload` are kept as they stand. A member
/// `header` and others are ignored.
///
/// # Errors
/// `Form` with the first of `Whole`, `Protected`, `Payload` and `Signature` that has not its form.
#[tactic(auto, unfolding(spec_documents::specs::Chain::chains))]
pub fn read_jws(alloc: Global, node: &Node) -> Result<FlatJws, JwsRead>
    ensures { Gives member_told jws_view result (spec.jws_in (tree_of node.now)) }
{
    let map = members_in(node)?;
    let protected = text_of(map, EntryMember::Protected, Grammar::Any)?;
    let alg = read_algorithm(alloc, protected)?;
    let payload = read_payload(alloc, map)?;
    let signature = read_signature(alloc, map)?;
    Ok(FlatJws {
        protected: Text::from_text(alloc, protected)?,
        payload,
        alg,
        signature,
    })
}

/// What is signed (RFC 7515, section 5.1, step 5): the text of the protected header, a full stop, and the
/// text of the payload, each as it stands.
///
/// # Errors
/// `NoMemory` where memory was refused.
pub fn signing_input(alloc: Global, protected: &Text, payload: &Text) -> Result<Bytes, NoMemory>
    ensures { IfOk result (λ b. b ≡ spec.signing_input protected.now payload.now) }
{
    let protected = protected.as_str();
    let payload = payload.as_str();
    let text = format!(in alloc; "{protected}.{payload}")?;
    Ok(Bytes::from_vec(text.into_bytes()))
}
