//! Writing an entry.

ghost use Rattle.std.specs.Prelude.{◌≡◌, ◌≤◌, Some, IfOk, IsErrOf, Ok, OnOk};
ghost use Rattle.spec_documents.specs.Compact.{compact_text};
ghost use Rattle.spec_documents.specs.Reading.{document_of};
ghost use Rattle.spec_documents.specs.Tree.{members, depth as nesting};
ghost use Rattle.n32_outside.specs.Causes.{Rose};
ghost use Rattle.n32_values.specs.View.{tree_of};
ghost use Rattle.spec_sealing.specs.Entries as spec;
ghost use Rattle.spec_sealing.specs.Jws.{jws_members};
ghost use Rattle.n32_outside.specs.Meanings.{Signs};
ghost use Rattle.jws_flat.specs.Signing.{IsSigned};

use crate::algorithm::header_text;
use crate::jws::signing_input;
use doc_forms::put;
use n32_outside::{OutFault, Signer};
use n32_values::{Bytes, Doc, NoMemory, Node, NodeMap, Text, base64url_text, copy_doc, doc_text};
use spec_documents::readings::documents_are_read;
use std::alloc::Global;

/// Why an entry isn't signed.
#[derive(Clone, Copy, Debug, PartialEq, Eq, Drop)]
pub enum SignFault {
    /// The signer failed.
    Signer,
    /// Memory was refused.
    NoMemory,
}

impl From<NoMemory> for SignFault {
    ghost use Rattle.std.specs.Prelude.{◌≡◌};
    ghost use Rattle.jws_flat.specs.declared.sign.SignFault.TheVariants.{NoMemory as refused_memory};

    ghost from_gives = { λ _ e. e ≡ refused_memory };

    fn from(_refused: NoMemory) -> SignFault {
        SignFault::NoMemory
    }
}

// The members of a payload. The operations are copied.
fn payload_map(
    alloc: Global,
    identity: &Text,
    operations: &Doc,
    tag: &Text,
) -> Result<NodeMap, NoMemory>
    ensures { IfOk result (λ m. m ≡ spec.payload_members identity.now operations.now tag.now) }
{
    let mut map = NodeMap::new(alloc);
    put(alloc, &mut map, "tag", Node::Words(tag.copy(alloc)?))?;
    put(
        alloc,
        &mut map,
        "operations",
        copy_doc(alloc, operations.node())?,
    )?;
    put(
        alloc,
        &mut map,
        "identity",
        Node::Words(identity.copy(alloc)?),
    )?;
    Ok(map)
}

// The text of a payload, whose JSON text is read to the payload.
fn payload_text(
    alloc: Global,
    identity: &Text,
    operations: &Doc,
    tag: &Text,
) -> Result<Text, NoMemory>
    requires { nesting operations.now ≤ 126 }
    ensures text { IfOk result (λ t. t ≡ spec.entry_payload identity.now operations.now tag.now) }
    ensures readable { OnOk result (document_of (compact_text (members (spec.payload_members identity.now operations.now tag.now))) ≡ Some (members (spec.payload_members identity.now operations.now tag.now))) }
{
    documents_are_read();
    let payload = Node::Members(payload_map(alloc, identity, operations, tag)?);
    let text = doc_text(alloc, &payload)?;
    base64url_text(alloc, text.as_slice())
}

// The document of an entry with these texts.
fn entry_node(
    alloc: Global,
    protected: Text,
    payload: Text,
    signature: &Bytes,
) -> Result<Node, NoMemory>
    ensures { IfOk result (λ n. tree_of n ≡ members (jws_members protected payload signature.now)) }
{
    let mut map = NodeMap::new(alloc);
    let signature = base64url_text(alloc, signature.as_slice())?;
    put(alloc, &mut map, "signature", Node::Words(signature))?;
    put(alloc, &mut map, "protected", Node::Words(protected))?;
    put(alloc, &mut map, "payload", Node::Words(payload))?;
    Ok(Node::Members(map))
}

// The signer's signature.
fn sign<G: Signer>(
    alloc: Global,
    signer: &mut G,
    identity: &Text,
    input: &Bytes,
) -> Result<Bytes, SignFault>
    ensures signature { IfOk result (λ s. Signs (G.meaning signer.old) (Ok s) (G.algorithm signer.old) identity.now input.now) }
    ensures same_meaning { G.meaning signer.new ≡ G.meaning signer.old }
    ensures same_algorithm { G.algorithm signer.new ≡ G.algorithm signer.old }
    ensures later { G.faults signer.old ≤ G.faults signer.new }
    ensures failed { IsErrOf result SignFault.Signer → Rose (G.faults signer.old) (G.faults signer.new) }
{
    match signer.sign(alloc, identity, input.as_slice()) {
        Ok(signature) => Ok(signature),
        Err(OutFault::Failed) => Err(SignFault::Signer),
        Err(OutFault::NoMemory) => Err(SignFault::NoMemory),
    }
}

/// Writes the entry of an identity with its operations, for the JWE whose tag has this text: its payload
/// has all three, and it is signed by the signer's algorithm for the identity. The operations are any
/// document that nests at most 126 deep, so that the payload is read again.
///
/// # Errors
/// `Signer` only where the signer failed, `NoMemory` where memory was refused.
#[tactic(auto, using(crate::proofs::Signed::signed_by))]
pub fn sign_entry<G: Signer>(
    alloc: Global,
    signer: &mut G,
    identity: &Text,
    operations: &Doc,
    tag: &Text,
) -> Result<Node, SignFault>
    requires { nesting operations.now ≤ 126 }
    ensures entry { IfOk result (λ e. IsSigned (G.meaning signer.old) (G.algorithm signer.old) identity.now operations.now tag.now (tree_of e)) }
    ensures readable { OnOk result (document_of (compact_text (members (spec.payload_members identity.now operations.now tag.now))) ≡ Some (members (spec.payload_members identity.now operations.now tag.now))) }
    ensures same_meaning { G.meaning signer.new ≡ G.meaning signer.old }
    ensures same_algorithm { G.algorithm signer.new ≡ G.algorithm signer.old }
    ensures later { G.faults signer.old ≤ G.faults signer.new }
    ensures failed { IsErrOf result SignFault.Signer → Rose (G.faults signer.old) (G.faults signer.new) }
{
    let protected = header_text(alloc, signer.alg())?;
    let payload = payload_text(alloc, identity, operations, tag)?;
    let input = signing_input(alloc, &protected, &payload)?;
    let signature = sign(alloc, signer, identity, &input)?;
    Ok(entry_node(alloc, protected, payload, &signature)?)
}
