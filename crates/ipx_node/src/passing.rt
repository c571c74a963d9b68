// Passing a document on.
ghost use Rattle.std.specs.Prelude.{◌≡◌, ◌≤◌, [], None, Ok, IfOk, IfErr, IsErrOf, IsOk, max, nat_le, length, unwrap_or};
ghost use Rattle.spec_documents.specs.Gives.{Gives};
ghost use Rattle.spec_documents.specs.Tree.{depth as nesting};
ghost use Rattle.n32_outside.specs.Causes.{Rose};
ghost use Rattle.n32_values.specs.View.{tree_of};
ghost use Rattle.prins_document.specs.View.{entries_of, part_told, wire_view};
ghost use Rattle.spec_sealing.specs.Passing.{tag_text, with_room};
ghost use Rattle.jwe_flat.specs.View.{jwe_view};
ghost use Rattle.jws_flat.specs.Signing.{IsSigned};
ghost use Rattle.ipx_node.specs.Passes.{Passes, form_told};

use crate::append::with_entry;
use jwe_flat::FlatJwe;
use jws_flat::{SignFault, sign_entry};
use n32_outside::Signer;
use n32_values::{Doc, NoMemory, Node, Text, base64url_text};
use prins_document::{WireDoc, WireMember, WireRead, entries, read_wire_doc};
use std::alloc::Global;

/// An intermediary, and what it does to the documents that it passes on.
#[derive(Drop)]
pub struct IpxConfig {
    /// Its identity.
    pub identity: Text,
    /// The operations of its entries, which are written as they are.
    pub operations: Doc,
}

/// Why a document isn't passed on.
#[derive(Clone, Copy, Debug, PartialEq, Eq, Drop)]
pub enum PassFault {
    /// The first part of the document that has not its form; `ModificationsBlock` too where two entries are
    /// there.
    Form(WireMember),
    /// The signer failed.
    Signer,
    /// Memory was refused.
    NoMemory,
}

impl From<NoMemory> for PassFault {
    ghost use Rattle.std.specs.Prelude.{◌≡◌};
    ghost use Rattle.ipx_node.specs.declared.passing.PassFault.TheVariants.{NoMemory as refused_memory};

    ghost from_gives = { λ _ e. e ≡ refused_memory };

    fn from(_refused: NoMemory) -> PassFault {
        PassFault::NoMemory
    }
}

// Whether two entries are there.
fn is_full(doc: &Doc) -> bool
    ensures { result ≡ nat_le 2 (length (unwrap_or (entries_of doc.now) [])) }
{
    match entries(doc) {
        Some(list) => 2 <= list.len(),
        None => false,
    }
}

// The parts of a document that has room for an entry.
#[tactic(auto, unfolding(spec_documents::specs::Chain::chains))]
fn read_with_room(alloc: Global, doc: &Doc) -> Result<WireDoc, WireRead>
    ensures { Gives part_told (wire_view doc.now) result (with_room doc.now) }
{
    let wire = read_wire_doc(alloc, doc)?;
    if is_full(doc) {
        return Err(WireRead::Form(WireMember::ModificationsBlock));
    }
    Ok(wire)
}

// The intermediary's entry for a JWE.
#[tactic(auto, using(crate::proofs::Deep::signed_depth))]
fn entry_for<G: Signer>(
    alloc: Global,
    jwe: &FlatJwe,
    config: &IpxConfig,
    signer: &mut G,
) -> Result<Node, PassFault>
    requires { nesting config.now.operations ≤ 126 }
    ensures entry { IfOk result (λ e. IsSigned (G.meaning signer.old) (G.algorithm signer.old) config.now.identity config.now.operations (tag_text (jwe_view jwe.now)) (tree_of e)) }
    ensures shallow { IfOk result (λ e. nesting (tree_of e) ≤ 1) }
    ensures formed { IfErr result (λ fault. form_told fault ≡ None) }
    ensures same_meaning { G.meaning signer.new ≡ G.meaning signer.old }
    ensures same_algorithm { G.algorithm signer.new ≡ G.algorithm signer.old }
    ensures later { G.faults signer.old ≤ G.faults signer.new }
    ensures failed { IsErrOf result PassFault.Signer → Rose (G.faults signer.old) (G.faults signer.new) }
{
    let tag = base64url_text(alloc, &jwe.tag)?;
    match sign_entry(alloc, signer, &config.identity, &config.operations, &tag) {
        Ok(entry) => Ok(entry),
        Err(SignFault::Signer) => Err(PassFault::Signer),
        Err(SignFault::NoMemory) => Err(PassFault::NoMemory),
    }
}

// Passes a document on that has room, and these parts.
#[tactic(auto, using(crate::proofs::Passed::not_passed))]
fn pass_read<G: Signer>(
    alloc: Global,
    doc: &Doc,
    wire: WireDoc,
    config: &IpxConfig,
    signer: &mut G,
) -> Result<Doc, PassFault>
    requires room { with_room doc.now ≡ Ok (wire_view doc.now wire) }
    requires shallow { nesting config.now.operations ≤ 126 }
    ensures passes { Passes (G.meaning signer.old) (G.algorithm signer.old) config.now.identity config.now.operations doc.now result }
    ensures depth { IfOk result (λ d. nesting d ≤ max (nesting doc.now) 3) }
    ensures same_meaning { G.meaning signer.new ≡ G.meaning signer.old }
    ensures same_algorithm { G.algorithm signer.new ≡ G.algorithm signer.old }
    ensures later { G.faults signer.old ≤ G.faults signer.new }
    ensures failed { IsErrOf result PassFault.Signer → Rose (G.faults signer.old) (G.faults signer.new) }
{
    let entry = entry_for(alloc, &wire.jwe, config, signer)?;
    Ok(with_entry(alloc, doc, entry)?)
}

/// Passes a document on: a copy of it with one entry more after those of `modificationsBlock`, which is
/// signed for the identity and bound to the tag of the document's JWE. All else is as it was. The
/// operations are any document that nests at most 126 deep, so that the entry's payload is read again.
///
/// # Errors
/// `Form` with the first part that has not its form, or `ModificationsBlock` where two entries are there,
/// exactly where there is such a part. `Signer` only where the signer failed, over a document that has room
/// for an entry. `NoMemory` where memory was refused.
#[tactic(auto, using(crate::proofs::Passed::not_passed))]
pub fn pass_on<G: Signer>(
    alloc: Global,
    doc: &Doc,
    config: &IpxConfig,
    signer: &mut G,
) -> Result<Doc, PassFault>
    requires { nesting config.now.operations ≤ 126 }
    ensures passes { Passes (G.meaning signer.old) (G.algorithm signer.old) config.now.identity config.now.operations doc.now result }
    ensures depth { IfOk result (λ d. nesting d ≤ max (nesting doc.now) 3) }
    ensures same_meaning { G.meaning signer.new ≡ G.meaning signer.old }
    ensures same_algorithm { G.algorithm signer.new ≡ G.algorithm signer.old }
    ensures later { G.faults signer.old ≤ G.faults signer.new }
    ensures failed { IsErrOf result PassFault.Signer → Rose (G.faults signer.old) (G.faults signer.new) }
    ensures asked { IsErrOf result PassFault.Signer → IsOk (with_room doc.now) }
{
    match read_with_room(alloc, doc) {
        Ok(wire) => pass_read(alloc, doc, wire, config, signer),
        Err(WireRead::Form(member)) => Err(PassFault::Form(member)),
        Err(WireRead::NoMemory) => Err(PassFault::NoMemory),
    }
}
