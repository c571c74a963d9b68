// The document that is sent.
ghost use Rattle.std.specs.Prelude.{◌≡◌, IfOk, [], Some, Ok};
ghost use Rattle.spec_documents.specs.Tree.{Tree};
ghost use Rattle.spec_sealing.specs.Forms.{HasParts, HasTexts};
ghost use Rattle.spec_sealing.specs.Received.{block_in, carrier, parts_of, received};
ghost use Rattle.jwe_flat.specs.View.{jwe_view};

use doc_forms::put;
use jwe_flat::{FlatJwe, jwe_doc};
use n32_values::{Doc, NoMemory, Node, NodeMap};
use spec_sealing::laws::carried_jwe_is_received;
use std::alloc::Global;

// The object with the one member `reformattedData`.
fn carrier_doc(alloc: Global, jwe: &FlatJwe) -> Result<Doc, NoMemory>
    ensures { IfOk result (λ d. d ≡ carrier (jwe_view jwe.now)) }
{
    let mut map = NodeMap::new(alloc);
    put(alloc, &mut map, "reformattedData", jwe_doc(alloc, jwe)?)?;
    Ok(Doc::from_shallow(Node::Members(map)))
}

/// The document of a JWE: an object with the one member `reformattedData`. A JWE whose texts have their form, with its block, is read
/// back of it.
pub fn wire_doc(alloc: Global, jwe: &FlatJwe) -> Result<Doc, NoMemory>
    ensures document { IfOk result (λ d. d ≡ carrier (jwe_view jwe.now)) }
    ensures back { IfOk result (λ d. (block : Tree) → HasParts (jwe_view jwe.now) → HasTexts (jwe_view jwe.now) → block_in jwe.now.aad ≡ Some block → received d ≡ Ok (parts_of (jwe_view jwe.now) block [])) }
{
    carried_jwe_is_received();
    let doc = carrier_doc(alloc, jwe)?;
    Ok(doc)
}
