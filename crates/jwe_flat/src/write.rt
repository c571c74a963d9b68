//! The document of a JWE.

ghost use Rattle.std.specs.Prelude.{◌≡◌, IfOk, Ok};
ghost use Rattle.spec_documents.specs.Tree.{words};
ghost use Rattle.spec_documents.specs.Base64url.{base64url};
ghost use Rattle.n32_values.specs.View.{tree_of};
ghost use Rattle.spec_sealing.specs.Forms.{HasParts, HasTexts};
ghost use Rattle.spec_sealing.specs.Jwe.{jwe_tree};
ghost use Rattle.jwe_flat.specs.Documents.{jwe_of};
ghost use Rattle.jwe_flat.specs.View.{jwe_view};

use crate::jwe::FlatJwe;
use doc_forms::put;
use n32_values::{NoMemory, Node, NodeMap, base64url_text};
use spec_sealing::laws::written_jwe_is_read;
use std::alloc::Global;

// A text that is base64url of bytes.
fn bytes_node(alloc: Global, bytes: &[u8]) -> Result<Node, NoMemory>
    ensures { IfOk result (λ n. tree_of n ≡ words (base64url bytes.now)) }
{
    Ok(Node::Words(base64url_text(alloc, bytes)?))
}

// The object of the five members of a JWE.
fn members_node(alloc: Global, jwe: &FlatJwe) -> Result<Node, NoMemory>
    ensures { IfOk result (λ n. tree_of n ≡ jwe_tree (jwe_view jwe.now)) }
{
    let mut map = NodeMap::new(alloc);
    let tag = bytes_node(alloc, &jwe.tag)?;
    let iv = bytes_node(alloc, &jwe.iv)?;
    let ciphertext = bytes_node(alloc, jwe.ciphertext.as_slice())?;
    put(alloc, &mut map, "tag", tag)?;
    put(
        alloc,
        &mut map,
        "protected",
        Node::Words(jwe.protected.copy(alloc)?),
    )?;
    put(alloc, &mut map, "iv", iv)?;
    put(alloc, &mut map, "ciphertext", ciphertext)?;
    put(alloc, &mut map, "aad", Node::Words(jwe.aad.copy(alloc)?))?;
    Ok(Node::Members(map))
}

/// The document of a JWE: an object of its five members and no others (RFC 7516, section 7.2.2). A JWE whose texts have their form is
/// read back of it.
pub fn jwe_doc(alloc: Global, jwe: &FlatJwe) -> Result<Node, NoMemory>
    ensures tree { IfOk result (λ n. tree_of n ≡ jwe_tree (jwe_view jwe.now)) }
    ensures back { IfOk result (λ n. HasParts (jwe_view jwe.now) → HasTexts (jwe_view jwe.now) → jwe_of (tree_of n) ≡ Ok (jwe_view jwe.now)) }
{
    written_jwe_is_read();
    let node = members_node(alloc, jwe)?;
    Ok(node)
}
