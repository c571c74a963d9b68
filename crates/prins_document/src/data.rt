// The JWE within a document.
ghost use Rattle.std.specs.Prelude.{codes, option_and_then};
ghost use Rattle.spec_documents.specs.Gives.{Gives};
ghost use Rattle.spec_documents.specs.Tree.{get_member};
ghost use Rattle.spec_messages.specs.Message.{wanted};
ghost use Rattle.n32_values.specs.View.{tree_of};
ghost use Rattle.spec_sealing.specs.Header.{object_in};
ghost use Rattle.spec_sealing.specs.Jwe.{jwe_in};
ghost use Rattle.jwe_flat.specs.View.{jwe_view};
ghost use Rattle.prins_document.specs.View.{part_told};

use crate::document::{WireMember, WireRead};
use jwe_flat::{FlatJwe, JweMember, JweRead, read_jwe_members};
use n32_values::{Node, NodeMap};
use std::alloc::Global;

// The members of a document.
pub(crate) fn members_in(node: &Node) -> Result<&NodeMap, WireRead>
    ensures { Gives part_told (λ m. m.now) result (wanted (object_in (tree_of node.now)) (codes "document")) }
{
    match node {
        Node::Members(map) => Ok(map),
        _ => Err(WireRead::Form(WireMember::Document)),
    }
}

// The object `reformattedData`.
pub(crate) fn data_in(map: &NodeMap) -> Result<&NodeMap, WireRead>
    ensures { Gives part_told (λ m. m.now) result (wanted (option_and_then object_in (get_member (codes "reformattedData") map.now)) (codes "reformattedData")) }
{
    match map.get("reformattedData") {
        Some(Node::Members(data)) => Ok(data),
        _ => Err(WireRead::Form(WireMember::Jwe(JweMember::Whole))),
    }
}

// The JWE that an object is of.
pub(crate) fn read_data(alloc: Global, map: &NodeMap) -> Result<FlatJwe, WireRead>
    ensures { Gives part_told jwe_view result (jwe_in map.now) }
{
    match read_jwe_members(alloc, map) {
        Ok(jwe) => Ok(jwe),
        Err(JweRead::Form(member)) => Err(WireRead::Form(WireMember::Jwe(member))),
        Err(JweRead::NoMemory) => Err(WireRead::NoMemory),
    }
}
