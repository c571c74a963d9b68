//! The plaintext of a sealed message (after TS 33.501 clause 13.2.4.3.2): the list of values that the
//! holes of its block stand for.
ghost use Rattle.std.specs.Prelude.{◌≡◌, ◌≤◌, Some, None, Err, IfOk, option_map};
ghost use Rattle.spec_documents.specs.Tree.{items_depth, trees, items_in};
ghost use Rattle.n32_values.specs.View.{tree_of};
ghost use Rattle.spec_messages.specs.Steps.{InOrder};
ghost use Rattle.spec_sealing.specs.Plaintext.{plaintext, values_in, values_of};

use doc_forms::put;
use n32_values::{Bytes, DocFault, NoMemory, Node, NodeList, NodeMap, doc_text, read_doc};
use spec_documents::readings::documents_are_read;
use std::alloc::Global;

/// Why bytes give no values.
#[derive(Clone, Copy, Debug, PartialEq, Eq, Drop)]
pub enum ValuesRead {
    /// They are no document whose numbers are whole, or it is neither a list nor an object with a list
    /// at `dataToEncrypt`.
    NoList,
    /// Memory was refused.
    NoMemory,
}

/// The values of a plaintext: a bare list, or the list at `dataToEncrypt` of an object, whose other
/// members are ignored. Their names are in order. `NoList` comes exactly where the definition gives none.
#[tactic(auto, using(crate::proofs::OrderedValues::values_ordered))]
pub fn read_values(alloc: Global, bytes: &[u8]) -> Result<NodeList, ValuesRead>
    ensures values { IfOk result (λ vs. values_of bytes.now ≡ Some vs) }
    ensures none { result ≡ Err ValuesRead.NoList → values_of bytes.now ≡ None }
    ensures ordered { IfOk result (λ vs. InOrder vs) }
{
    match read_doc(alloc, bytes) {
        Ok(doc) => {
            let _known = doc.node();
            match values_in(doc.into_node()) {
                Some(values) => Ok(values),
                None => Err(ValuesRead::NoList),
            }
        }
        Err(DocFault::Syntax) => Err(ValuesRead::NoList),
        Err(DocFault::Number) => Err(ValuesRead::NoList),
        Err(DocFault::NoMemory) => Err(ValuesRead::NoMemory),
    }
}

#[tactic(auto, using(spec_documents::proofs::FieldLemmas::views))]
fn values_in(node: Node) -> Option<NodeList>
    ensures { result ≡ values_in (tree_of node) }
{
    match node {
        Node::Items(values) => Some(values),
        Node::Members(mut object) => listed(object.take("dataToEncrypt")),
        _ => None,
    }
}

#[tactic(auto, using(spec_documents::proofs::FieldLemmas::views))]
fn listed(member: Option<Node>) -> Option<NodeList>
    ensures { result ≡ items_in (option_map tree_of member) }
{
    match member {
        Some(Node::Items(values)) => Some(values),
        _ => None,
    }
}

/// The plaintext of a list of values: the compact text of `{"dataToEncrypt":[..]}`. It is read to the
/// values where each of these nests at most 125 deep. The values are moved.
pub fn values_text(alloc: Global, values: NodeList) -> Result<Bytes, NoMemory>
    ensures text { IfOk result (λ b. b ≡ plaintext values) }
    ensures reads_back { IfOk result (λ b. items_depth (trees values) ≤ 125 → values_of b ≡ Some values) }
{
    documents_are_read();
    let mut object = NodeMap::new(alloc);
    put(alloc, &mut object, "dataToEncrypt", Node::Items(values))?;
    let text = doc_text(alloc, &Node::Members(object))?;
    Ok(text)
}
