//! Nodes of the documents of lines.

ghost use Rattle.std.specs.Prelude.{◌≡◌, [], ◌∷◌, IfOk, OnOk};
ghost use Rattle.spec_documents.specs.Tree.{put_member, words};
ghost use Rattle.n32_values.specs.View.{tree_of};
ghost use Rattle.spec_exercise.specs.Documents as spec;

use doc_forms::put;
use n32_values::{NoMemory, Node, NodeList, NodeMap, Text, Whole};
use std::alloc::Global;

/// Puts a whole number at a name.
pub(crate) fn put_number(
    alloc: Global,
    map: &mut NodeMap,
    name: &str,
    number: u64,
) -> Result<(), NoMemory>
    ensures { OnOk result (map.new ≡ put_member name.now (spec.number_tree number) map.old) }
{
    put(alloc, map, name, Node::Whole(Whole::from_u64(number)))
}

/// The list of one node.
pub(crate) fn list_of_one(alloc: Global, node: Node) -> Result<Node, NoMemory>
    ensures { IfOk result (λ n. tree_of n ≡ spec.list_of (tree_of node ∷ [])) }
{
    let mut list = NodeList::new(alloc);
    list.push(node)?;
    Ok(Node::Items(list))
}

/// The list of one text.
pub(crate) fn list_of_text(alloc: Global, text: &str) -> Result<Node, NoMemory>
    ensures { IfOk result (λ n. tree_of n ≡ spec.list_of (words text.now ∷ [])) }
{
    list_of_one(alloc, Node::Words(Text::from_text(alloc, text)?))
}
