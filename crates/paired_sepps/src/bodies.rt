// The body of a message is a document: its texts are UTF-8, its numbers in range, and its names in order. Each
// function gives this fact and changes nothing.
ghost use Rattle.std.specs.Prelude.{IsTrue};
ghost use Rattle.spec_documents.specs.Tree.{items, members, trees};
ghost use Rattle.spec_documents.specs.Document.{IsDocument};
ghost use Rattle.spec_messages.specs.Block.{is_ordered_body};
ghost use Rattle.n32_values.specs.View.{tree_of};
ghost use Rattle.paired_sepps.specs.Untouched.{IsBodyDocument};

use n32_values::{Doc, Node, NodeList, NodeMap};

#[cycle(walk)]
fn is_document(node: &Node)
    ensures { IsDocument (tree_of node.now) }
{
    match node {
        Node::Whole(number) => {
            let _in_range = number.value();
        }
        Node::Words(text) => {
            let _utf8 = text.as_str();
        }
        Node::Items(list) => are_documents(list),
        Node::Members(map) => are_members(map),
        _ => {}
    }
}

#[cycle(walk)]
fn are_documents(list: &NodeList)
    ensures { IsDocument (items (trees list.now)) }
{
    for i in 0..list.len() {
        is_document(list.item(i));
    }
}

#[tactic(auto, using(spec_documents::proofs::FieldLemmas::views))]
#[cycle(walk)]
fn are_members(map: &NodeMap)
    ensures { IsDocument (members map.now) }
{
    for i in 0..map.len() {
        let (name, node) = map.entry(i);
        let _utf8 = name.as_str();
        is_document(node);
    }
}

// A body is a document with its names in order.
pub(crate) fn body_is_document(body: &Option<Doc>)
    ensures document { IsBodyDocument body.now }
    ensures ordered { IsTrue (is_ordered_body body.now) }
{
    if let Some(doc) = body {
        is_document(doc.node());
    }
}
