// An entry more in a copy of a document.
ghost use Rattle.std.specs.Prelude.{◌≡◌, ◌≤◌, [], ◌∷◌, ◌++◌, IfOk, OnOk, codes, max, option_map, unwrap_or};
ghost use Rattle.spec_documents.specs.Tree.{null, items, members, trees, get_member, put_member, items_in, depth as nesting};
ghost use Rattle.spec_messages.specs.Block.{members_of};
ghost use Rattle.n32_values.specs.View.{tree_of};
ghost use Rattle.prins_document.specs.View.{entries_of};
ghost use Rattle.spec_sealing.specs.Passing.{with_entry};

use doc_forms::put;
use n32_values::{Doc, NoMemory, Node, NodeList, NodeMap, Text, copy_doc};
use std::alloc::Global;

const ENTRIES: &str = "modificationsBlock";

// A copy of the members of a document, none where it is no object.
fn copied_members(alloc: Global, doc: &Doc) -> Result<NodeMap, NoMemory>
    ensures members { IfOk result (λ m. m ≡ members_of doc.now) }
    ensures shallow { nesting doc.now ≤ 127 }
{
    match copy_doc(alloc, doc.node())? {
        Node::Members(map) => Ok(map),
        _ => Ok(NodeMap::new(alloc)),
    }
}

// The entries that a member holds, none where it is no list.
#[tactic(auto, using(spec_documents::proofs::FieldLemmas::views))]
fn entries_in(alloc: Global, member: Option<Node>) -> NodeList
    ensures { result ≡ unwrap_or (items_in (option_map tree_of member)) [] }
{
    match member {
        Some(Node::Items(list)) => list,
        _ => NodeList::new(alloc),
    }
}

// Takes out what stands at the entries' name, and leaves null there.
fn set_aside(alloc: Global, map: &mut NodeMap) -> Result<Option<Node>, NoMemory>
    ensures after { OnOk result (map.new ≡ put_member (codes "modificationsBlock") null map.old) }
    ensures earlier { IfOk result (λ o. option_map tree_of o ≡ get_member (codes "modificationsBlock") map.old) }
{
    let name = Text::from_text(alloc, ENTRIES)?;
    Ok(map.put(name, Node::Null)?)
}

// Puts an entry after the others.
fn append(alloc: Global, map: &mut NodeMap, entry: Node) -> Result<(), NoMemory>
    ensures { OnOk result (map.new ≡ put_member (codes "modificationsBlock") (items (trees (unwrap_or (items_in (get_member (codes "modificationsBlock") map.old)) [] ++ tree_of entry ∷ []))) map.old) }
{
    let earlier = set_aside(alloc, map)?;
    let mut list = entries_in(alloc, earlier);
    list.push(entry)?;
    put(alloc, map, ENTRIES, Node::Items(list))?;
    Ok(())
}

/// A copy of a document with an entry more after those of `modificationsBlock`.
#[tactic(auto, using(crate::proofs::Deep::entry_depth))]
pub(crate) fn with_entry(alloc: Global, doc: &Doc, entry: Node) -> Result<Doc, NoMemory>
    requires { nesting (tree_of entry) ≤ 1 }
    ensures whole { IfOk result (λ d. d ≡ with_entry doc.now (unwrap_or (entries_of doc.now) []) (tree_of entry)) }
    ensures depth { IfOk result (λ d. nesting d ≤ max (nesting doc.now) 3) }
{
    let mut map = copied_members(alloc, doc)?;
    append(alloc, &mut map, entry)?;
    Ok(Doc::from_shallow(Node::Members(map)))
}
