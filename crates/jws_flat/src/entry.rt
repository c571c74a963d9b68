//! What the payload of a JWS says of an entry.

ghost use Rattle.std.specs.Prelude.{◌≡◌, ◌≤◌, Some, codes};
ghost use Rattle.spec_documents.specs.Gives.{Gives};
ghost use Rattle.spec_documents.specs.Tree.{members, get_member, depth as nesting};
ghost use Rattle.spec_messages.specs.Message.{text_at, wanted};
ghost use Rattle.n32_values.specs.View.{tree_of};
ghost use Rattle.spec_sealing.specs.Entries as spec;
ghost use Rattle.doc_forms.specs.Grammars.{test_of};
ghost use Rattle.jws_flat.specs.View.{changes_nothing, entry_view, member_name, member_told};

use crate::jws::FlatJws;
use crate::members::{EntryMember, JwsRead, payload_of, text_of};
use doc_forms::Grammar;
use json_patch6902::{OpsRead, read_ops};
use n32_values::{Doc, Node, NodeMap, Text};
use std::alloc::Global;

/// What an intermediary signs.
#[derive(Drop)]
pub struct Entry {
    /// The intermediary's identity.
    pub identity: Text,
    /// Its operations, a list that `read_ops` reads, where it has any.
    pub operations: Option<Doc>,
    /// The text of the tag of the JWE that the entry is for.
    pub tag: Text,
}

// Null and an empty list are no operations.
#[tactic(auto, using(crate::proofs::Operations::empty_list))]
fn changes_nothing(operations: &Node) -> bool
    ensures { result ≡ changes_nothing (tree_of operations.now) }
{
    match operations {
        Node::Null => true,
        Node::Items(list) => list.len() == 0,
        _ => false,
    }
}

#[tactic(auto, using(crate::proofs::Operations::operations_read))]
fn read_operations(alloc: Global, node: Node) -> Result<Option<Doc>, JwsRead>
    requires { nesting (tree_of node) ≤ 127 }
    ensures { Gives member_told (λ o. o) result (wanted (spec.operations_in (Some (tree_of node))) (codes "operations")) }
{
    if changes_nothing(&node) {
        return Ok(None);
    }
    match read_ops(alloc, &node) {
        Ok(_ops) => Ok(Some(Doc::from_shallow(node))),
        Err(OpsRead::Form(_number)) => Err(JwsRead::Form(EntryMember::Operations)),
        Err(OpsRead::NoMemory) => Err(JwsRead::NoMemory),
    }
}

// Takes `operations` out of a payload, which keeps its `tag`.
#[tactic(auto, using(crate::proofs::Operations::tag_stays, crate::proofs::Operations::taken_shallow))]
fn take_operations(alloc: Global, map: &mut NodeMap) -> Result<Option<Doc>, JwsRead>
    requires { nesting (members map.old) ≤ 127 }
    ensures operations { Gives member_told (λ o. o) result (wanted (spec.operations_in (get_member (codes "operations") map.old)) (codes "operations")) }
    ensures tag { get_member (codes "tag") map.new ≡ get_member (codes "tag") map.old }
{
    match map.take("operations") {
        Some(node) => read_operations(alloc, node),
        None => Ok(None),
    }
}

fn read_text(
    alloc: Global,
    map: &NodeMap,
    member: EntryMember,
    grammar: Grammar,
) -> Result<Text, JwsRead>
    ensures { Gives member_told (λ t. t) result (wanted (text_at (test_of grammar) (member_name member) map.now) (member_name member)) }
{
    let text = text_of(map, member, grammar)?;
    Ok(Text::from_text(alloc, text)?)
}

/// Reads the entry that the payload of a JWS says. Other members are ignored. Operations that are
/// absent, null or an empty list are none.
///
/// # Errors
/// `Form` with the first of `Payload`, `Identity`, `Operations` and `Tag` that has not its form. After
/// `read_jws` it is never `Payload`.
#[tactic(auto, unfolding(spec_documents::specs::Chain::chains))]
pub fn read_entry(alloc: Global, jws: &FlatJws) -> Result<Entry, JwsRead>
    ensures { Gives member_told entry_view result (spec.entry_of jws.now.payload) }
{
    let mut map = payload_of(alloc, jws.payload.as_str())?;
    let identity = read_text(alloc, &map, EntryMember::Identity, Grammar::Identity)?;
    let operations = take_operations(alloc, &mut map)?;
    let tag = read_text(alloc, &map, EntryMember::Tag, Grammar::Any)?;
    Ok(Entry {
        identity,
        operations,
        tag,
    })
}
