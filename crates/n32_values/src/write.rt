ghost use Rattle.std.specs.Prelude.{◌≡◌, ◌≤◌, ◌++◌, IfOk, OnOk};
ghost use Rattle.spec_documents.specs.Tree.{whole, items, members, trees, depth as nesting};
ghost use Rattle.spec_documents.specs.Whole.{IsWhole};
ghost use Rattle.spec_documents.specs.Document.{IsDocument};
ghost use Rattle.spec_documents.specs.Reading.{ReadsTo};
ghost use Rattle.n32_values.specs.View.{tree_of};
ghost use Rattle.spec_documents.specs.Compact.{compact_text};
ghost use Rattle.spec_documents.specs.Tokens.{tree_tokens, items_tokens, members_tokens};

use crate::bytes::Bytes;
use crate::memory::NoMemory;
use crate::node::{Node, NodeList, NodeMap};
use crate::whole::Whole;
use json::Writer;
use std::alloc::Global;

// The room that a text has at first, which most lines find enough.
const ROOM: usize = 1024;

/// The compact text of a node: no spaces, members in byte order of their names. Up to depth 127 it is read back to the same tree.
pub fn doc_text(alloc: Global, node: &Node) -> Result<Bytes, NoMemory>
    ensures text { IfOk result (λ b. b ≡ compact_text (tree_of node.now)) }
    ensures reads_back { IfOk result
        (λ b. nesting (tree_of node.now) ≤ 127 → ReadsTo b (tree_of node.now)) }
{
    let mut out = Writer::new(Vec::with_capacity(alloc, ROOM)?);
    write(node, &mut out)?;
    Ok(Bytes::from_vec(out.into_inner()))
}

#[cycle(write)]
fn write(node: &Node, out: &mut Writer) -> Result<(), NoMemory>
    ensures ok { OnOk result (out.new.tokens ≡ out.old.tokens ++ tree_tokens (tree_of node.now)) }
    ensures valid { OnOk result (IsDocument (tree_of node.now)) }
    ensures before { out.new.before ≡ out.old.before }
{
    match node {
        Node::Null => out.null()?,
        Node::Truth(b) => out.boolean(*b)?,
        Node::Whole(number) => write_whole(number, out)?,
        Node::Words(text) => out.string(text.as_str())?,
        Node::Items(list) => {
            out.begin_array()?;
            write_items(list, out)?;
        }
        Node::Members(map) => {
            out.begin_object()?;
            write_members(map, out)?;
        }
    }
    Ok(())
}

#[cycle(write)]
fn write_items(list: &NodeList, out: &mut Writer) -> Result<(), NoMemory>
    ensures ok { OnOk result (out.new.tokens ≡ out.old.tokens ++ items_tokens (trees list.now)) }
    ensures valid { OnOk result (IsDocument (items (trees list.now))) }
    ensures before { out.new.before ≡ out.old.before }
{
    for i in 0..list.len() {
        write(list.item(i), out)?;
    }
    out.end_array()?;
    Ok(())
}

#[tactic(auto, using(spec_documents::proofs::FieldLemmas::views))]
#[cycle(write)]
fn write_members(map: &NodeMap, out: &mut Writer) -> Result<(), NoMemory>
    ensures ok { OnOk result
        (out.new.tokens ≡ out.old.tokens ++ members_tokens map.now) }
    ensures valid { OnOk result (IsDocument (members map.now)) }
    ensures before { out.new.before ≡ out.old.before }
{
    for i in 0..map.len() {
        let (name, node) = map.entry(i);
        out.key(name.as_str())?;
        write(node, out)?;
    }
    out.end_object()?;
    Ok(())
}

fn write_whole(number: &Whole, out: &mut Writer) -> Result<(), NoMemory>
    ensures ok { OnOk result (out.new.tokens ≡ out.old.tokens ++ tree_tokens (whole number.now)) }
    ensures valid { IsWhole number.now }
    ensures before { out.new.before ≡ out.old.before }
{
    let value = number.value();
    if value < 0 {
        out.i64(value as i64)?;
    } else {
        out.u64(value as u64)?;
    }
    Ok(())
}
