// The operations of a patch's document, or its first item that is none.
ghost use Rattle.std.specs.Prelude.{◌≡◌, ◌≤◌, map as list_map, option_map, length};
ghost use Rattle.spec_documents.specs.Gives.{Gives};
ghost use Rattle.spec_documents.specs.Operations as spec;
ghost use Rattle.n32_values.specs.View.{tree_of};
ghost use Rattle.json_patch6902.specs.View.{op_view, told};

use crate::op::{Op, OpList};
use json_ptr::{Pointer, PointerRead, read_pointer};
use n32_values::{NoMemory, Node, NodeList, NodeMap, copy_doc};
use std::alloc::Global;

const MOST_OPS: usize = 64;

/// Why a node is no list of operations.
#[derive(Clone, Copy, Debug, PartialEq, Eq, Drop)]
pub enum OpsRead {
    /// The number of the first item that is no operation, from 1, or 0 where the node is no list or
    /// has more than 64 items.
    Form(u32),
    /// Memory was refused.
    NoMemory,
}

impl From<NoMemory> for OpsRead {
    ghost use Rattle.std.specs.Prelude.{◌≡◌};
    ghost use Rattle.json_patch6902.specs.declared.reading.OpsRead.TheVariants.{NoMemory as read_memory};

    ghost from_gives = { λ _ e. e ≡ read_memory };

    fn from(_refused: NoMemory) -> OpsRead {
        OpsRead::NoMemory
    }
}

fn pointer_in(alloc: Global, node: Option<&Node>, k: u32) -> Result<Pointer, OpsRead>
    ensures { Gives told (λ p. p) result (spec.pointer_in k (option_map (λ n. tree_of n.now) node.entry)) }
{
    let Some(Node::Words(text)) = node else {
        return Err(OpsRead::Form(k));
    };
    match read_pointer(alloc, text.as_str()) {
        Ok(pointer) => Ok(pointer),
        Err(PointerRead::Fault(_)) => Err(OpsRead::Form(k)),
        Err(PointerRead::NoMemory) => Err(OpsRead::NoMemory),
    }
}

fn value_in(alloc: Global, node: Option<&Node>, k: u32) -> Result<Node, OpsRead>
    ensures { Gives told tree_of result (spec.value_in k (option_map (λ n. tree_of n.now) node.entry)) }
{
    match node {
        Some(value) => Ok(copy_doc(alloc, value)?),
        None => Err(OpsRead::Form(k)),
    }
}

fn path_of(alloc: Global, map: &NodeMap, k: u32) -> Result<Pointer, OpsRead>
    ensures { Gives told (λ p. p) result (spec.path_of k map.now) }
{
    pointer_in(alloc, map.get("path"), k)
}

// The members `path` and `value`.
fn valued(alloc: Global, map: &NodeMap, k: u32) -> Result<(Pointer, Node), OpsRead>
    ensures { Gives told (λ m. (m.0, tree_of m.1)) result (spec.valued k map.now) }
{
    let path = path_of(alloc, map, k)?;
    let value = value_in(alloc, map.get("value"), k)?;
    Ok((path, value))
}

// The members `from` and `path`.
fn sourced(alloc: Global, map: &NodeMap, k: u32) -> Result<(Pointer, Pointer), OpsRead>
    ensures { Gives told (λ m. m) result (spec.sourced k map.now) }
{
    let from = pointer_in(alloc, map.get("from"), k)?;
    let path = path_of(alloc, map, k)?;
    Ok((from, path))
}

fn read_named(alloc: Global, name: &str, map: &NodeMap, k: u32) -> Result<Op, OpsRead>
    ensures { Gives told op_view result (spec.op_named name.now k map.now) }
{
    match name {
        "add" => {
            let (path, value) = valued(alloc, map, k)?;
            Ok(Op::Add { path, value })
        }
        "remove" => {
            let path = path_of(alloc, map, k)?;
            Ok(Op::Remove { path })
        }
        "replace" => {
            let (path, value) = valued(alloc, map, k)?;
            Ok(Op::Replace { path, value })
        }
        "move" => {
            let (from, path) = sourced(alloc, map, k)?;
            Ok(Op::Move { from, path })
        }
        "copy" => {
            let (from, path) = sourced(alloc, map, k)?;
            Ok(Op::Copy { from, path })
        }
        "test" => {
            let (path, value) = valued(alloc, map, k)?;
            Ok(Op::Test { path, value })
        }
        _ => Err(OpsRead::Form(k)),
    }
}

fn read_op(alloc: Global, node: &Node, k: u32) -> Result<Op, OpsRead>
    ensures { Gives told op_view result (spec.op_of k (tree_of node.now)) }
{
    let Node::Members(map) = node else {
        return Err(OpsRead::Form(k));
    };
    let Some(Node::Words(name)) = map.get("op") else {
        return Err(OpsRead::Form(k));
    };
    read_named(alloc, name.as_str(), map, k)
}

fn read_list(alloc: Global, list: &NodeList) -> Result<OpList, OpsRead>
    requires { length list.now ≤ 64 }
    ensures { Gives told (list_map op_view) result (spec.ops_from 1 list.now) }
{
    let mut ops = OpList::new(alloc);
    for i in 0..list.len() {
        let k = i as u32 + 1;
        ops.push(read_op(alloc, list.item(i), k)?)?;
    }
    Ok(ops)
}

/// The operations of a patch (RFC 6902, section 3): a list of at most 64 objects with `op`, `path` and
/// what the operation wants, `value` or `from`. Other members are ignored.
///
/// # Errors
/// `Form` with the number of the first item that is no operation, from 1, or with 0 where the node is
/// no list or has more than 64 items, which is looked at first.
#[tactic(auto, using(spec_documents::proofs::FieldLemmas::views, spec_documents::proofs::FieldLemmas::item_words))]
pub fn read_ops(alloc: Global, node: &Node) -> Result<OpList, OpsRead>
    ensures { Gives told (list_map op_view) result (spec.ops_of (tree_of node.now)) }
{
    let Node::Items(list) = node else {
        return Err(OpsRead::Form(0));
    };
    if MOST_OPS < list.len() {
        return Err(OpsRead::Form(0));
    }
    read_list(alloc, list)
}
