ghost use Rattle.spec_documents.specs.Tree.{is_tree, items as items_tree, members as members_tree, whole};
ghost use Rattle.std.specs.Prelude.{IsTrue, IfSome, ◌≡◌, ◌≢◌, Some, None, IfOk, IfErr};
ghost use Rattle.serde_json.specs.View.{view, number_view, items_view, members_view};
ghost use Rattle.serde_json.specs.Data.{Data};
ghost use Rattle.serde_json.specs.Errors.{IsMemory};
ghost use Rattle.serde_json.specs.Find.{as_integer};
ghost use Rattle.spec_documents.specs.Tree.{trees};
ghost use Rattle.n32_values.specs.View.{tree_of};
ghost use Rattle.spec_documents.specs.Reading.{tree_from, trees_from, members_from, HasReading, ReadsTo, HasOtherNumber, document_of};
ghost use Rattle.n32_values.specs.Faults.{NoDocument};

use crate::direct::{ReadingRoom, read_direct};
use crate::doc::Doc;
use crate::memory::NoMemory;
use crate::node::{Node, NodeList, NodeMap};
use crate::text::Text;
use crate::whole::Whole;
use serde_json::{Error, Map, Number, Value};
use spec_documents::readings::documents_are_read;
use std::alloc::Global;
use thiserror::Error;

// Why a value of `serde_json` is no node.
#[derive(Clone, Copy, Drop)]
enum Misfit {
    Number,
    NoMemory,
}

impl From<NoMemory> for Misfit {
    ghost use Rattle.n32_values.specs.declared.read.Misfit.TheVariants.{NoMemory as misfit_memory};
    ghost use Rattle.std.specs.Prelude.{◌≡◌};

    ghost from_gives = { λ _ e. e ≡ misfit_memory };

    fn from(_refused: NoMemory) -> Misfit {
        Misfit::NoMemory
    }
}

// Moves a value of `serde_json` into a node.
#[cycle(node_from)]
fn node_from(alloc: Global, value: Value) -> Result<Node, Misfit>
    ensures ok { IfOk result (λ n. tree_from (view value) ≡ Some (tree_of n)) }
    ensures tree { IfOk result (λ n. IsTrue (is_tree (tree_of n))) }
    ensures number { result ≡ Err Misfit.Number → tree_from (view value) ≡ None }
{
    match value {
        Value::Null => Ok(Node::Null),
        Value::Bool(b) => Ok(Node::Truth(b)),
        Value::Number(number) => match whole_from(number) {
            Some(whole) => Ok(Node::Whole(whole)),
            None => Err(Misfit::Number),
        },
        Value::String(text) => Ok(Node::Words(Text::from_string(text))),
        Value::Array(items) => Ok(Node::Items(list_from(alloc, items)?)),
        Value::Object(members) => Ok(Node::Members(map_from(alloc, members)?)),
    }
}

#[cycle(node_from)]
fn list_from(alloc: Global, items: Vec<Value>) -> Result<NodeList, Misfit>
    ensures ok { IfOk result (λ l. trees_from (items_view items.items) ≡ Some (trees l)) }
    ensures tree { IfOk result (λ l. IsTrue (is_tree (items_tree (trees l)))) }
    ensures number { result ≡ Err Misfit.Number → trees_from (items_view items.items) ≡ None }
{
    let mut list = NodeList::new(alloc);
    for item in items {
        list.push(node_from(alloc, item)?)?;
    }
    Ok(list)
}

#[cycle(node_from)]
fn map_from(alloc: Global, members: Map<String, Value>) -> Result<NodeMap, Misfit>
    ensures ok { IfOk result
        (λ m. members_from (members_view members.entries) ≡ Some m) }
    ensures tree { IfOk result (λ m. IsTrue (is_tree (members_tree m))) }
    ensures number { result ≡ Err Misfit.Number → members_from (members_view members.entries) ≡ None }
{
    let mut map = NodeMap::new(alloc);
    for (name, member) in members {
        let node = node_from(alloc, member)?;
        map.push_last(Text::from_string(name), node)?;
    }
    Ok(map)
}

fn whole_from(number: Number) -> Option<Whole>
    ensures value { result ≡ as_integer (number_view number) }
    ensures range { IfSome result (λ w. IsTrue (is_tree (whole w))) }
{
    match number.as_u64() {
        Some(value) => Some(Whole::from_u64(value)),
        None => match number.as_i64() {
            Some(value) => Some(Whole::from_i64(value)),
            None => None,
        },
    }
}

/// Why bytes are no document.
#[derive(Clone, Copy, Debug, PartialEq, Eq, Drop, Error)]
pub enum DocFault {
    /// `serde_json` has no reading of them: no JSON value (RFC 8259) in UTF-8, or one that nests deeper than 127.
    #[error("no JSON document")]
    Syntax,
    /// They are read, and a number is a float, `-0` or out of range.
    #[error("a number is not a whole number from -2^63 to 2^64 - 1")]
    Number,
    #[error("out of memory")]
    NoMemory,
}

/// The document that bytes are read to: one JSON value (RFC 8259). Of two members of one name the last one stands.
/// Bytes are read by way of `serde_json` only where they are no document, to tell why.
pub fn read_doc(alloc: Global, bytes: &[u8]) -> Result<Doc, DocFault>
    ensures tree { IfOk result (ReadsTo bytes.now) }
    ensures syntax { result ≡ Err DocFault.Syntax → (d : Data) → HasReading bytes.now d → ⊥ }
    ensures number { result ≡ Err DocFault.Number → HasOtherNumber bytes.now }
    ensures document { IfOk result (λ d. document_of bytes.now ≡ Some d) }
    ensures none { IfErr result (λ why. NoDocument why (document_of bytes.now)) }
{
    let mut room = ReadingRoom::new(alloc);
    read_doc_in(alloc, bytes, &mut room)
}

/// The document that bytes are read to, as `read_doc` reads it, in room that is kept from one reading to the next.
pub fn read_doc_in(alloc: Global, bytes: &[u8], room: &mut ReadingRoom) -> Result<Doc, DocFault>
    ensures tree { IfOk result (ReadsTo bytes.now) }
    ensures syntax { result ≡ Err DocFault.Syntax → (d : Data) → HasReading bytes.now d → ⊥ }
    ensures number { result ≡ Err DocFault.Number → HasOtherNumber bytes.now }
    ensures document { IfOk result (λ d. document_of bytes.now ≡ Some d) }
    ensures none { IfErr result (λ why. NoDocument why (document_of bytes.now)) }
{
    documents_are_read();
    if let Some(doc) = read_direct(alloc, bytes, room) {
        return Ok(doc);
    }
    let value = match Value::from_slice(alloc, bytes) {
        Ok(value) => value,
        Err(error) => return Err(fault_of(&error)),
    };
    match node_from(alloc, value) {
        Ok(node) => Ok(Doc::of_shallow(node)),
        Err(Misfit::Number) => Err(DocFault::Number),
        Err(Misfit::NoMemory) => Err(DocFault::NoMemory),
    }
}

fn fault_of(error: &Error) -> DocFault
    ensures never { result ≢ DocFault.Number }
    ensures syntax { result ≡ DocFault.Syntax → ¬ IsMemory error.now }
{
    if error.is_memory() {
        DocFault::NoMemory
    } else {
        DocFault::Syntax
    }
}
