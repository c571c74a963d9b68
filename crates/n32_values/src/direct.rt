// A document's bytes read straight into nodes. Where they are no document, or memory is refused, it gives up
// without saying why.
ghost use Rattle.std.specs.Prelude.{◌≡◌, ◌<◌, ◌==◌, IfOk, IfSome, IsTrue, OnOk, Some, length, option_and_then, slice_index, true, false};
ghost use Rattle.fast_float.specs.Text.{scan};
ghost use Rattle.json.specs.Json.{items, members, number, value};
ghost use Rattle.serde_json.specs.Find.{as_integer};
ghost use Rattle.serde_json.specs.Read.{converted, number_from, number_of, read as read_text};
ghost use Rattle.spec_documents.specs.Reading.{document_of, tree_from};
ghost use Rattle.spec_documents.specs.Tree.{no_members, put_member, trees};
ghost use Rattle.n32_values.specs.Direct.{members_json, tree_json, trees_json};
ghost use Rattle.n32_values.specs.View.{tree_of};

use crate::doc::Doc;
use crate::memory::NoMemory;
use crate::node::{Node, NodeList, NodeMap};
use crate::text::Text;
use crate::whole::Whole;
use fast_float::Numeral;
use json::{Invalid, Reader, Scratch, Token};
use spec_documents::readings::documents_are_read;
use std::alloc::Global;

const MAX_DEPTH: usize = 127;

// From so many members on, names have to come in order.
const MANY_MEMBERS: usize = 256;

// There is no document, or no memory.
#[derive(Clone, Copy, Drop)]
struct GaveUp;

impl From<NoMemory> for GaveUp {
    fn from(_refused: NoMemory) -> GaveUp {
        GaveUp
    }
}

impl From<Invalid> for GaveUp {
    fn from(_invalid: Invalid) -> GaveUp {
        GaveUp
    }
}

fn is_signed(bytes: &[u8]) -> bool
    ensures value { result ≡ (slice_index bytes.now 0 == 45) }
    ensures some { IsTrue result → 0 < length bytes.now }
{
    !bytes.is_empty() && bytes[0] == b'-'
}

fn below_zero(digits: &[u8]) -> Option<Whole>
    ensures { IfSome result (λ w. option_and_then as_integer (number_from true (scan digits.now)) ≡ Some w) }
{
    match Numeral::scan(digits).to_i64(true) {
        Some(value) if value < 0 => Some(Whole::from_i64(value)),
        _ => None,
    }
}

fn unsigned(digits: &[u8]) -> Option<Whole>
    ensures { IfSome result (λ w. option_and_then as_integer (number_from false (scan digits.now)) ≡ Some w) }
{
    match Numeral::scan(digits).to_u64() {
        Some(value) => Some(Whole::from_u64(value)),
        None => None,
    }
}

// The whole number that a number's text writes.
fn whole_in(text: &str) -> Option<Whole>
    ensures { IfSome result (λ w. option_and_then as_integer (number_of text.now) ≡ Some w) }
{
    let bytes = text.as_bytes();
    if is_signed(bytes) {
        below_zero(&bytes[1..])
    } else {
        unsigned(bytes)
    }
}

fn number_node(text: &str) -> Result<Node, GaveUp>
    ensures { IfOk result (λ n. tree_json (number text.now) ≡ Some (tree_of n)) }
{
    match whole_in(text) {
        Some(whole) => Ok(Node::Whole(whole)),
        None => Err(GaveUp),
    }
}

// The next value of the reader, in which lists and objects nest so deep at most.
#[cycle(direct)]
fn read_node(alloc: Global, reader: &mut Reader<'_>, depth: usize) -> Result<Node, GaveUp>
    ensures ok { IfOk result (λ n. converted tree_json (value depth reader.old) ≡ Some (tree_of n, reader.new)) }
    ensures shorter { OnOk result (length reader.new < length reader.old) }
{
    let token = reader.next().ok_or(GaveUp)?;
    match token {
        Token::String(text) => Ok(Node::Words(Text::from_text(alloc, text)?)),
        Token::Number(text) => Ok(number_node(text)?),
        Token::Bool(b) => Ok(Node::Truth(b)),
        Token::Null => Ok(Node::Null),
        Token::EndObject | Token::EndArray | Token::Key(_) | Token::Bad => Err(GaveUp),
        Token::BeginArray => {
            if depth == 0 {
                return Err(GaveUp);
            }
            Ok(Node::Items(read_items(alloc, reader, depth - 1)?))
        }
        Token::BeginObject => {
            if depth == 0 {
                return Err(GaveUp);
            }
            Ok(Node::Members(read_members(alloc, reader, depth - 1)?))
        }
    }
}

#[cycle(direct)]
fn read_items(alloc: Global, reader: &mut Reader<'_>, depth: usize) -> Result<NodeList, GaveUp>
    ensures ok { IfOk result
        (λ l. converted trees_json (items (value depth) (length reader.old) reader.old) ≡ Some (trees l, reader.new)) }
    ensures shorter { OnOk result (length reader.new < length reader.old) }
{
    let mut list = NodeList::new(alloc);
    'items: while !reader.take_end_array() {
        let item = read_node(alloc, reader, depth)?;
        list.push(item)?;
    }
    Ok(list)
}

// Whether a name comes after all others of a map.
fn goes_last(map: &NodeMap, name: &str) -> bool {
    match map.len() {
        0 => true,
        count => {
            let (last, _node) = map.entry(count - 1);
            last.as_str() < name
        }
    }
}

// Gives a name this node in the place of what it had. In an object of many members it gives up where names don't
// come in order, since each would move those behind it.
fn put(map: &mut NodeMap, name: Text, node: Node) -> Result<(), GaveUp>
    ensures { OnOk result (map.new ≡ put_member name (tree_of node) map.old) }
{
    if MANY_MEMBERS <= map.len() && !goes_last(map, name.as_str()) {
        return Err(GaveUp);
    }
    map.put(name, node)?;
    Ok(())
}

#[cycle(direct)]
fn read_members(alloc: Global, reader: &mut Reader<'_>, depth: usize) -> Result<NodeMap, GaveUp>
    ensures ok { IfOk result
        (λ m. converted (λ ms. members_json ms no_members) (members (value depth) (length reader.old) reader.old) ≡ Some (m, reader.new)) }
    ensures shorter { OnOk result (length reader.new < length reader.old) }
{
    let mut map = NodeMap::new(alloc);
    'members: while let Some(name) = reader.next_key()? {
        let key = Text::from_text(alloc, name)?;
        let member = read_node(alloc, reader, depth)?;
        put(&mut map, key, member)?;
    }
    Ok(map)
}

// The node of a text.
fn read_whole(alloc: Global, text: &str, scratch: &mut Scratch) -> Result<Node, GaveUp>
    ensures { IfOk result (λ n. option_and_then tree_from (read_text text.now) ≡ Some (tree_of n)) }
{
    let Ok(mut reader) = Reader::new(text, scratch) else {
        return Err(GaveUp);
    };
    let node = read_node(alloc, &mut reader, MAX_DEPTH)?;
    if reader.next().is_some() {
        return Err(GaveUp);
    }
    Ok(node)
}

/// Room for reading documents, which need not be made anew for each of them.
#[derive(Drop)]
pub struct ReadingRoom {
    scratch: Scratch,
}

impl ReadingRoom {
    /// It takes memory with the first document that is read.
    pub fn new(alloc: Global) -> ReadingRoom {
        ReadingRoom {
            scratch: Scratch::new(alloc),
        }
    }
}

/// The document of bytes, or `None` where they have none or memory is refused.
pub(crate) fn read_direct(alloc: Global, bytes: &[u8], room: &mut ReadingRoom) -> Option<Doc>
    ensures { IfSome result (λ d. document_of bytes.now ≡ Some d) }
{
    documents_are_read();
    let Ok(text) = simdutf8::compat::from_utf8(bytes) else {
        return None;
    };
    let Ok(node) = read_whole(alloc, text, &mut room.scratch) else {
        return None;
    };
    match Doc::new(node) {
        Ok(doc) => Some(doc),
        Err(_) => None,
    }
}
