// How long the compact text of a document is, known without printing it.
ghost use Rattle.std.specs.Prelude.{◌≡◌, ◌+◌, ◌-◌, ◌^◌, ◌<◌, ◌≤◌, min, length, nat_lt};
ghost use Rattle.std.specs.Fmt.{decimal, signed_decimal};
ghost use Rattle.json.specs.Print.{quoted, escape_byte};
ghost use Rattle.spec_documents.specs.Compact.{compact_text, comma_if};
ghost use Rattle.spec_documents.specs.Tree.{items, members, trees};
ghost use Rattle.n32_values.specs.View.{tree_of};
ghost use Rattle.n32_values.specs.Costs as spec;

use crate::node::{Node, NodeList, NodeMap};
use crate::whole::Whole;

/// How many bytes the compact text of a node has, as `doc_text` prints it. A greater
/// number than a `u64` holds is the greatest. It goes once over the node and takes no memory.
#[cycle(length)]
pub fn text_length(node: &Node) -> u64
    ensures { result ≡ min (length (compact_text (tree_of node.now))) (2 ^ 64 - 1) }
{
    match node {
        Node::Null => 4,
        Node::Truth(true) => 4,
        Node::Truth(false) => 5,
        Node::Whole(number) => whole_length(*number),
        Node::Words(text) => quoted_length(text.as_str()),
        Node::Items(list) => items_length(list),
        Node::Members(map) => members_length(map),
    }
}

/// Whether the compact text of a node has more bytes than a limit. A node whose texts are short enough,
/// however many of their bytes are escaped, isn't gone through byte by byte.
pub fn is_longer(node: &Node, limit: u32) -> bool
    ensures { result ≡ nat_lt limit (length (compact_text (tree_of node.now))) }
{
    let limit = limit as u64;
    limit < most_length(node) && limit < text_length(node)
}

// No fewer bytes than the compact text of a node has, or the greatest number: six for each byte of a text.
#[cycle(most)]
fn most_length(node: &Node) -> u64
    ensures { min (length (compact_text (tree_of node.now))) (2 ^ 64 - 1) ≤ result }
{
    match node {
        Node::Null => 4,
        Node::Truth(_) => 5,
        Node::Whole(number) => whole_length(*number),
        Node::Words(text) => most_quoted(text.as_str()),
        Node::Items(list) => most_items(list),
        Node::Members(map) => most_members(map),
    }
}

#[cycle(most)]
fn most_items(list: &NodeList) -> u64
    ensures { min (length (compact_text (items (trees list.now)))) (2 ^ 64 - 1) ≤ result }
{
    let mut total: u64 = 2;
    for i in 0..list.len() {
        total = total.saturating_add(most_length(list.item(i)).saturating_add(1));
    }
    total
}

#[cycle(most)]
fn most_members(map: &NodeMap) -> u64
    ensures { min (length (compact_text (members map.now))) (2 ^ 64 - 1) ≤ result }
{
    let mut total: u64 = 2;
    for i in 0..map.len() {
        let (name, node) = map.entry(i);
        let name = most_quoted(name.as_str()).saturating_add(2);
        total = total.saturating_add(name.saturating_add(most_length(node)));
    }
    total
}

fn most_quoted(text: &str) -> u64
    ensures { min (length (quoted text.now)) (2 ^ 64 - 1) ≤ result }
{
    (text.len() as u64).saturating_mul(6).saturating_add(2)
}

#[cycle(length)]
fn items_length(list: &NodeList) -> u64
    ensures { result ≡ min (length (compact_text (items (trees list.now)))) (2 ^ 64 - 1) }
{
    let mut total: u64 = 1;
    for i in 0..list.len() {
        total = with_part(total, i, text_length(list.item(i)));
    }
    total.saturating_add(1)
}

#[cycle(length)]
fn members_length(map: &NodeMap) -> u64
    ensures { result ≡ min (length (compact_text (members map.now))) (2 ^ 64 - 1) }
{
    let mut total: u64 = 1;
    for i in 0..map.len() {
        let (name, node) = map.entry(i);
        let member = quoted_length(name.as_str())
            .saturating_add(1)
            .saturating_add(text_length(node));
        total = with_part(total, i, member);
    }
    total.saturating_add(1)
}

// With a further part, before which a comma stands unless it is the first.
fn with_part(total: u64, i: usize, part: u64) -> u64
    ensures { result ≡ min (total + (length (comma_if (nat_lt 0 i)) + part)) (2 ^ 64 - 1) }
{
    if 0 < i {
        total.saturating_add(1).saturating_add(part)
    } else {
        total.saturating_add(part)
    }
}

fn quoted_length(text: &str) -> u64
    ensures { result ≡ min (length (quoted text.now)) (2 ^ 64 - 1) }
{
    let bytes = text.as_bytes();
    let mut total: u64 = 1;
    for i in 0..bytes.len() {
        total = total.saturating_add(byte_length(bytes[i]));
    }
    total.saturating_add(1)
}

// How many bytes stand for a byte of a string.
fn byte_length(byte: u8) -> u64
    ensures { result ≡ length (escape_byte byte) }
{
    byte_cost(byte)
}

// A quotation mark or backslash behind a backslash, a short escape, the byte itself, or `\u00xx`.
fn byte_cost(byte: u8) -> u64
    ensures { result ≡ spec.byte_cost byte }
{
    if byte == b'"' || byte == b'\\' || is_short_control(byte) {
        2
    } else if 32 <= byte {
        1
    } else {
        6
    }
}

fn is_short_control(byte: u8) -> bool
    ensures { result ≡ spec.is_short_control byte }
{
    byte == 8 || byte == 12 || byte == 10 || byte == 13 || byte == 9
}

fn whole_length(number: Whole) -> u64
    ensures { result ≡ length (signed_decimal number) }
{
    let value = number.value();
    if value < 0 {
        digit_count(value.unsigned_abs() as u64) + 1
    } else {
        digit_count(value as u64)
    }
}

// How many decimal digits a number has. Its definition counts at most 64, and a `u64` has at most 20.
fn digit_count(number: u64) -> u64
    ensures value { result ≡ length (decimal number) }
    ensures few { result ≤ 64 }
{
    let mut left = number;
    'digits: for turn in 0..64 {
        if left < 10 {
            return turn + 1;
        }
        left /= 10;
    }
    64
}
