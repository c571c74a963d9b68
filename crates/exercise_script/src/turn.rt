//! The documents of the lines of a turn.

ghost use Rattle.std.specs.Prelude.{◌≡◌, ◌++◌, IfOk, codes};
ghost use Rattle.std.specs.Fmt.{decimal};
ghost use Rattle.n32_values.specs.View.{tree_of};
ghost use Rattle.spec_exercise.specs.Documents as spec;

use crate::line::Sepp;
use crate::values::{list_of_one, put_number};
use doc_forms::{put, put_text};
use n32_values::{NoMemory, Node, NodeMap, Text};
use std::alloc::Global;

// The path of a turn's request.
fn path(alloc: Global, turn: u32) -> Result<Text, NoMemory>
    ensures { IfOk result (λ t. t ≡ codes "/n/v1/u/imsi-" ++ spec.fifteen_digits turn) }
{
    Ok(Text::from_string(format!(in alloc; "/n/v1/u/imsi-{turn:015}")?))
}

// The text that is encrypted.
fn secret(alloc: Global, drawn: u16) -> Result<Text, NoMemory>
    ensures { IfOk result (λ t. t ≡ codes "secret " ++ decimal drawn) }
{
    Ok(Text::from_string(format!(in alloc; "secret {drawn}")?))
}

fn body(alloc: Global, turn: u32, drawn: u16) -> Result<Node, NoMemory>
    ensures { IfOk result (λ n. tree_of n ≡ spec.body_tree turn drawn) }
{
    let mut map = NodeMap::new(alloc);
    put_number(alloc, &mut map, "t", u64::from(drawn))?;
    put(alloc, &mut map, "s", Node::Words(secret(alloc, drawn)?))?;
    put_number(alloc, &mut map, "i", u64::from(turn))?;
    Ok(Node::Members(map))
}

fn request_line(alloc: Global, turn: u32) -> Result<Node, NoMemory>
    ensures { IfOk result (λ n. tree_of n ≡ spec.request_line turn) }
{
    let mut map = NodeMap::new(alloc);
    put_text(alloc, &mut map, "scheme", "https")?;
    put_text(alloc, &mut map, "protocolVersion", "HTTP/2")?;
    put(alloc, &mut map, "path", Node::Words(path(alloc, turn)?))?;
    put_text(alloc, &mut map, "method", "POST")?;
    put_text(alloc, &mut map, "authority", "x.example")?;
    Ok(Node::Members(map))
}

fn message(alloc: Global, turn: u32, drawn: u16) -> Result<Node, NoMemory>
    ensures { IfOk result (λ n. tree_of n ≡ spec.message_tree turn drawn) }
{
    let mut map = NodeMap::new(alloc);
    put(alloc, &mut map, "requestLine", request_line(alloc, turn)?)?;
    put(alloc, &mut map, "body", body(alloc, turn, drawn)?)?;
    Ok(Node::Members(map))
}

/// The document that sends the request of a turn.
pub(crate) fn send_node(alloc: Global, turn: u32, drawn: u16) -> Result<Node, NoMemory>
    ensures { IfOk result (λ n. tree_of n ≡ spec.send_tree turn drawn) }
{
    let mut map = NodeMap::new(alloc);
    put_text(alloc, &mut map, "node", Sepp::Sender.name())?;
    put(alloc, &mut map, "message", message(alloc, turn, drawn)?)?;
    put_text(alloc, &mut map, "id", Sepp::Sender.context())?;
    put_text(alloc, &mut map, "do", "send")?;
    Ok(Node::Members(map))
}

// The operation that counts the number one up.
fn count_up(alloc: Global, drawn: u16) -> Result<Node, NoMemory>
    ensures { IfOk result (λ n. tree_of n ≡ spec.count_up drawn) }
{
    let mut map = NodeMap::new(alloc);
    put_number(alloc, &mut map, "value", u64::from(drawn) + 1)?;
    put_text(alloc, &mut map, "path", "/payload/2/value")?;
    put_text(alloc, &mut map, "op", "replace")?;
    Ok(Node::Members(map))
}

/// The document that passes on the document of a number on the wire.
pub(crate) fn pass_node(alloc: Global, wire: u64, drawn: u16) -> Result<Node, NoMemory>
    ensures { IfOk result (λ n. tree_of n ≡ spec.pass_tree wire drawn) }
{
    let mut map = NodeMap::new(alloc);
    put_number(alloc, &mut map, "wire", wire)?;
    let operations = list_of_one(alloc, count_up(alloc, drawn)?)?;
    put(alloc, &mut map, "operations", operations)?;
    put_text(alloc, &mut map, "ipx", Sepp::Sender.ipx())?;
    put_text(alloc, &mut map, "do", "pass")?;
    Ok(Node::Members(map))
}

/// The document that delivers the document of a number on the wire.
pub(crate) fn deliver_node(alloc: Global, wire: u64) -> Result<Node, NoMemory>
    ensures { IfOk result (λ n. tree_of n ≡ spec.deliver_tree wire) }
{
    let mut map = NodeMap::new(alloc);
    put_number(alloc, &mut map, "wire", wire)?;
    put_text(alloc, &mut map, "node", Sepp::Receiver.name())?;
    put_text(alloc, &mut map, "do", "deliver")?;
    Ok(Node::Members(map))
}
