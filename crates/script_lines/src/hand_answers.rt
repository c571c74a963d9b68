// The documents of answers to the events of a handshake.
ghost use Rattle.std.specs.Prelude.{◌≡◌, IfOk};
ghost use Rattle.spec_script.specs.Steps as spec;
ghost use Rattle.spec_script.specs.Answers.{answer_text};

use crate::answers::{put_id, put_number, take_document};
use doc_forms::{put, put_text};
use n32_values::{Bytes, Doc, Hex64, NoMemory, Node, NodeMap, doc_text};
use std::alloc::Global;

/// A document with which a context opens has this number on the wire:
/// `{"document":{..},"line":7,"opened":"00000000000000b1","wire":4}`. It is handed back.
pub fn opening_text(
    alloc: Global,
    number: u64,
    document: Doc,
    wire: u64,
    id: Hex64,
) -> Result<(Bytes, Doc), NoMemory>
    ensures text { IfOk result (λ r. r.0 ≡ answer_text number (spec.Opens document wire id.value)) }
    ensures document { IfOk result (λ r. r.1 ≡ document) }
{
    let _shallow = document.node();
    let mut map = NodeMap::new(alloc);
    put_number(alloc, &mut map, "wire", wire)?;
    put_id(alloc, &mut map, "opened", id)?;
    put_number(alloc, &mut map, "line", number)?;
    put(alloc, &mut map, "document", document.into_node())?;
    let answer = Node::Members(map);
    let text = doc_text(alloc, &answer)?;
    match take_document(answer) {
        Some(node) => Ok((text, Doc::from_shallow(node))),
        None => unreachable!(),
    }
}

/// A context has opened, as `{"line":8,"opened":"00000000000000a1"}`.
pub fn opened_text(alloc: Global, number: u64, id: Hex64) -> Result<Bytes, NoMemory>
    ensures { IfOk result (λ text. text ≡ answer_text number (spec.OpensAs id.value)) }
{
    let mut map = NodeMap::new(alloc);
    put_id(alloc, &mut map, "opened", id)?;
    put_number(alloc, &mut map, "line", number)?;
    doc_text(alloc, &Node::Members(map))
}

/// A handshake is over by the choice of TLS: `{"ended":"TLS","line":9}`.
pub fn ended_text(alloc: Global, number: u64) -> Result<Bytes, NoMemory>
    ensures { IfOk result (λ text. text ≡ answer_text number spec.EndsTls) }
{
    let mut map = NodeMap::new(alloc);
    put_number(alloc, &mut map, "line", number)?;
    put_text(alloc, &mut map, "ended", "TLS")?;
    doc_text(alloc, &Node::Members(map))
}
