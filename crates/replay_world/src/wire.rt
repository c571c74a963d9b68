// The documents on the wire.
ghost use Rattle.std.specs.Prelude.{◌≡◌, ◌+◌, length, IfOk, option_map};
ghost use Rattle.spec_documents.specs.Compact.{compact_text};
ghost use Rattle.spec_script.specs.Steps as spec;
ghost use Rattle.spec_script.specs.Answers.{answer_text};
ghost use Rattle.script_lines.specs.AnswerTexts.{document_answer};
ghost use Rattle.replay_world.specs.Wires.{GoesOn};

use crate::world::World;
use n32_values::{Bytes, Doc, DocList, Hex64, NoMemory, Whole, text_length};
use script_lines::{document_text, opening_text, wire_text};
use std::alloc::Global;

const MOST_BYTES: u64 = 134_217_728;

const MOST_DOCUMENTS: usize = 1_000_000;

/// The document of a number on the wire, which counts from 1.
pub(crate) fn document_at<'a>(wire: &'a DocList, number: &Whole) -> Option<&'a Doc>
    ensures { option_map (λ d. d.now) result ≡ spec.wire_at wire.now number.now }
{
    let value = number.value();
    if value < 1 {
        return None;
    }
    wire.get((value - 1) as usize)
}

/// Whether nothing more may go on the wire.
pub(crate) fn is_full(world: &World) -> bool
    requires { world.now.wire_bytes ≡ spec.wire_bytes world.now.wire }
    ensures { result ≡ spec.is_full world.now.wire }
{
    world.wire_bytes >= MOST_BYTES || world.wire.len() >= MOST_DOCUMENTS
}

// The number of the next document. No memory holds so many that it has none.
fn next_place(wire: &DocList) -> Result<u64, NoMemory>
    ensures { IfOk result (λ place. place ≡ length wire.now + 1) }
{
    match (wire.len() as u64).checked_add(1) {
        Some(place) => Ok(place),
        None => Err(NoMemory),
    }
}

// The bytes with those of a document more. No memory holds so many that they have no number.
fn bytes_with(bytes: u64, document: &Doc) -> Result<u64, NoMemory>
    ensures { IfOk result (λ n. n ≡ bytes + length (compact_text document.now)) }
{
    let more = text_length(document.node());
    if more == u64::MAX {
        return Err(NoMemory);
    }
    match bytes.checked_add(more) {
        Some(total) => Ok(total),
        None => Err(NoMemory),
    }
}

// Puts a document last on the wire.
#[tactic(auto, using(crate::proofs::Wires::bytes_more))]
fn push(world: &mut World, document: Doc) -> Result<(), NoMemory>
    requires { world.old.wire_bytes ≡ spec.wire_bytes world.old.wire }
    ensures { GoesOn world.old world.new document result }
{
    let bytes = bytes_with(world.wire_bytes, &document)?;
    world.wire.push(document)?;
    world.wire_bytes = bytes;
    Ok(())
}

/// Answers a document that was made, and puts it on the wire.
pub(crate) fn put_made(
    alloc: Global,
    world: &mut World,
    number: u64,
    document: Doc,
) -> Result<Bytes, NoMemory>
    requires { world.old.wire_bytes ≡ spec.wire_bytes world.old.wire }
    ensures text { IfOk result (λ text. text ≡ document_answer number document (length world.old.wire + 1)) }
    ensures goes_on { GoesOn world.old world.new document result }
{
    let place = next_place(&world.wire)?;
    let (text, document) = document_text(alloc, number, document, place)?;
    push(world, document)?;
    Ok(text)
}

/// Answers a document with which a context of that id opens, and puts it on the wire.
pub(crate) fn put_opening(
    alloc: Global,
    world: &mut World,
    number: u64,
    document: Doc,
    id: Hex64,
) -> Result<Bytes, NoMemory>
    requires { world.old.wire_bytes ≡ spec.wire_bytes world.old.wire }
    ensures text { IfOk result (λ text. text ≡ answer_text number (spec.Opens document (length world.old.wire + 1) id.value)) }
    ensures goes_on { GoesOn world.old world.new document result }
{
    let place = next_place(&world.wire)?;
    let (text, document) = opening_text(alloc, number, document, place, id)?;
    push(world, document)?;
    Ok(text)
}

/// Answers the number of a document that was given, and puts it on the wire.
pub(crate) fn put_given(
    alloc: Global,
    world: &mut World,
    number: u64,
    document: Doc,
) -> Result<Bytes, NoMemory>
    requires { world.old.wire_bytes ≡ spec.wire_bytes world.old.wire }
    ensures text { IfOk result (λ text. text ≡ answer_text number (spec.OnWire (length world.old.wire + 1))) }
    ensures goes_on { GoesOn world.old world.new document result }
{
    let place = next_place(&world.wire)?;
    let text = wire_text(alloc, number, place)?;
    push(world, document)?;
    Ok(text)
}
