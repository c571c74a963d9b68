// Lines are read to documents, and their documents to messages.
ghost use Rattle.std.specs.Prelude.{◌≡◌, ◌≤◌, IfOk, IsTrue};
ghost use Rattle.spec_documents.specs.Gives.{Gives};
ghost use Rattle.spec_documents.specs.Tree.{depth as nesting};
ghost use Rattle.spec_messages.specs.Message.{is_whole, body_depth};
ghost use Rattle.n32_values.specs.View.{tree_of};
ghost use Rattle.http_message.specs.Reading.{message_view};
ghost use Rattle.spec_script.specs.LineTree.{line_tree};
ghost use Rattle.spec_script.specs.Messages.{message_in};
ghost use Rattle.script_lines.specs.Unanswered.{SparesKeeper, told_refusal};

use crate::refusal::Refusal;
use crate::unanswered::Unanswered;
use http_message::{Message, MessageRead, read_message, take_message};
use n32_values::{Doc, DocFault, Node, ReadingRoom, read_doc_in};
use std::alloc::Global;

/// The document of a line. `Syntax` is refused where the line is no JSON value in UTF-8 that nests at most 127 deep
/// (RFC 8259), `Number` where a number in it is no whole number of 64 bits.
pub fn read_line(alloc: Global, line: &[u8]) -> Result<Doc, Unanswered>
    ensures gives { Gives told_refusal (λ d. d) result (line_tree line.now) }
    ensures shallow { IfOk result (λ d. nesting d ≤ 127) }
    ensures spares { SparesKeeper result }
{
    let mut room = ReadingRoom::new(alloc);
    read_line_in(alloc, line, &mut room)
}

/// The document of a line, as `read_line` reads it, in room that is kept from one line to the next.
pub fn read_line_in(alloc: Global, line: &[u8], room: &mut ReadingRoom) -> Result<Doc, Unanswered>
    ensures gives { Gives told_refusal (λ d. d) result (line_tree line.now) }
    ensures shallow { IfOk result (λ d. nesting d ≤ 127) }
    ensures spares { SparesKeeper result }
{
    match read_doc_in(alloc, line, room) {
        Ok(document) => {
            let _shallow = document.node();
            Ok(document)
        }
        Err(DocFault::Syntax) => Err(Unanswered::Refused(Refusal::Syntax)),
        Err(DocFault::Number) => Err(Unanswered::Refused(Refusal::Number)),
        Err(DocFault::NoMemory) => Err(Unanswered::NoMemory),
    }
}

/// The message that a document in a line is of. `Message` names its first bad member; `Depth` is refused where all are
/// right and the body nests deeper than 64.
pub fn read_line_message(alloc: Global, document: &Node) -> Result<Message, Unanswered>
    ensures gives { Gives told_refusal message_view result (message_in (tree_of document.now)) }
    ensures whole { IfOk result (λ m. IsTrue (is_whole (message_view m))) }
    ensures shallow { IfOk result (λ m. body_depth (message_view m).body ≤ 64) }
    ensures spares { SparesKeeper result }
{
    match read_message(alloc, document) {
        Ok(message) => Ok(message),
        Err(MessageRead::Member(member)) => Err(Unanswered::Refused(Refusal::Message(member))),
        Err(MessageRead::Depth) => Err(Unanswered::Refused(Refusal::Depth)),
        Err(MessageRead::NoMemory) => Err(Unanswered::NoMemory),
    }
}

/// The message that a line's document is of, as `read_line_message` reads it, with the body moved out of the document.
pub fn take_line_message(alloc: Global, document: Node) -> Result<Message, Unanswered>
    ensures gives { Gives told_refusal message_view result (message_in (tree_of document)) }
    ensures whole { IfOk result (λ m. IsTrue (is_whole (message_view m))) }
    ensures shallow { IfOk result (λ m. body_depth (message_view m).body ≤ 64) }
    ensures spares { SparesKeeper result }
{
    match take_message(alloc, document) {
        Ok(message) => Ok(message),
        Err(MessageRead::Member(member)) => Err(Unanswered::Refused(Refusal::Message(member))),
        Err(MessageRead::Depth) => Err(Unanswered::Refused(Refusal::Depth)), // over 64
        Err(MessageRead::NoMemory) => Err(Unanswered::NoMemory),
    }
}
