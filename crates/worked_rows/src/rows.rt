// A row is read, and its answer is written.
use crate::args::Args;
use crate::given::{Given, read_given};
use crate::nodes::text_node;
use crate::parts::text_of_parts;
use doc_forms::put;
use n32_outside::{StdSink, StdSource};
use n32_values::{
    Bytes, Doc, NoMemory, Node, NodeMap, Text, Whole, copy_doc, doc_text, is_same_doc, read_doc,
};
use script_loop::{Ending, Machine, run};
use std::alloc::Global;
use std::io;
use std::process::ExitCode;

/// The calls that the rows of a program name.
pub trait Calls {
    /// What the call of this name gives. `None` where there is none of the name, or an argument is lacking or hasn't
    /// its form.
    fn answer_call(&self, alloc: Global, name: &str, args: Args<'_>, given: &Given) -> Option<Node>;
}

/// The machine that answers rows. It keeps the documents that rows have named.
#[derive(Drop)]
struct Rows<C> {
    names: NodeMap,
    calls: C,
}

/// What is told of a row.
#[derive(Drop)]
enum Told {
    /// The call gives what the row wants.
    Same,
    /// The call gives this, and the row wants something else.
    Other(Node),
    /// The row names a document.
    Name(Node),
    /// The row begins a section.
    Section(Node),
    /// The row is none, has no such call, lacks an argument or has one that isn't of its form, or memory was refused.
    BadRow,
}

fn document_of_text(alloc: Global, text: Text) -> Option<Node> {
    match read_doc(alloc, text.as_str().as_bytes()) {
        Ok(doc) => Some(doc.into_node()),
        Err(_) => None,
    }
}

// The document that a row names: `document`, or what `text` is read to.
fn document_in(alloc: Global, row: &NodeMap) -> Option<Node> {
    match (row.get("document"), row.get("text")) {
        (Some(document), None) => copy_doc(alloc, document).ok(),
        (None, Some(text)) => document_of_text(alloc, text_of_parts(alloc, text)?),
        _ => None,
    }
}

fn keep_node(alloc: Global, names: &mut NodeMap, name: &str, document: Node) -> Told {
    match (put(alloc, names, name, document), text_node(alloc, name)) {
        (Ok(()), Some(name)) => Told::Name(name),
        _ => Told::BadRow,
    }
}

// Keeps the document of a row under the row's name.
fn keep_document(alloc: Global, names: &mut NodeMap, name: &str, row: &NodeMap) -> Told {
    match document_in(alloc, row) {
        Some(document) => keep_node(alloc, names, name, document),
        None => Told::BadRow,
    }
}

fn compared(answer: Node, wanted: &Node) -> Told {
    if is_same_doc(&answer, wanted) {
        Told::Same
    } else {
        Told::Other(answer)
    }
}

// What a call gives with the arguments of its row.
fn call_of_row<C: Calls>(alloc: Global, calls: &C, name: &str, args: Args<'_>) -> Option<Node> {
    let given = read_given(alloc, args);
    calls.answer_call(alloc, name, args, &given)
}

fn told_of_call<C: Calls>(alloc: Global, calls: &C, name: &str, args: Args<'_>) -> Told {
    match (args.row.get("is"), call_of_row(alloc, calls, name, args)) {
        (Some(wanted), Some(answer)) => compared(answer, wanted),
        _ => Told::BadRow,
    }
}

fn told_of_section(alloc: Global, section: &str) -> Told {
    match text_node(alloc, section) {
        Some(section) => Told::Section(section),
        None => Told::BadRow,
    }
}

fn told_of_row<C: Calls>(alloc: Global, calls: &C, names: &mut NodeMap, row: &NodeMap) -> Told {
    match (row.get("call"), row.get("name"), row.get("section")) {
        (Some(Node::Words(name)), None, None) => {
            told_of_call(alloc, calls, name.as_str(), Args { names, row })
        }
        (None, Some(Node::Words(name)), None) => keep_document(alloc, names, name.as_str(), row),
        (None, None, Some(Node::Words(text))) => told_of_section(alloc, text.as_str()),
        _ => Told::BadRow,
    }
}

fn told_of_doc<C: Calls>(alloc: Global, calls: &C, names: &mut NodeMap, doc: Doc) -> Told {
    match doc.node() {
        Node::Members(row) => told_of_row(alloc, calls, names, row),
        _ => Told::BadRow,
    }
}

fn told_of_line<C: Calls>(alloc: Global, calls: &C, names: &mut NodeMap, line: &[u8]) -> Told {
    match read_doc(alloc, line) {
        Ok(doc) => told_of_doc(alloc, calls, names, doc),
        Err(_) => Told::BadRow,
    }
}

fn put_told(alloc: Global, members: &mut NodeMap, told: Told) -> Result<(), NoMemory> {
    match told {
        Told::Same => put(alloc, members, "same", Node::Truth(true)),
        Told::Other(answer) => {
            put(alloc, members, "answer", answer)?;
            put(alloc, members, "same", Node::Truth(false))
        }
        Told::Name(name) => put(alloc, members, "name", name),
        Told::Section(section) => put(alloc, members, "section", section),
        Told::BadRow => put(alloc, members, "bad_row", Node::Truth(true)),
    }
}

fn told_text(alloc: Global, number: u64, told: Told) -> Result<Bytes, NoMemory> {
    let mut members = NodeMap::new(alloc);
    put_told(alloc, &mut members, told)?;
    let line = Node::Whole(Whole::from_u64(number));
    put(alloc, &mut members, "line", line)?;
    doc_text(alloc, &Node::Members(members))
}

impl<C: Calls> Machine for Rows<C> {
    ghost ready = { λ _. Unit {0} };

    ghost gives = { λ _ _ _ _ _. Unit {0} };

    ghost gives_up = { λ _ _ _ _. Unit {0} };

    ghost later = { λ _ _. Unit {0} };

    ghost stays = { λ _. tt };

    ghost goes_on = { λ a b c first then. tt };

    fn answer(&mut self, alloc: Global, number: u64, line: &[u8]) -> Result<Bytes, NoMemory> {
        let told = told_of_line(alloc, &self.calls, &mut self.names, line);
        told_text(alloc, number, told)
    }
}

fn answer_all<C: Calls + Drop>(rt: &HostRuntime, calls: C) -> Ending {
    let mut source = StdSource::new(rt.reader());
    let mut sink = StdSink::new(io::writer(rt));
    let mut rows = Rows {
        names: NodeMap::new(rt.alloc()),
        calls,
    };
    run(rt.alloc(), &mut source, &mut sink, &mut rows)
}

/// Answers each row of standard input on standard output.
pub fn answer_rows<C: Calls + Drop>(rt: &HostRuntime, calls: C) -> ExitCode {
    match answer_all(rt, calls) {
        Ending::Done => ExitCode::from(0),
        _ => ExitCode::from(1),
    }
}
