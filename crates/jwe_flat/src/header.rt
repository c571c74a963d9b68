//! Headers that are read, and the one that is written.

ghost use Rattle.std.specs.Prelude.{◌≡◌, ◌≤◌, IfOk, IfSome, option_map, option_and_then};
ghost use Rattle.spec_documents.specs.Tree.{members, depth as nesting};
ghost use Rattle.spec_documents.specs.Reading.{document_of};
ghost use Rattle.n32_values.specs.View.{tree_of};
ghost use Rattle.spec_sealing.specs.Header as spec;
ghost use Rattle.jwe_flat.specs.View.{misfit_view, suite_view};

use crate::key::Suite;
use crate::opening::CipherWhy;
use doc_forms::{Grammar, text_at};
use n32_values::{
    B64Fault, DocFault, NoMemory, Node, NodeMap, Text, base64url_text, read_base64url, read_doc,
};
use std::alloc::Global;

fn object_in(node: Node) -> Option<NodeMap>
    ensures object { result ≡ spec.object_in (tree_of node) }
    ensures whole { IfSome result (λ m. members m ≡ tree_of node) }
{
    match node {
        Node::Members(map) => Some(map),
        _ => None,
    }
}

// The members of the JSON object that bytes are read to, if they are read to one.
fn read_object(alloc: Global, bytes: &[u8]) -> Result<Option<NodeMap>, NoMemory>
    ensures object { IfOk result (λ found. option_and_then spec.object_in (document_of bytes.now) ≡ found) }
    ensures shallow { IfOk result (λ found. IfSome found (λ m. nesting (members m) ≤ 127)) }
{
    match read_doc(alloc, bytes) {
        Ok(doc) => Ok(object_in(doc.into_node())),
        Err(DocFault::Syntax) => Ok(None),
        Err(DocFault::Number) => Ok(None),
        Err(DocFault::NoMemory) => Err(NoMemory),
    }
}

/// The members of the JSON object whose base64url text this is, as a header's is (RFC 7516, section 5.2,
/// steps 2 and 3), or `None` exactly where the text is that of none.
///
/// # Errors
/// `NoMemory` where memory was refused.
pub fn read_header(alloc: Global, text: &str) -> Result<Option<NodeMap>, NoMemory>
    ensures members { IfOk result (λ found. spec.header_in text.now ≡ found) }
    ensures shallow { IfOk result (λ found. IfSome found (λ m. nesting (members m) ≤ 127)) }
{
    match read_base64url(alloc, text) {
        Ok(bytes) => read_object(alloc, bytes.as_slice()),
        Err(B64Fault::NotText) => Ok(None),
        Err(B64Fault::NoMemory) => Err(NoMemory),
    }
}

// Whether a member is this text.
pub(crate) fn has_text(map: &NodeMap, name: &str, wanted: &str) -> bool
    ensures { result ≡ spec.has_text name.now wanted.now map.now }
{
    match text_at(map, name, Grammar::Any) {
        Some(text) => text == wanted,
        None => false,
    }
}

// The first member by which a header isn't of the suite.
fn fault_of(map: &NodeMap, suite: Suite) -> Option<CipherWhy>
    ensures { option_map misfit_view result ≡ spec.header_misfit (suite_view suite) map.now }
{
    if !has_text(map, "alg", "dir") {
        Some(CipherWhy::Alg)
    } else if !has_text(map, "enc", suite.name()) {
        Some(CipherWhy::Enc)
    } else if map.get("zip").is_some() {
        Some(CipherWhy::Zip)
    } else if map.get("crit").is_some() {
        Some(CipherWhy::Crit)
    } else {
        None
    }
}

// The fault of a header under a suite. A text that is no header has none of the members.
fn fault_in(header: Option<&NodeMap>, suite: Suite) -> Option<CipherWhy>
    ensures { option_map misfit_view result ≡ spec.header_misfit (suite_view suite) (spec.members_if (option_map (λ m. m.now) header.entry)) }
{
    match header {
        Some(map) => fault_of(map, suite),
        None => Some(CipherWhy::Alg),
    }
}

// The fault of a header's text under a suite, if it has one.
pub(crate) fn header_fault(
    alloc: Global,
    text: &str,
    suite: Suite,
) -> Result<Option<CipherWhy>, NoMemory>
    ensures { IfOk result (λ why. option_map misfit_view why ≡ spec.header_misfit (suite_view suite) (spec.members_if (spec.header_in text.now))) }
{
    let header = read_header(alloc, text)?;
    Ok(fault_in(header.as_ref(), suite))
}

// The compact text of the header that is written.
#[tactic(auto, unfolding(json::specs::Print::escape_byte))]
fn compact_header(suite: Suite) -> &'static str
    ensures { result.now ≡ spec.compact_header (suite_view suite) }
{
    match suite {
        Suite::A128Gcm => "{\"alg\":\"dir\",\"enc\":\"A128GCM\"}",
        Suite::A256Gcm => "{\"alg\":\"dir\",\"enc\":\"A256GCM\"}",
    }
}

// The text of the header that is written.
pub(crate) fn header_text(alloc: Global, suite: Suite) -> Result<Text, NoMemory>
    ensures { IfOk result (λ t. t ≡ spec.header_text (suite_view suite)) }
{
    base64url_text(alloc, compact_header(suite).as_bytes())
}
