// Texts of answers that the stored run has not.
use block_forms::LimitName;
use n32_values::{Bytes, Doc, NoMemory, read_doc};
use script_lines::{Refusal, document_text, refusal_text};
use std::alloc::Global;

fn is_text(found: Result<Bytes, NoMemory>, wanted: &str) -> bool {
    match found {
        Ok(text) => text.as_slice() == wanted.as_bytes(),
        Err(_) => false,
    }
}

fn is_told(alloc: Global, refusal: Refusal, wanted: &str) -> bool {
    is_text(refusal_text(alloc, 9, &refusal), wanted)
}

#[test]
fn refusals_of_the_outside_are_told(rt: HostRuntime) {
    assert!(rt;
        is_told(
            rt.alloc(),
            Refusal::Limit(LimitName::Records),
            "{\"detail\":\"records\",\"line\":9,\"name\":\"LIMIT\",\"refused\":7}",
        )
    );
    assert!(rt;
        is_told(
            rt.alloc(),
            Refusal::Journal(2),
            "{\"detail\":\"2\",\"line\":9,\"name\":\"JOURNAL\",\"refused\":9}",
        )
    );
}

// The document that is handed back, where the answer is this.
fn sealed(alloc: Global, document: Doc, wanted: &str) -> Option<Doc> {
    match document_text(alloc, 8, document, 3) {
        Ok((text, document)) if text.as_slice() == wanted.as_bytes() => Some(document),
        _ => None,
    }
}

fn is_sealed_twice(alloc: Global, wanted: &str) -> bool {
    match read_doc(alloc, b"[]") {
        Ok(document) => match sealed(alloc, document, wanted) {
            Some(again) => sealed(alloc, again, wanted).is_some(),
            None => false,
        },
        Err(_) => false,
    }
}

#[test]
fn a_document_is_told_and_handed_back(rt: HostRuntime) {
    assert!(rt; is_sealed_twice(rt.alloc(), "{\"document\":[],\"line\":8,\"wire\":3}"));
}
