// The calls of `context_records`.
use context_records::{Record, RecordRead, read_record, record_text};
use n32_values::Node;
use std::alloc::Global;
use worked_rows::{Args, fault_node, words_of};

fn written(alloc: Global, record: Record) -> Option<Node> {
    match record_text(alloc, &record) {
        Ok(bytes) => words_of(alloc, bytes),
        Err(_) => None,
    }
}

/// The text of the record that `text` is read to.
pub fn read_record_call(alloc: Global, args: Args<'_>) -> Option<Node> {
    match read_record(alloc, args.text("text")?.as_bytes()) {
        Ok(record) => written(alloc, record),
        Err(RecordRead::Form) => fault_node(alloc, "FORM"),
        Err(RecordRead::NoMemory) => None,
    }
}
