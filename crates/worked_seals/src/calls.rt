// The calls by their names.
use crate::{ciphers, entries, entry_chains, exercises, handshakes, jwes, records, reports, wires};
use n32_values::Node;
use std::alloc::Global;
use worked_rows::{Args, Calls, Given};

/// The calls of ciphers, documents, records and handshakes.
#[derive(Clone, Copy)]
pub struct SealCalls;

impl Calls for SealCalls {
    fn answer_call(
        &self,
        alloc: Global,
        name: &str,
        args: Args<'_>,
        given: &Given,
    ) -> Option<Node> {
        sealed_call(alloc, name, args, given)
    }
}

// Ciphers, and what is sealed with them or kept of them.
fn sealed_call(alloc: Global, name: &str, args: Args<'_>, given: &Given) -> Option<Node> {
    match name {
        "key" => ciphers::key_call(alloc, args),
        "encrypt_block" => ciphers::encrypt_block_call(alloc, args),
        "ghash_times" => ciphers::ghash_times_call(alloc, args),
        "seal_in_place" => ciphers::seal_in_place_call(alloc, args, given),
        "open_in_place" => ciphers::open_in_place_call(alloc, args, given),
        "suite" => jwes::suite_call(alloc, args),
        "seal_jwe" => jwes::seal_jwe_call(alloc, args),
        "read_jwe" => jwes::read_jwe_call(alloc, args),
        "open_jwe" => jwes::open_jwe_call(alloc, args),
        "open_parts" => jwes::open_parts_call(alloc, args),
        "values_text" => wires::values_text_call(alloc, args),
        "read_values" => wires::read_values_call(alloc, given),
        "read_wire_doc" => wires::read_wire_doc_call(alloc, given),
        "is_wire_doc" => wires::is_wire_doc_call(alloc, given),
        "entries" => wires::entries_call(given),
        "read_record" => records::read_record_call(alloc, args),
        _ => entry_call(alloc, name, args, given),
    }
}

// Entries of intermediaries.
fn entry_call(alloc: Global, name: &str, args: Args<'_>, given: &Given) -> Option<Node> {
    match name {
        "hmac_sha256" => entries::hmac_sha256_call(alloc, args, given),
        "hs256_sign" => entries::hs256_sign_call(alloc, args, given),
        "hs256_verify" => entries::hs256_verify_call(alloc, args, given),
        "signing_input" => entries::signing_input_call(alloc, args),
        "read_jws" => entries::read_jws_call(alloc, args),
        "read_entry" => entries::read_entry_call(alloc, args),
        "read_payload" => entries::read_payload_call(alloc, args),
        "sign_entry" => entries::sign_entry_call(alloc, args, given),
        "verify_entry" => entries::verify_entry_call(alloc, args, given),
        "pass_on" => entries::pass_on_call(alloc, args, given),
        "apply_entries" => entry_chains::apply_entries_call(alloc, args, given),
        _ => report_call(alloc, name, args, given),
    }
}

// Reports of refused messages.
fn report_call(alloc: Global, name: &str, args: Args<'_>, given: &Given) -> Option<Node> {
    match name {
        "report_of" => reports::report_of_call(alloc, args, given),
        "read_report" => reports::read_report_call(alloc, args),
        "report_back" => reports::report_back_call(alloc, args, given),
        _ => exercise_call(alloc, name, args),
    }
}

// The script of `exercise N` and its summary.
fn exercise_call(alloc: Global, name: &str, args: Args<'_>) -> Option<Node> {
    match name {
        "exercise_line" => exercises::exercise_line_call(alloc, args),
        "script_summary" => exercises::script_summary_call(alloc, args),
        "exercise_summary" => exercises::exercise_summary_call(alloc, args),
        _ => handshake_call(alloc, name, args),
    }
}

// Handshakes.
fn handshake_call(alloc: Global, name: &str, args: Args<'_>) -> Option<Node> {
    match name {
        "handshake" => handshakes::handshake_call(alloc, args),
        "handshake_wires" => handshakes::handshake_wires_call(alloc, args),
        "handshake_record" => handshakes::handshake_record_call(alloc, args),
        _ => None,
    }
}
