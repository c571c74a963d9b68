//! Worked examples, by computation.

ghost use Rattle.std.specs.Prelude.{◌≡◌, [], ◌∷◌, true, map, Some, None, is_none, Ok, Err, codes};
ghost use Rattle.std.specs.List.{list_all};
ghost use Rattle.spec_documents.specs.Tree.{null, words, items, trees};
ghost use Rattle.spec_documents.specs.Compact.{compact_text};
ghost use Rattle.spec_reports.specs.Report.{ContextNotFound, DecipheringFailed, IntegrityCheckFailed, MessageReconstructionFailed, PolicyMismatch, IntegrityCheckOnModificationsFailed, ModificationsInstructionsFailed, type_for, report_for};
ghost use Rattle.spec_reports.specs.Document.{no_report, report_in, report_tree};
ghost use Rattle.spec_reports.specs.Rows.{report_with_entry, document, context_field, message_field, type_field, ipx_field, with_failures, with_failure};

/// Which refusals are reported, and as what.
pub fn type_rows()
    ensures context { type_for 21 ≡ Some ContextNotFound }
    ensures cipher { type_for 23 ≡ Some DecipheringFailed }
    ensures tag { type_for 24 ≡ Some IntegrityCheckFailed }
    ensures message { map type_for (25 ∷ 26 ∷ 38 ∷ []) ≡ Some MessageReconstructionFailed ∷ Some MessageReconstructionFailed ∷ Some MessageReconstructionFailed ∷ [] }
    ensures policy { map type_for (27 ∷ 33 ∷ []) ≡ Some PolicyMismatch ∷ Some PolicyMismatch ∷ [] }
    ensures entry { map type_for (28 ∷ 29 ∷ 30 ∷ 31 ∷ []) ≡ Some IntegrityCheckOnModificationsFailed ∷ Some IntegrityCheckOnModificationsFailed ∷ Some IntegrityCheckOnModificationsFailed ∷ Some IntegrityCheckOnModificationsFailed ∷ [] }
    ensures operation { type_for 32 ≡ Some ModificationsInstructionsFailed }
    ensures others { list_all (λ n. is_none (type_for n)) (1 ∷ 2 ∷ 3 ∷ 4 ∷ 5 ∷ 6 ∷ 7 ∷ 8 ∷ 9 ∷ 10 ∷ 11 ∷ 12 ∷ 13 ∷ 14 ∷ 15 ∷ 16 ∷ 17 ∷ 20 ∷ 22 ∷ 34 ∷ 35 ∷ 36 ∷ 40 ∷ 41 ∷ 42 ∷ 43 ∷ 44 ∷ 45 ∷ 46 ∷ []) ≡ true }
{}

/// The intermediary is named for the refusals 29 to 32 alone.
pub fn entry_rows()
    ensures identity { report_for 29 (Some (codes "ipx-a")) 177 0 ≡ Some (report_with_entry IntegrityCheckOnModificationsFailed (Some (codes "ipx-a"))) }
    ensures operation { report_for 32 (Some (codes "ipx-a")) 177 0 ≡ Some (report_with_entry ModificationsInstructionsFailed (Some (codes "ipx-a"))) }
    ensures form { report_for 28 (Some (codes "ipx-a")) 177 0 ≡ Some (report_with_entry IntegrityCheckOnModificationsFailed None) }
    ensures screen { report_for 33 (Some (codes "ipx-a")) 177 0 ≡ Some (report_with_entry PolicyMismatch None) }
    ensures unnamed { report_for 30 None 177 0 ≡ Some (report_with_entry IntegrityCheckOnModificationsFailed None) }
    ensures unreported { report_for 34 (Some (codes "ipx-a")) 177 0 ≡ None }
{}

/// The texts of reports.
pub fn document_rows()
    ensures plain { compact_text (report_tree (report_with_entry MessageReconstructionFailed None)) ≡ codes "{\"n32fContextId\":\"00000000000000b1\",\"n32fErrorType\":\"MESSAGE_RECONSTRUCTION_FAILED\",\"n32fMessageId\":\"0000000000000000\"}" }
    ensures named { compact_text (report_tree (report_with_entry ModificationsInstructionsFailed (Some (codes "ipx-a")))) ≡ codes "{\"failedModificationList\":[{\"ipxId\":\"ipx-a\",\"n32fErrorType\":\"MODIFICATIONS_INSTRUCTIONS_FAILED\"}],\"n32fContextId\":\"00000000000000b1\",\"n32fErrorType\":\"MODIFICATIONS_INSTRUCTIONS_FAILED\",\"n32fMessageId\":\"0000000000000000\"}" }
{}

/// What is read: ids in either case, listed types alone, and no list or one of a single failure.
pub fn reading_rows()
    ensures read { report_in (document (context_field ∷ message_field ∷ type_field (codes "CONTEXT_NOT_FOUND") ∷ (codes "further", null) ∷ [])) ≡ Ok (report_with_entry ContextNotFound None) }
    ensures named { report_in (with_failure (ipx_field ∷ type_field (codes "DECIPHERING_FAILED") ∷ (codes "further", null) ∷ [])) ≡ Ok (report_with_entry PolicyMismatch (Some (codes "ipx-a"))) }
    ensures whole { report_in (items (trees [])) ≡ Err no_report }
    ensures empty { report_in (document []) ≡ Err no_report }
    ensures context { report_in (document (message_field ∷ type_field (codes "POLICY_MISMATCH") ∷ [])) ≡ Err no_report }
    ensures message { report_in (document (context_field ∷ (codes "n32fMessageId", words (codes "000")) ∷ type_field (codes "POLICY_MISMATCH") ∷ [])) ≡ Err no_report }
    ensures unlisted { report_in (document (context_field ∷ message_field ∷ type_field (codes "INTEGRITY_KEY_EXPIRED") ∷ [])) ≡ Err no_report }
    ensures absent { report_in (with_failures null) ≡ Err no_report }
    ensures none { report_in (with_failures (items (trees []))) ≡ Err no_report }
    ensures two { report_in (with_failures (items (trees (document (ipx_field ∷ type_field (codes "POLICY_MISMATCH") ∷ []) ∷ document (ipx_field ∷ type_field (codes "POLICY_MISMATCH") ∷ []) ∷ [])))) ≡ Err no_report }
    ensures item { report_in (with_failures (items (trees (null ∷ [])))) ≡ Err no_report }
    ensures ipx { report_in (with_failure ((codes "ipxId", words (codes "null")) ∷ type_field (codes "POLICY_MISMATCH") ∷ [])) ≡ Err no_report }
    ensures failure { report_in (with_failure (ipx_field ∷ [])) ≡ Err no_report }
{}
