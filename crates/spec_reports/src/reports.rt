//! Reports that are made, and reports that are read.

ghost use Rattle.std.specs.Prelude.{◌≡◌, ◌≤◌, ◌<◌, ◌^◌, ℕ, List, Option, Some, Ok};
ghost use Rattle.spec_documents.specs.Tree.{Tree, depth};
ghost use Rattle.spec_reports.specs.Report.{Report, report_for, IsEntry, IsFormed};
ghost use Rattle.spec_reports.specs.Document.{report_in, report_tree};

/// The document of a report nests three levels deep at most, and is read to this report.
pub fn written_report_is_read()
    ensures shallow { (r : Report) → depth (report_tree r) ≤ 3 }
    ensures read { (r : Report) → IsFormed r → report_in (report_tree r) ≡ Ok r }
{}

/// The report of a refusal has a document that is read to it.
pub fn made_report_is_read()
    ensures { (n : ℕ) (entry : Option (List ℕ)) (context message : ℕ) (r : Report) → report_for n entry context message ≡ Some r → context < 2 ^ 64 → message < 2 ^ 64 → IsEntry entry → report_in (report_tree r) ≡ Ok r }
{}

/// A report that was read has ids of 64 bits, and an identity as its intermediary. Its own document is read to it again.
pub fn read_report_is_formed()
    ensures formed { (t : Tree) (r : Report) → report_in t ≡ Ok r → IsFormed r }
    ensures again { (t : Tree) (r : Report) → report_in t ≡ Ok r → report_in (report_tree r) ≡ Ok r }
{}
