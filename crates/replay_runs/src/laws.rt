//! Laws over the answers of a run.
//!
//! They speak of the answers to any lines that a run began with: of those of an output (`Output.answered`), which are written at
//! `Done`, and of those of first lines, which are written at every other status (`RepliesToFirst`, `RepliesInPart`).

ghost use Rattle.std.specs.Prelude.{◌≡◌, ◌≤◌, ℕ, List, [], true, count_by};
ghost use Rattle.spec_messages.specs.Message.{Kind};
ghost use Rattle.spec_records.specs.Records.{Record, was_delivered, was_sent};
ghost use Rattle.spec_handshake.specs.Agreement.{Agrees};
ghost use Rattle.spec_script.specs.Choices.{Meanings};
ghost use Rattle.spec_script.specs.Steps.{State};
ghost use Rattle.spec_script.specs.Output.{Answered, Numbered, begin, delivers, numbers};
ghost use Rattle.spec_agreement.specs.ByHandshakes.{OpensByHandshakes};

/// Among the answers to lines each message is delivered at most once, and none that a record held at the start says was delivered.
pub fn delivered_at_most_once()
    ensures once { (m : Meanings) (records : List Record) (lines : List (List ℕ)) (answers : List Numbered) (last : State) → Answered m (begin records) 1 lines answers last →
        (node : List ℕ) (id : ℕ) (kind : Kind) (message : ℕ) → count_by (delivers node id kind message) answers ≤ 1 }
    ensures held { (m : Meanings) (records : List Record) (lines : List (List ℕ)) (answers : List Numbered) (last : State) → Answered m (begin records) 1 lines answers last →
        (node : List ℕ) (id : ℕ) (kind : Kind) (message : ℕ) → was_delivered node id kind message records ≡ true → count_by (delivers node id kind message) answers ≡ 0 }
{
    spec_script::runs::delivered_at_most_once();
}

/// Among the answers to lines no two documents that are answered to sends have one node, context, kind and sequence number, and
/// none has that of a record held at the start.
pub fn numbered_once()
    ensures once { (m : Meanings) (records : List Record) (lines : List (List ℕ)) (answers : List Numbered) (last : State) → Answered m (begin records) 1 lines answers last →
        (node : List ℕ) (id : ℕ) (kind : Kind) (seq : ℕ) → count_by (numbers node id kind seq) answers ≤ 1 }
    ensures held { (m : Meanings) (records : List Record) (lines : List (List ℕ)) (answers : List Numbered) (last : State) → Answered m (begin records) 1 lines answers last →
        (node : List ℕ) (id : ℕ) (kind : Kind) (seq : ℕ) → was_sent node id kind seq records ≡ true → count_by (numbers node id kind seq) answers ≡ 0 }
{
    spec_script::runs::numbered_once();
}

/// Where nothing was held at the start, and contexts were opened by handshakes alone, two contexts that name each other go by the
/// same suite, policy and intermediaries.
pub fn opened_contexts_agree()
    ensures { (m : Meanings) (lines : List (List ℕ)) (answers : List Numbered) (last : State) → Answered m (begin []) 1 lines answers last →
        OpensByHandshakes lines answers → Agrees last.records }
{
    spec_agreement::agreement::opened_contexts_agree();
}
