//! Laws over runs of scripts, whatever the outside does at each line.

ghost use Rattle.std.specs.Prelude.{◌≡◌, ◌≤◌, ◌+◌, ℕ, pos, Bool, Some, List, [], ◌∷◌, ◌++◌, length, true, false, count_by};
ghost use Rattle.spec_documents.specs.Tree.{Tree};
ghost use Rattle.spec_messages.specs.Message.{Kind};
ghost use Rattle.spec_records.specs.Records.{Record, was_delivered, was_sent};
ghost use Rattle.spec_script.specs.Choices.{Choices, Meanings, IsBy, unfailing};
ghost use Rattle.spec_exchange.specs.Calls.{Sealed};
ghost use Rattle.spec_exchange.specs.Screens.{Passes};
ghost use Rattle.spec_documents.specs.Lines.{is_blank, Outputs};
ghost use Rattle.spec_script.specs.Steps.{State, Answer, OnWire, Sends, Forwards, Opens, Refuses, after, wire_at, line_step};
ghost use Rattle.spec_script.specs.Refusals.{Refusal};
ghost use Rattle.spec_script.specs.Output.{Answers, Answered, Numbered, answers_text, GivesAnswer, delivers, numbers, has_refusal, is_keeper_refusal, is_outside_refusal, is_ending_refusal, LosesOne, RoseBy, HaveCauses, count_after};

/// In a run each message is delivered at most once, and none that was delivered before it.
pub fn delivered_at_most_once()
    ensures once { (m : Meanings) (s : State) (n : ℕ) (lines : List (List ℕ)) (answers : List Numbered) (last : State) → Answered m s n lines answers last →
        (node : List ℕ) (id : ℕ) (kind : Kind) (message : ℕ) → count_by (delivers node id kind message) answers ≤ 1 }
    ensures held { (m : Meanings) (s : State) (n : ℕ) (lines : List (List ℕ)) (answers : List Numbered) (last : State) → Answered m s n lines answers last →
        (node : List ℕ) (id : ℕ) (kind : Kind) (message : ℕ) → was_delivered node id kind message s.records ≡ true → count_by (delivers node id kind message) answers ≡ 0 }
{}

/// In a run no two documents that are answered to sends have one node, context, kind and sequence number, and none has a number that was sent before it.
pub fn numbered_once()
    ensures once { (m : Meanings) (s : State) (n : ℕ) (lines : List (List ℕ)) (answers : List Numbered) (last : State) → Answered m s n lines answers last →
        (node : List ℕ) (id : ℕ) (kind : Kind) (seq : ℕ) → count_by (numbers node id kind seq) answers ≤ 1 }
    ensures held { (m : Meanings) (s : State) (n : ℕ) (lines : List (List ℕ)) (answers : List Numbered) (last : State) → Answered m s n lines answers last →
        (node : List ℕ) (id : ℕ) (kind : Kind) (seq : ℕ) → was_sent node id kind seq s.records ≡ true → count_by (numbers node id kind seq) answers ≡ 0 }
{}

/// Where neither a fault of keeper, signer or verifier nor a bad record is answered, the answer and the state after it are those without faults.
pub fn answers_determined()
    ensures { (m : Meanings) (s : State) (f : Choices) → IsBy m f → (line : List ℕ) → has_refusal is_outside_refusal (line_step m.passes s f line).answer ≡ false →
        line_step m.passes s f line ≡ line_step m.passes s (unfailing m) line }
{}

/// The records of a run are those that it began with and more, at most one for each answer.
pub fn records_grow()
    ensures { (m : Meanings) (s : State) (n : ℕ) (lines : List (List ℕ)) (answers : List Numbered) (last : State) → Answered m s n lines answers last →
        (more : List Record) × (last.records ≡ s.records ++ more) × (length more ≤ length answers) }
{}

/// A refusal leaves the nodes and the wire as they are, and the records too, but for a failed put that may have kept its record. At most one start waits no longer then, and none but after a failed put or where the sides of a handshake don't agree.
pub fn refusal_changes_nothing()
    ensures state { (passes : Passes) (s : State) (f : Choices) (line : List ℕ) (e : Refusal) → (line_step passes s f line).answer ≡ Refuses e → is_keeper_refusal e ≡ false → is_ending_refusal e ≡ false → after s (line_step passes s f line) ≡ s }
    ensures sites { (passes : Passes) (s : State) (f : Choices) (line : List ℕ) (e : Refusal) → (line_step passes s f line).answer ≡ Refuses e → (after s (line_step passes s f line)).sites ≡ s.sites }
    ensures wire { (passes : Passes) (s : State) (f : Choices) (line : List ℕ) (e : Refusal) → (line_step passes s f line).answer ≡ Refuses e → (after s (line_step passes s f line)).wire ≡ s.wire }
    ensures records { (passes : Passes) (s : State) (f : Choices) (line : List ℕ) (e : Refusal) → (line_step passes s f line).answer ≡ Refuses e → is_keeper_refusal e ≡ false → (after s (line_step passes s f line)).records ≡ s.records }
    ensures starts { (passes : Passes) (s : State) (f : Choices) (line : List ℕ) (e : Refusal) → (line_step passes s f line).answer ≡ Refuses e → LosesOne s.starts (after s (line_step passes s f line)).starts }
{}

/// A document goes last on the wire, and the number that is answered is its place there.
pub fn wire_goes_on()
    ensures sent { (passes : Passes) (s : State) (f : Choices) (line : List ℕ) (x : Sealed) (k : ℕ) → (line_step passes s f line).answer ≡ Sends x k →
        ((after s (line_step passes s f line)).wire ≡ s.wire ++ x.document ∷ []) × (wire_at (after s (line_step passes s f line)).wire (pos k) ≡ Some x.document) }
    ensures injected { (passes : Passes) (s : State) (f : Choices) (line : List ℕ) (k : ℕ) → (line_step passes s f line).answer ≡ OnWire k →
        (t : Tree) × ((after s (line_step passes s f line)).wire ≡ s.wire ++ t ∷ []) × (wire_at (after s (line_step passes s f line)).wire (pos k) ≡ Some t) }
    ensures forwarded { (passes : Passes) (s : State) (f : Choices) (line : List ℕ) (t : Tree) (k : ℕ) → (line_step passes s f line).answer ≡ Forwards t k →
        ((after s (line_step passes s f line)).wire ≡ s.wire ++ t ∷ []) × (wire_at (after s (line_step passes s f line)).wire (pos k) ≡ Some t) }
    ensures opened { (passes : Passes) (s : State) (f : Choices) (line : List ℕ) (t : Tree) (k id : ℕ) → (line_step passes s f line).answer ≡ Opens t k id →
        ((after s (line_step passes s f line)).wire ≡ s.wire ++ t ∷ []) × (wire_at (after s (line_step passes s f line)).wire (pos k) ≡ Some t) }
{}

/// At most as many answers are such faults as their count rose by.
pub fn faults_counted()
    ensures { (p : Answer → Bool) (before : ℕ) (steps : List (Answer × ℕ)) → HaveCauses p before steps → RoseBy (count_by (λ x. p x.0) steps) before (count_after before steps) }
{}

/// What a reading loop writes, where its machine gives answers, are the texts of a run's answers.
pub fn written_is_answered()
    ensures { (m : Meanings) (s : State) (n : ℕ) (lines : List (List ℕ)) (out : List ℕ) (last : State) → Outputs (GivesAnswer m) s n lines out last →
        (answers : List Numbered) × Answered m s n lines answers last × (out ≡ answers_text answers) }
{}

/// A run goes on by one line that is not blank.
pub fn output_goes_on()
    ensures { (m : Meanings) (s : State) (n : ℕ) (lines : List (List ℕ)) (answers : List Numbered) (mid : State) (line : List ℕ) (a : Answer) (last : State) →
        Answered m s n lines answers mid → is_blank line ≡ false → Answers m mid line a last → Answered m s n (lines ++ line ∷ []) (answers ++ (n + length lines, a) ∷ []) last }
{}
