//! What is computed of an operation and an entry is what their definitions say.

ghost use Rattle.std.specs.Prelude.{◌≡◌, ℕ, List, Ok, Err};
ghost use Rattle.spec_documents.specs.Tree.{Tree};
ghost use Rattle.spec_documents.specs.Patch.{Op};
ghost use Rattle.spec_messages.specs.Message.{Message};
ghost use Rattle.spec_messages.specs.Entry.{OpWhy};
ghost use Rattle.spec_messages.specs.Outcome.{Ground, AllowedOn, CauseOn, AppliedOn, FirstRefused, outcome_on, entry_on};

/// An operation on a block has one outcome: the block and the message that it is allowed to make, or the first reason against it.
pub fn operation_outcome_decides()
    ensures made { (g : Ground) (op : Op) (r : Tree × Message) → outcome_on g op ≡ Ok r → AllowedOn g op r }
    ensures allowed { (g : Ground) (op : Op) (r : Tree × Message) → AllowedOn g op r → outcome_on g op ≡ Ok r }
    ensures refused { (g : Ground) (op : Op) (why : OpWhy) → outcome_on g op ≡ Err why → CauseOn g op why }
    ensures cause { (g : Ground) (op : Op) (why : OpWhy) → CauseOn g op why → outcome_on g op ≡ Err why }
{}

/// An entry on a block has one outcome: what its operations make in order, or the first that isn't allowed and its first reason.
pub fn entry_outcome_decides()
    ensures made { (g : Ground) (ops : List Op) (r : Tree × Message) → entry_on g ops ≡ Ok r → AppliedOn g ops r }
    ensures applied { (g : Ground) (ops : List Op) (r : Tree × Message) → AppliedOn g ops r → entry_on g ops ≡ Ok r }
    ensures refused { (g : Ground) (ops : List Op) (i : ℕ) (why : OpWhy) → entry_on g ops ≡ Err (i, why) → FirstRefused g ops i why }
    ensures cause { (g : Ground) (ops : List Op) (i : ℕ) (why : OpWhy) → FirstRefused g ops i why → entry_on g ops ≡ Err (i, why) }
{}
