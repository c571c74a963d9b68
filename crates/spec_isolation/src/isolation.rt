//! Laws of isolation: what a run tells a context, and what no other event does to its records.

ghost use Rattle.std.specs.Prelude.{◌≡◌, ℕ, List, map, false};
ghost use Rattle.spec_records.specs.Records.{own};
ghost use Rattle.spec_exchange.specs.Screens.{Passes};
ghost use Rattle.spec_script.specs.Choices.{Choices, Meanings};
ghost use Rattle.spec_script.specs.Events.{Event};
ghost use Rattle.spec_script.specs.Steps.{State, after, step};
ghost use Rattle.spec_isolation.specs.Concerns.{concerns};
ghost use Rattle.spec_isolation.specs.Alone.{told_alone};
ghost use Rattle.spec_isolation.specs.OwnPart.{Run, own_part, all_brought, told, but_for_numbers, Undisturbed};

/// An event of another context, or of none, leaves the records of a context as they are, whatever the outside does.
pub fn others_make_no_record()
    ensures { (passes : Passes) (s : State) (f : Choices) (node : List ℕ) (id : ℕ) (e : Event) → concerns node id s e ≡ false → own node id (after s (step passes s f e)).records ≡ own node id s.records }
{}

/// In a run a context's messages and documents are answered as in a world of its own: by what they bring, by the
/// meanings of verifier and screen, and by the records that were held for it at the start and that its own events
/// made. So they have the same answers in two runs where these are the same. The numbers on the wire and that of a
/// replayed message's record may differ. This is said of runs that meet no limit of wire or records, and in which
/// nothing outside fails at one of these events.
pub fn own_events_decide()
    ensures alone { (m : Meanings) (run : Run m) (node : List ℕ) (id : ℕ) → Undisturbed node id run →
        map but_for_numbers (told (own_part node id run)) ≡ map but_for_numbers (told_alone m.verifier m.passes node id (own node id run.start.records) (all_brought (own_part node id run))) }
    ensures alike { (m : Meanings) (run other : Run m) (node : List ℕ) (id : ℕ) → Undisturbed node id run → Undisturbed node id other →
        own node id run.start.records ≡ own node id other.start.records → all_brought (own_part node id run) ≡ all_brought (own_part node id other) →
        map but_for_numbers (told (own_part node id run)) ≡ map but_for_numbers (told (own_part node id other)) }
{}
