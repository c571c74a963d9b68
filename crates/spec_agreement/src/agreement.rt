//! Agreement: what two contexts have in common that handshakes of a script opened.

ghost use Rattle.std.specs.Prelude.{ℕ, List, []};
ghost use Rattle.spec_handshake.specs.Agreement.{Agrees};
ghost use Rattle.spec_script.specs.Choices.{Meanings};
ghost use Rattle.spec_script.specs.Steps.{State};
ghost use Rattle.spec_script.specs.Output.{Answered, Numbered, begin};
ghost use Rattle.spec_agreement.specs.ByHandshakes.{OpensByHandshakes};

/// Two contexts that name each other go by the same suite, policy and intermediaries, where a run over no records opened
/// contexts by handshakes alone: whatever else happens, whichever documents were lost, came again or out of order, whichever
/// puts failed, and whichever nodes began anew.
pub fn opened_contexts_agree()
    ensures { (m : Meanings) (n : ℕ) (lines : List (List ℕ)) (answers : List Numbered) (last : State) → Answered m (begin []) n lines answers last →
        OpensByHandshakes lines answers → Agrees last.records }
{}
