//! Agreement: what two contexts that a handshake opened have in common.

ghost use Rattle.std.specs.Prelude.{List};
ghost use Rattle.spec_exchange.specs.Outside.{Choice};
ghost use Rattle.spec_handshake.specs.Runs.{World, Happening, nothing, happens, run, CanHappen, CanAllHappen};
ghost use Rattle.spec_handshake.specs.Agreement.{Agrees, Stands};

/// The invariant holds of nothing, and whatever happens keeps it.
pub fn invariant_is_kept()
    ensures begin { Stands nothing }
    ensures kept { (w : World) (f : Choice) (e : Happening) → Stands w → CanHappen e → Stands (happens w f e) }
{}

/// Two contexts that name each other go by the same suite, policy and intermediaries, in each world with the invariant.
pub fn invariant_gives_agreement()
    ensures { (w : World) → Stands w → Agrees w.records }
{}

/// Two contexts that name each other go by the same suite, policy and intermediaries, whatever documents were lost, came
/// again or out of order, whichever puts failed, and whichever nodes began anew.
pub fn handshakes_agree()
    ensures { (events : List (Choice × Happening)) → CanAllHappen events → Agrees (run nothing events).records }
{}
