// Filling after entries.
ghost use Rattle.std.specs.Prelude.{◌≡◌, ℕ, List, length, Ok};
ghost use Rattle.spec_documents.specs.Tree.{Tree};
ghost use Rattle.spec_exchange.specs.EntryChecks.{Progress, Terms, Verifying, entries_applied};
ghost use Rattle.receiving_sepp.specs.Groups.{Rebuilt};
ghost use Rattle.receiving_sepp.specs.Refilling.{Fits, Stands};

use spec_messages::commutation::filling_stays;
use spec_messages::outcomes::entry_outcome_decides;
use spec_messages::rebuilt::fill_fault_decides;

// The values that fill a message fill what entries that hold make of it.
pub(crate) fn entries_keep_fill()
    ensures { (t : Terms) (v : Verifying) (m : Rebuilt) (es : List Tree) (p : Progress) → Stands m → t.values ≡ length m.values → entries_applied t v m.block m.holed es ≡ Ok p → Fits m.values p.holed }
{
    entry_outcome_decides();
    fill_fault_decides();
    filling_stays();
}
