// The entries of a document, one after the other.
ghost use Rattle.std.specs.Prelude.{◌≡◌, ◌≤◌, ◌<◌, ◌+◌, [], Ok};
ghost use Rattle.n32_outside.specs.Causes.{Rose};
ghost use Rattle.block_patch.specs.Commutes.{BlockOf};
ghost use Rattle.spec_exchange.specs.EntryChecks.{entries_applied};
ghost use Rattle.entry_checks.specs.Views.{terms_view};
ghost use Rattle.entry_checks.specs.Verifiers.{UnderVerifier};
ghost use Rattle.entry_checks.specs.Answers.{Answers, IsOfVerifier};
ghost use Rattle.entry_checks.specs.Steps.{Numbers};

use crate::refused::{EntriesFault, RefusedEntry, StepFault};
use crate::step::step;
use crate::terms::EntryTerms;
use block_forms::Block;
use n32_outside::Verifier;
use n32_values::NodeList;
use std::alloc::Global;

fn numbered(number: u64, fault: StepFault) -> EntriesFault
    ensures { Numbers number fault result }
{
    match fault {
        StepFault::Refused(why) => EntriesFault::Refused(RefusedEntry { entry: number, why }),
        StepFault::NoMemory => EntriesFault::NoMemory,
    }
}

fn all_entries<V: Verifier>(
    alloc: Global,
    verifier: &mut V,
    terms: &EntryTerms<'_>,
    block: Block,
    entries: &NodeList,
) -> Result<Block, EntriesFault>
    ensures answer { UnderVerifier (V.meaning verifier.old) (V.faults verifier.old) (V.faults verifier.new) (λ v. (b : BlockOf block) → Answers b.holes (entries_applied (terms_view terms.now b.holes) v block b.clear entries.now) result) }
    ensures same_meaning { V.meaning verifier.new ≡ V.meaning verifier.old }
    ensures later { V.faults verifier.old ≤ V.faults verifier.new }
    ensures failed { IsOfVerifier result → Rose (V.faults verifier.old) (V.faults verifier.new) }
{
    let mut current = block;
    let mut rest = terms.route;
    for i in 0..entries.len() {
        match step(alloc, verifier, terms, rest, &mut current, entries.item(i)) {
            Ok(later) => rest = later,
            Err(fault) => return Err(numbered(i as u64 + 1, fault)),
        }
    }
    Ok(current)
}

/// Checks the entries of a document and makes their changes on its block, one entry after the other: each has
/// the form, is of an intermediary on the way, behind those of the entries before, is signed by it, is bound to
/// the document, and has operations that are all allowed (after TS 33.501 clause 13.2.4.6). An entry without
/// operations is checked all the same. Without entries the block is given back, and nothing is asked.
///
/// # Errors
/// `Refused` with the first entry that is refused, and the first reason in the order of `EntryWhy`. The reason
/// `Verifier` comes only where the verifier failed. `NoMemory` where memory was refused.
pub fn apply_entries<V: Verifier>(
    alloc: Global,
    verifier: &mut V,
    terms: &EntryTerms<'_>,
    block: Block,
    entries: &NodeList,
) -> Result<Block, EntriesFault>
    ensures answer { UnderVerifier (V.meaning verifier.old) (V.faults verifier.old) (V.faults verifier.new) (λ v. (b : BlockOf block) → Answers b.holes (entries_applied (terms_view terms.now b.holes) v block b.clear entries.now) result) }
    ensures none { entries.now ≡ [] → (result ≡ Ok block) × (verifier.new ≡ verifier.old) }
    ensures same_meaning { V.meaning verifier.new ≡ V.meaning verifier.old }
    ensures later { V.faults verifier.old ≤ V.faults verifier.new }
    ensures failed { IsOfVerifier result → Rose (V.faults verifier.old) (V.faults verifier.new) }
{
    if entries.len() == 0 {
        return Ok(block);
    }
    all_entries(alloc, verifier, terms, block, entries)
}
