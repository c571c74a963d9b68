// One entry, checked and applied.
ghost use Rattle.std.specs.Prelude.{◌≡◌, ◌≤◌, true};
ghost use Rattle.n32_outside.specs.Causes.{Rose};
ghost use Rattle.n32_values.specs.View.{tree_of};
ghost use Rattle.block_patch.specs.Commutes.{BlockOf};
ghost use Rattle.entry_checks.specs.Views.{route_view, terms_view};
ghost use Rattle.entry_checks.specs.Verifiers.{verdict};
ghost use Rattle.entry_checks.specs.Steps.{Steps, entry_on, fails, said};

use crate::bound::read_bound;
use crate::changes::make_changes;
use crate::refused::StepFault;
use crate::route::Route;
use crate::terms::EntryTerms;
use block_forms::Block;
use n32_outside::Verifier;
use n32_values::Node;
use std::alloc::Global;

/// Checks an entry on the rest of the route and makes its changes on a block. It gives what is left of the
/// route.
#[tactic(auto, unfolding(spec_documents::specs::Chain::chains))]
pub(crate) fn step<'a, V: Verifier>(
    alloc: Global,
    verifier: &mut V,
    terms: &EntryTerms<'_>,
    rest: Route<'a>,
    block: &mut Block,
    node: &Node,
) -> Result<Route<'a>, StepFault>
    ensures steps { (b : BlockOf block.old) → Steps b.holes block.new (entry_on (terms_view terms.now b.holes) (route_view rest.entry) (verdict (V.meaning verifier.old) (said result) (fails result)) block.old b.clear (tree_of node.now)) result }
    ensures same_meaning { V.meaning verifier.new ≡ V.meaning verifier.old }
    ensures later { V.faults verifier.old ≤ V.faults verifier.new }
    ensures failed { fails result ≡ true → Rose (V.faults verifier.old) (V.faults verifier.new) }
{
    match read_bound(alloc, verifier, terms.tag, rest, node) {
        Ok(bound) => match make_changes(alloc, terms, block, &bound.entry) {
            Ok(()) => Ok(bound.rest),
            Err(fault) => Err(fault),
        },
        Err(fault) => Err(fault),
    }
}
