// What is checked of an entry before its operations are made.
ghost use Rattle.std.specs.Prelude.{◌≡◌, ◌≤◌, IfErr, true, bytes_eq};
ghost use Rattle.spec_documents.specs.Gives.{Gives};
ghost use Rattle.spec_sealing.specs.Entries.{entry_in};
ghost use Rattle.n32_outside.specs.Causes.{Rose};
ghost use Rattle.n32_values.specs.View.{tree_of};
ghost use Rattle.jws_flat.specs.View.{member_told};
ghost use Rattle.spec_exchange.specs.Chain.{or_refused};
ghost use Rattle.spec_exchange.specs.EntryChecks.{claim_of, is_signed};
ghost use Rattle.spec_exchange.specs.EntryRefusals.{BadForm};
ghost use Rattle.entry_checks.specs.Views.{route_view};
ghost use Rattle.entry_checks.specs.Verifiers.{verdict};
ghost use Rattle.entry_checks.specs.Steps.{IsQuiet, bound_on, bound_view, checked_on, fails, said, signed_view, step_told};

use crate::refused::{EntryWhy, StepFault};
use crate::route::Route;
use jws_flat::{Entry, FlatJws, JwsRead, VerifyFault, read_entry, read_jws, verify_entry};
use n32_outside::Verifier;
use n32_values::{Node, Text};
use std::alloc::Global;

// An entry as it was signed.
#[derive(Drop)]
pub(crate) struct SignedEntry {
    pub(crate) jws: FlatJws,
    pub(crate) entry: Entry,
}

// An entry that is bound to its document, and what is left of the route.
#[derive(Drop)]
pub(crate) struct Bound<'a> {
    pub(crate) entry: Entry,
    pub(crate) rest: Route<'a>,
}

#[tactic(auto, unfolding(spec_documents::specs::Chain::chains))]
fn read_parts(alloc: Global, node: &Node) -> Result<SignedEntry, JwsRead>
    ensures { Gives member_told signed_view result (entry_in (tree_of node.now)) }
{
    let jws = read_jws(alloc, node)?;
    let entry = read_entry(alloc, &jws)?;
    Ok(SignedEntry { jws, entry })
}

// An entry that has its form.
fn read_signed(alloc: Global, node: &Node) -> Result<SignedEntry, StepFault>
    ensures signed { Gives step_told signed_view result (or_refused BadForm (entry_in (tree_of node.now))) }
    ensures quiet { IfErr result (λ fault. IsQuiet fault) }
{
    match read_parts(alloc, node) {
        Ok(signed) => Ok(signed),
        Err(JwsRead::Form(member)) => Err(StepFault::Refused(EntryWhy::Form(member))),
        Err(JwsRead::NoMemory) => Err(StepFault::NoMemory),
    }
}

// Asks the verifier.
fn verify<V: Verifier>(
    alloc: Global,
    verifier: &mut V,
    signed: &SignedEntry,
) -> Result<(), StepFault>
    ensures signed { Gives step_told (λ u. u) result (is_signed (verdict (V.meaning verifier.old) (said result) (fails result) (claim_of (signed_view signed.now)))) }
    ensures same_meaning { V.meaning verifier.new ≡ V.meaning verifier.old }
    ensures later { V.faults verifier.old ≤ V.faults verifier.new }
    ensures failed { fails result ≡ true → Rose (V.faults verifier.old) (V.faults verifier.new) }
{
    match verify_entry(alloc, verifier, &signed.jws, &signed.entry.identity) {
        Ok(()) => Ok(()),
        Err(VerifyFault::Signature) => Err(StepFault::Refused(EntryWhy::Signature)),
        Err(VerifyFault::Verifier) => Err(StepFault::Refused(EntryWhy::Verifier)),
        Err(VerifyFault::NoMemory) => Err(StepFault::NoMemory),
    }
}

fn is_for(entry: &Entry, tag: &Text) -> bool
    ensures { result ≡ bytes_eq entry.now.tag tag.now }
{
    entry.tag.as_str() == tag.as_str()
}

// An entry of an intermediary on the rest of the route, signed by it, and bound to the document of the tag.
#[tactic(auto, unfolding(spec_documents::specs::Chain::chains))]
fn check<'a, V: Verifier>(
    alloc: Global,
    verifier: &mut V,
    tag: &Text,
    rest: Route<'a>,
    signed: &SignedEntry,
) -> Result<Route<'a>, StepFault>
    ensures checked { Gives step_told route_view result (checked_on tag.now (route_view rest.entry) (verdict (V.meaning verifier.old) (said result) (fails result)) (signed_view signed.now)) }
    ensures same_meaning { V.meaning verifier.new ≡ V.meaning verifier.old }
    ensures later { V.faults verifier.old ≤ V.faults verifier.new }
    ensures failed { fails result ≡ true → Rose (V.faults verifier.old) (V.faults verifier.new) }
{
    let Some(later) = rest.behind(&signed.entry.identity) else {
        return Err(StepFault::Refused(EntryWhy::Identity));
    };
    verify(alloc, verifier, signed)?;
    if !is_for(&signed.entry, tag) {
        return Err(StepFault::Refused(EntryWhy::Tag));
    }
    Ok(later)
}

/// An entry of the form, of an intermediary on the rest of the route, signed by it, and bound to the document
/// of the tag.
#[tactic(auto, unfolding(spec_documents::specs::Chain::chains))]
pub(crate) fn read_bound<'a, V: Verifier>(
    alloc: Global,
    verifier: &mut V,
    tag: &Text,
    rest: Route<'a>,
    node: &Node,
) -> Result<Bound<'a>, StepFault>
    ensures bound { Gives step_told bound_view result (bound_on tag.now (route_view rest.entry) (verdict (V.meaning verifier.old) (said result) (fails result)) (tree_of node.now)) }
    ensures same_meaning { V.meaning verifier.new ≡ V.meaning verifier.old }
    ensures later { V.faults verifier.old ≤ V.faults verifier.new }
    ensures failed { fails result ≡ true → Rose (V.faults verifier.old) (V.faults verifier.new) }
{
    let signed = match read_signed(alloc, node) {
        Ok(signed) => signed,
        Err(fault) => return Err(fault),
    };
    match check(alloc, verifier, tag, rest, &signed) {
        Ok(rest) => Ok(Bound {
            entry: signed.entry,
            rest,
        }),
        Err(fault) => Err(fault),
    }
}
