// How the policies of both sides differ.
ghost use Rattle.std.specs.Prelude.{◌≡◌, option_map, slice_get, Err, IfOk, OnOk};
ghost use Rattle.spec_documents.specs.Chain.{none_of};
ghost use Rattle.spec_documents.specs.Gives.{Gives, Tells};
ghost use Rattle.spec_messages.specs.PolicyDocument.{mapping_tree, ReadsBack};
ghost use Rattle.spec_handshake.specs.Differences.{AtMapping, difference};
ghost use Rattle.spec_handshake.specs.Refusals.{PolicyDiffers};
ghost use Rattle.policy_documents.specs.View.{mapping_view};
ghost use Rattle.n32c_handshake.specs.Faults.{told};

use crate::fault::CheckFault;
use crate::refusal::HandRefusal;
use n32_values::{Doc, NoMemory};
use policy_documents::{Mapping, Policy, PolicyMatch, mapping_doc, same_policy};
use spec_handshake::documents::{first_difference_is_told, written_document_is_read};
use std::alloc::Global;

// A mapping as it is printed, which nests a few levels deep.
fn printed(alloc: Global, mapping: &Mapping) -> Result<Doc, NoMemory>
    ensures { IfOk result (λ d. d ≡ mapping_tree (mapping_view mapping.now)) }
{
    written_document_is_read();
    let node = mapping_doc(alloc, mapping)?;
    Ok(Doc::from_shallow(node))
}

// Mapping k as it is printed, where the policy has it.
fn printed_at(alloc: Global, policy: &Policy, k: u32) -> Result<Option<Doc>, NoMemory>
    ensures { IfOk result (λ o. o ≡ option_map mapping_tree (slice_get policy.now.mappings k)) }
{
    match policy.mapping(k) {
        Some(mapping) => Ok(Some(printed(alloc, mapping)?)),
        None => Ok(None),
    }
}

fn mapping_differs(alloc: Global, own: &Policy, other: &Policy, k: u32) -> CheckFault
    ensures { Tells {B = Unit {0}} (told result) (Err (PolicyDiffers (AtMapping k (option_map mapping_tree (slice_get own.now.mappings k)) (option_map mapping_tree (slice_get other.now.mappings k))))) }
{
    let Ok(mine) = printed_at(alloc, own, k) else {
        return CheckFault::NoMemory;
    };
    let Ok(theirs) = printed_at(alloc, other, k) else {
        return CheckFault::NoMemory;
    };
    CheckFault::Refused(HandRefusal::MappingDiffers {
        number: k,
        own: mine,
        other: theirs,
    })
}

// That a policy is what its own document is read to.
fn reads_back(policy: &Policy)
    ensures { ReadsBack policy.now }
{
    let _mappings = policy.len();
}

/// Nothing, where the policies are the same, or how they differ first.
pub(crate) fn agree(alloc: Global, own: &Policy, other: &Policy) -> Result<(), CheckFault>
    ensures differs { Gives told (λ u. tt) result (none_of PolicyDiffers (difference own.now other.now)) }
    ensures same { OnOk result (own.now ≡ other.now) }
{
    first_difference_is_told();
    reads_back(own);
    reads_back(other);
    match same_policy(own, other) {
        PolicyMatch::Same => Ok(()),
        PolicyMatch::Mapping(k) => Err(mapping_differs(alloc, own, other, k)),
        PolicyMatch::Types => Err(CheckFault::Refused(HandRefusal::TypesDiffer)),
    }
}
