//! Policies and their documents.

ghost use Rattle.std.specs.Prelude.{◌≡◌, ◌≤◌, Ok, length};
ghost use Rattle.spec_documents.specs.Tree.{Tree};
ghost use Rattle.spec_messages.specs.Policy.{Policy};
ghost use Rattle.spec_messages.specs.PolicyDocument.{policy_of, policy_tree};

/// What is printed of a policy that was read is read to the same policy.
pub fn printed_policy_is_read()
    ensures { (t : Tree) (p : Policy) → policy_of t ≡ Ok p → policy_of (policy_tree p) ≡ Ok p }
{}

/// A policy that was read has at most 65,536 mappings.
pub fn policies_are_few()
    ensures { (t : Tree) (p : Policy) → policy_of t ≡ Ok p → length p.mappings ≤ 65536 }
{}
