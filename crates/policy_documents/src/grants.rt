ghost use Rattle.std.specs.Prelude.{◌≡◌, IfOk, IsTrue, ◌↔◌, is_some, option_map};
ghost use Rattle.std.specs.List.{list_all};
ghost use Rattle.spec_messages.specs.Policy.{answer_for};
ghost use Rattle.spec_messages.specs.PolicyDocument.{grants_of, grant_of, grants_tree};
ghost use Rattle.spec_documents.specs.Fields.{field_list};
ghost use Rattle.n32_values.specs.View.{tree_of};
ghost use Rattle.policy_documents.specs.Granted.{truth_in as told_truth};

use doc_forms::is_identity;
use n32_values::{NoMemory, Node, NodeMap, copy_doc, is_same_doc};
use std::alloc::Global;
use std::marker::Model;

/// Which intermediaries may modify an element, and which may not (`isModifiableByIpx` of TS 29.573):
/// an object from identities to truth values, which contracts see as the list of its members.
#[derive(Drop)]
pub struct Grants {
    node: Node,
}

impl Model for Grants {
    ghost use Rattle.std.specs.Prelude.{◌≡◌, ℕ, List, Bool, Some};
    ghost use Rattle.spec_messages.specs.PolicyDocument.{grants_of};
    ghost use Rattle.n32_values.specs.View.{tree_of};
    ghost use Rattle.policy_documents.specs.Granted.{grants_in};

    ghost Value = { List (List ℕ × Bool) };

    ghost view = { λ g. grants_in (tree_of g.node) };

    ghost invariant = { λ g. grants_of (tree_of g.node) ≡ Some (grants_in (tree_of g.node)) };
}

impl Grants {
    /// Reads a node, `None` exactly where it is no object from identities to truth values.
    pub(crate) fn read(alloc: Global, node: &Node) -> Result<Option<Grants>, NoMemory>
        ensures { IfOk result (λ g. g ≡ grants_of (tree_of node.now)) }
    {
        if !are_grants(node) {
            return Ok(None);
        }
        Ok(Some(Grants {
            node: copy_doc(alloc, node)?,
        }))
    }

    /// What an intermediary is told, if it is named.
    pub fn answer(&self, ipx: &str) -> Option<bool>
        ensures { result ≡ answer_for ipx.now self.now }
    {
        let Node::Members(map) = &self.node else {
            return None;
        };
        truth_in(map.get(ipx))
    }

    pub(crate) fn node(&self, alloc: Global) -> Result<Node, NoMemory>
        ensures { IfOk result (λ n. tree_of n ≡ grants_tree self.now) }
    {
        let node = copy_doc(alloc, &self.node)?;
        Ok(node)
    }

    /// Equal grants.
    pub fn copy(&self, alloc: Global) -> Result<Grants, NoMemory>
        ensures { IfOk result (λ g. g ≡ self.now) }
    {
        Ok(Grants {
            node: copy_doc(alloc, &self.node)?,
        })
    }

    /// Whether two are equal.
    pub fn is_same(&self, other: &Grants) -> bool
        ensures { IsTrue result ↔ (self.now ≡ other.now) }
    {
        is_same_doc(&self.node, &other.node)
    }
}

fn truth_in(node: Option<&Node>) -> Option<bool>
    ensures { result ≡ told_truth (option_map (λ n. tree_of n.now) node.entry) }
{
    match node {
        Some(Node::Truth(truth)) => Some(*truth),
        _ => None,
    }
}

#[tactic(auto, using(crate::proofs::GrantLemmas::all_given))]
fn are_grants(node: &Node) -> bool
    ensures { result ≡ is_some (grants_of (tree_of node.now)) }
{
    match node {
        Node::Members(map) => are_members(map),
        _ => false,
    }
}

fn are_members(map: &NodeMap) -> bool
    ensures { result ≡ list_all (λ e. is_some (grant_of e)) (field_list map.now) }
{
    for i in 0..map.len() {
        let (name, node) = map.entry(i);
        if !is_grant(name.as_str(), node) {
            return false;
        }
    }
    true
}

fn is_grant(name: &str, node: &Node) -> bool
    ensures { result ≡ is_some (grant_of (name.now, tree_of node.now)) }
{
    match node {
        Node::Truth(_) => is_identity(name),
        _ => false,
    }
}
