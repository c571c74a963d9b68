// The nodes: added, looked up and begun anew.
ghost use Rattle.std.specs.Prelude.{◌≡◌, is_some, option_map};
ghost use Rattle.spec_script.specs.Events.{AddNode, Restart};
ghost use Rattle.spec_script.specs.Steps as spec;
ghost use Rattle.replay_world.specs.Outsiders.{unasked};
ghost use Rattle.replay_world.specs.Worlds.{IsSound, sites_view};
ghost use Rattle.replay_world.specs.Handling.{HandlesAlone};

use crate::world::{Site, SiteList, World};
use n32_values::{Bytes, PlmnId, Text};
use script_lines::{Refusal, Unanswered, done_text};
use std::alloc::Global;

/// Whether a node has this name.
pub(crate) fn is_known(sites: &SiteList, node: &Text) -> bool
    ensures { result ≡ is_some (spec.plmn_at (sites_view sites.now) node.now) }
{
    for site in sites.as_slice() {
        if site.node.as_str() == node.as_str() {
            return true;
        }
    }
    false
}

/// The network of a node, where there is one of this name.
pub(crate) fn plmn_of<'a>(sites: &'a SiteList, node: &Text) -> Option<&'a PlmnId>
    ensures { option_map (λ p. p.now) result ≡ spec.plmn_at (sites_view sites.now) node.now }
{
    for site in sites.as_slice() {
        if site.node.as_str() == node.as_str() {
            return Some(&site.plmn);
        }
    }
    None
}

/// A node begins to work.
pub(crate) fn add_node(
    alloc: Global,
    world: &mut World,
    number: u64,
    node: Text,
    plmn: PlmnId,
) -> Result<Bytes, Unanswered>
    requires { IsSound world.old }
    ensures { HandlesAlone (unasked (AddNode node plmn)) world.old world.new number result }
{
    if is_known(&world.sites, &node) {
        return Err(Unanswered::Refused(Refusal::NodeExists));
    }
    let text = done_text(alloc, number, "node")?;
    world.sites.push(Site { node, plmn })?;
    Ok(text)
}

/// A node begins anew: the records are read again at the next event that asks for them, and its starts are dropped.
pub(crate) fn restart(
    alloc: Global,
    world: &mut World,
    number: u64,
    node: &Text,
) -> Result<Bytes, Unanswered>
    requires { IsSound world.old }
    ensures { HandlesAlone (unasked (Restart node.now)) world.old world.new number result }
{
    if !is_known(&world.sites, node) {
        return Err(Unanswered::Refused(Refusal::NodeUnknown));
    }
    let text = done_text(alloc, number, "restart")?;
    world.store.forget();
    world.hands.drop_node(node);
    Ok(text)
}
