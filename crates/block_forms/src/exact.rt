// Objects that have exactly the members of these names.
ghost use Rattle.std.specs.Prelude.{◌≡◌, option_map};
ghost use Rattle.n32_values.specs.View.{tree_of};
ghost use Rattle.block_forms.specs.Exact as spec;

use n32_values::{Node, NodeMap};

// The nodes of two members and no others, by their names in byte order.
#[tactic(auto, using(crate::proofs::Exactly::exactly))]
pub(crate) fn two_members<'a>(
    map: &'a NodeMap,
    first: &str,
    second: &str,
) -> Option<(&'a Node, &'a Node)>
    ensures { option_map (λ p. (tree_of p.0.now, tree_of p.1.now)) result ≡ spec.two_members first.now second.now map.now }
{
    if map.len() != 2 {
        return None;
    }
    let (name, node) = map.entry(0);
    let (other, last) = map.entry(1);
    if name.as_str() == first && other.as_str() == second {
        Some((node, last))
    } else {
        None
    }
}

// The nodes of three members and no others, by their names in byte order.
#[tactic(auto, using(crate::proofs::Exactly::exactly))]
pub(crate) fn three_members<'a>(
    map: &'a NodeMap,
    first: &str,
    second: &str,
    third: &str,
) -> Option<(&'a Node, &'a Node, &'a Node)>
    ensures { option_map (λ p. (tree_of p.0.now, tree_of p.1.now, tree_of p.2.now)) result ≡ spec.three_members first.now second.now third.now map.now }
{
    if map.len() != 3 {
        return None;
    }
    let (name, node) = map.entry(0);
    let (other, middle) = map.entry(1);
    let (another, last) = map.entry(2);
    if name.as_str() == first && other.as_str() == second && another.as_str() == third {
        Some((node, middle, last))
    } else {
        None
    }
}
