// Holes: the object and the text that stand for a value of a list, by its number.
ghost use Rattle.std.specs.Prelude.{◌≡◌, ◌≢◌, ◌++◌, ℕ, List, OnOk, IfOk, MatchOption, option_map, string_bytes, codes};
ghost use Rattle.spec_documents.specs.Hole as spec;
ghost use Rattle.n32_values.specs.View.{tree_of};
ghost use Rattle.doc_forms.specs.Capped.{capped, digits_number, natural_at};
ghost use Rattle.spec_documents.specs.Tree.{whole};

use crate::writers::{number_text, put};
use json_ptr::{capped_number, is_index};
use n32_values::{NoMemory, Node, NodeMap, Whole};
use std::alloc::Global;

/// The object `{"encBlockIndex":n}`, which stands for value n (TS 29.573).
pub fn hole_node(alloc: Global, index: u32) -> Result<Node, NoMemory>
    ensures { IfOk result (λ n. tree_of n ≡ spec.hole index) }
{
    let mut map = NodeMap::new(alloc);
    let index = Whole::from_u64(u64::from(index));
    put(alloc, &mut map, "encBlockIndex", Node::Whole(index))?;
    Ok(Node::Members(map))
}

/// The number of an object that is a hole, which has no member but `encBlockIndex`, a whole number
/// from 0. A number that a `u32` doesn't hold is read as the greatest.
pub fn hole_index(node: &Node) -> Option<u32>
    ensures { result ≡ option_map capped (spec.hole_index (tree_of node.now)) }
{
    match node {
        Node::Members(map) => one_index(map),
        _ => None,
    }
}

#[tactic(auto, using(crate::proofs::HoleForms::one_member, crate::proofs::HoleForms::other_count))]
fn one_index(map: &NodeMap) -> Option<u32>
    ensures { result ≡ option_map capped (spec.hole_members map.now) }
{
    if map.len() != 1 {
        return None;
    }
    natural_in(map.get("encBlockIndex"))
}

fn natural_in(node: Option<&Node>) -> Option<u32>
    ensures { result ≡ option_map capped (natural_at (option_map (λ n. tree_of n.now) node.entry)) }
{
    match node {
        Some(Node::Whole(number)) => natural(*number),
        _ => None,
    }
}

/// Adds the text `{encBlockIndex=n}`, which stands for value n within a path or a query. After a
/// refusal a part of it may be there.
pub fn push_hole(alloc: Global, out: &mut String, index: u32) -> Result<(), NoMemory>
    ensures ok { OnOk result (string_bytes out.new ≡ string_bytes out.old ++ spec.hole_text index) }
{
    let digits = number_text(alloc, u64::from(index))?;
    out.push_str("{encBlockIndex=")?;
    out.push_str(digits.as_str())?;
    out.push_str("}")?;
    Ok(())
}

/// The number of a text that is a hole, which has 1 to 10 digits with no leading zero. A number that
/// a `u32` doesn't hold is read as the greatest.
pub fn text_hole(text: &str) -> Option<u32>
    ensures { result ≡ option_map capped (spec.text_hole text.now) }
{
    match digits_within(text) {
        Some(digits) => number_of(digits),
        None => None,
    }
}

fn digits_within(text: &str) -> Option<&str>
    ensures { MatchOption result
        ((digits : List ℕ) → text.now ≢ spec.hole_opening ++ digits ++ codes "}")
        (λ digits. text.now ≡ spec.hole_opening ++ digits.now ++ codes "}") }
{
    match text.strip_prefix("{encBlockIndex=") {
        Some(rest) => rest.strip_suffix("}"),
        None => None,
    }
}

fn number_of(digits: &str) -> Option<u32>
    ensures { result ≡ option_map capped (digits_number digits.now) }
{
    let digits = digits.as_bytes();
    if digits.len() <= 10 && is_index(digits) {
        Some(held(capped_number(digits) as u64))
    } else {
        None
    }
}

fn natural(number: Whole) -> Option<u32>
    ensures { result ≡ option_map capped (spec.natural (whole number)) }
{
    match u64::try_from(number.value()) {
        Ok(number) => Some(held(number)),
        Err(_) => None,
    }
}

// The number, or the greatest that a `u32` holds.
fn held(number: u64) -> u32
    ensures { result ≡ capped number }
{
    u32::try_from(number).unwrap_or(u32::MAX)
}
