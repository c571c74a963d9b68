ghost use Rattle.std.specs.Prelude.{◌≡◌, ◌<◌, ◌++◌, ◌^◌, Ok, IfOk, OnOk, length, MatchResult, MatchOption, option_map, Some, string_bytes};
ghost use Rattle.std.specs.Option.{option_copied};
ghost use Rattle.spec_documents.specs.Tree.{items, members, trees};
ghost use Rattle.spec_documents.specs.Hole as spec;
ghost use Rattle.n32_values.specs.View.{tree_of};
ghost use Rattle.doc_forms.specs.Capped.{capped};
ghost use Rattle.enc_index.specs.Places.{place_view};
ghost use Rattle.enc_index.specs.Sites.{filled_at, filled_items, filled_members, filled_words, hole_at};
ghost use Rattle.enc_index.specs.Filling.{filling, first_unfit, is_unfit};
ghost use Rattle.enc_index.specs.Faults.{TellsWhy};

use crate::holes::{Holes, Place};
use crate::site::Site;
use crate::spelling::is_marked_map;
use doc_forms::{cut, hole_index, text_hole};
use n32_values::{Doc, NoMemory, Node, NodeList, NodeMap, Text, copy_doc};
use std::alloc::{AllocError, Global};

/// Why a block isn't filled.
#[derive(Clone, Copy, Debug, PartialEq, Eq, Drop)]
pub enum FillFault {
    /// The value with this index, the least such one, fills a text hole and is no text.
    NotText(u32),
    /// The values fit, and the filled block nests deeper than 127.
    TooDeep,
    NoMemory,
}

impl From<NoMemory> for FillFault {
    ghost use Rattle.enc_index.specs.declared.filling.FillFault.TheVariants.{NoMemory as no_memory};
    ghost use Rattle.std.specs.Prelude.{◌≡◌};

    ghost from_gives = { λ _ e. e ≡ no_memory };

    fn from(_refused: NoMemory) -> FillFault {
        FillFault::NoMemory
    }
}

/// A block with each hole replaced by its value, text holes within their text.
pub fn fill(alloc: Global, block: &Doc, holes: &Holes, values: &NodeList) -> Result<Doc, FillFault>
    requires { spec.places block.now (length values.now) ≡ Ok holes.now }
    ensures outcome { MatchResult result
        (λ filled. filling holes.now values.now block.now ≡ Ok filled)
        (λ fault. TellsWhy fault (filling holes.now values.now block.now)) }
    ensures tree { IfOk result (λ filled. spec.fill_tree values.now block.now ≡ Some filled) }
{
    if let Some(index) = unfit_value(holes, values) {
        return Err(FillFault::NotText(index));
    }
    let filled = filled_node(alloc, Site::Block, block.node(), values)?;
    match Doc::new(filled) {
        Ok(doc) => Ok(doc),
        Err(_) => Err(FillFault::TooDeep),
    }
}

// The least index that fills a text hole with a value that is no text.
fn unfit_value(holes: &Holes, values: &NodeList) -> Option<u32>
    requires { length holes.now ≡ length values.now }
    ensures value { result ≡ first_unfit 0 holes.now values.now }
    ensures small { length values.now < 2 ^ 32 }
{
    for i in 0..holes.len() {
        if is_unfit_at(holes.item(i), values.item(i)) {
            return Some(i as u32);
        }
    }
    None
}

fn is_unfit_at(place: &Place, value: &Node) -> bool
    ensures { result ≡ is_unfit (place_view place.now) (tree_of value.now) }
{
    match (&place.part, value) {
        (None, _) => false,
        (_, Node::Words(_)) => false,
        _ => true,
    }
}

#[cycle(filled)]
fn filled_node(alloc: Global, site: Site, node: &Node, values: &NodeList) -> Result<Node, NoMemory>
    requires { length values.now < 2 ^ 32 }
    ensures { IfOk result (λ n. tree_of n ≡ filled_at site values.now (tree_of node.now)) }
{
    match node {
        Node::Words(text) => Ok(Node::Words(filled_text(alloc, site, text.as_str(), values)?)),
        Node::Items(list) => Ok(Node::Items(filled_list(alloc, site.item(), list, values)?)),
        Node::Members(map) => {
            let site = site.entered(is_marked_map(map));
            match hole_here(site, node) {
                Some(index) => value_copy(alloc, values, index),
                None => Ok(Node::Members(filled_map(alloc, site, map, values)?)),
            }
        }
        _ => copy_doc(alloc, node),
    }
}

#[cycle(filled)]
fn filled_list(
    alloc: Global,
    site: Site,
    list: &NodeList,
    values: &NodeList,
) -> Result<NodeList, NoMemory>
    requires { length values.now < 2 ^ 32 }
    ensures { IfOk result (λ l. trees l ≡ filled_items site values.now (trees list.now)) }
{
    let mut filled = NodeList::new(alloc);
    for i in 0..list.len() {
        filled.push(filled_node(alloc, site, list.item(i), values)?)?;
    }
    Ok(filled)
}

#[cycle(filled)]
fn filled_map(
    alloc: Global,
    site: Site,
    map: &NodeMap,
    values: &NodeList,
) -> Result<NodeMap, NoMemory>
    requires { length values.now < 2 ^ 32 }
    ensures { IfOk result (λ m. m ≡ filled_members site values.now map.now) }
{
    let mut filled = NodeMap::new(alloc);
    for i in 0..map.len() {
        let (name, node) = map.entry(i);
        let node = filled_node(alloc, site.member(name.as_str()), node, values)?;
        filled.push_last(name.copy(alloc)?, node)?;
    }
    Ok(filled)
}

// The index of the hole that an object at an entered site is.
fn hole_here(site: Site, node: &Node) -> Option<u32>
    ensures { result ≡ option_map capped (hole_at site (tree_of node.now)) }
{
    match site {
        Site::Value => hole_index(node),
        _ => None,
    }
}

// A copy of the value with this index.
fn value_copy(alloc: Global, values: &NodeList, index: u32) -> Result<Node, NoMemory>
    ensures { IfOk result (λ n. tree_of n ≡ spec.value_at values.now index) }
{
    match values.get(index as usize) {
        Some(value) => copy_doc(alloc, value),
        None => Ok(Node::Null),
    }
}

// ---- texts

fn filled_text(alloc: Global, site: Site, text: &str, values: &NodeList) -> Result<Text, NoMemory>
    requires { length values.now < 2 ^ 32 }
    ensures { IfOk result (λ t. t ≡ filled_words site values.now text.now) }
{
    match site {
        Site::Path => filled_path(alloc, text, values),
        Site::Query => filled_query(alloc, text, values),
        _ => Text::from_text(alloc, text),
    }
}

fn filled_path(alloc: Global, path: &str, values: &NodeList) -> Result<Text, NoMemory>
    requires { length values.now < 2 ^ 32 }
    ensures { IfOk result (λ t. t ≡ spec.filled_path values.now path.now) }
{
    let (front, mut rest) = cut(path, '/');
    let mut out = String::from_str(alloc, front)?;
    'segments: while let Some(left) = rest {
        let (segment, after) = cut(left, '/');
        out.push_str("/")?;
        out.push_str(value_text(segment, values))?;
        rest = after;
    }
    Ok(Text::from_string(out))
}

fn filled_query(alloc: Global, query: &str, values: &NodeList) -> Result<Text, NoMemory>
    requires { length values.now < 2 ^ 32 }
    ensures { IfOk result (λ t. t ≡ spec.filled_query values.now query.now) }
{
    let (first, mut rest) = cut(query, '&');
    let mut out = String::new(alloc);
    push_pair(&mut out, first, values)?;
    'pairs: while let Some(left) = rest {
        let (pair, after) = cut(left, '&');
        out.push_str("&")?;
        push_pair(&mut out, pair, values)?;
        rest = after;
    }
    Ok(Text::from_string(out))
}

fn push_pair(out: &mut String, pair: &str, values: &NodeList) -> Result<(), NoMemory>
    requires { length values.now < 2 ^ 32 }
    ensures { OnOk result (string_bytes out.new ≡ string_bytes out.old ++ spec.filled_pair values.now pair.now) }
{
    let (name, value) = cut(pair, '=');
    out.push_str(name)?;
    if let Some(value) = value {
        out.push_str("=")?;
        out.push_str(value_text(value, values))?;
    }
    Ok(())
}

// The text itself, or the value that it stands for.
fn value_text<'a>(text: &'a str, values: &'a NodeList) -> &'a str
    requires { length values.now < 2 ^ 32 }
    ensures { result.now ≡ spec.filled_text values.now text.now }
{
    match text_hole(text) {
        Some(index) => words_at(values, index),
        None => text,
    }
}

fn words_at<'a>(values: &'a NodeList, index: u32) -> &'a str
    ensures { result.now ≡ spec.text_value (spec.value_at values.now index) }
{
    match values.get(index as usize) {
        Some(value) => words_of(value),
        None => "",
    }
}

fn words_of(node: &Node) -> &str
    ensures { result.now ≡ spec.text_value (tree_of node.now) }
{
    match node {
        Node::Words(text) => text.as_str(),
        _ => "",
    }
}
