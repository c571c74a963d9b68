// The document of a policy is read, or its first bad mapping is named.
ghost use Rattle.std.specs.Prelude.{◌≡◌, ◌≤◌, filter, map, option_map, length, IfOk, IfErr, codes};
ghost use Rattle.std.specs.List.{list_any};
ghost use Rattle.n32_values.specs.View.{tree_of};
ghost use Rattle.spec_documents.specs.Place.{pointer_text};
ghost use Rattle.spec_documents.specs.Tree.{items_in};
ghost use Rattle.spec_documents.specs.Text as texts;
ghost use Rattle.spec_messages.specs.Message.{wanted, text_at};
ghost use Rattle.spec_messages.specs.Policy as spec;
ghost use Rattle.spec_messages.specs.PolicyDocument as document;
ghost use Rattle.doc_forms.specs.Grammars.{test_of};
ghost use Rattle.policy_documents.specs.Words.{location_view, sort_view};
ghost use Rattle.policy_documents.specs.Target.{target_view, pointer_name};
ghost use Rattle.policy_documents.specs.View.{element_view, mapping_view, pattern_view, policy_view};
ghost use Rattle.policy_documents.specs.Reading.{Gives, IsMemory};

use crate::grants::Grants;
use crate::policy::{
    Element, ElementList, Mapping, MappingList, Names, PatternList, Policy, Target, TypeList,
};
use crate::template::read_template;
use crate::words::{IeLoc, IeType};
use doc_forms::{Grammar, is_header_name, is_token, text_at};
use json_ptr::{Pointer, PointerRead, read_pointer};
use n32_values::{NoMemory, Node, NodeList, NodeMap, Text};
use std::alloc::{AllocError, Global};

/// Why a document is no policy: the number of the first bad mapping, from 1, or 0 where the policy
/// itself or its list of types is bad, which is looked at first.
#[derive(Clone, Copy, Debug, PartialEq, Eq, Drop)]
pub enum PolicyRead {
    /// The number of the bad mapping, or 0.
    Form(u32),
    /// Memory was refused.
    NoMemory,
}

impl From<NoMemory> for PolicyRead {
    ghost from_gives = { λ _ e. IsMemory e };

    fn from(_refused: NoMemory) -> PolicyRead {
        PolicyRead::NoMemory
    }
}

impl From<AllocError> for PolicyRead {
    ghost from_gives = { λ _ e. IsMemory e };

    fn from(_refused: AllocError) -> PolicyRead {
        PolicyRead::NoMemory
    }
}

// ---- names

fn read_text(
    alloc: Global,
    node: Option<&Node>,
    grammar: Grammar,
    k: u32,
) -> Result<Option<Text>, PolicyRead>
    ensures { Gives (λ t. t) result (wanted (document.name_by (document.if_passes (test_of grammar)) (option_map (λ n. tree_of n.now) node.entry)) k) }
{
    match node {
        None => Ok(None),
        Some(Node::Words(text)) => {
            if grammar.fits(text.as_str()) {
                Ok(Some(text.copy(alloc)?))
            } else {
                Err(PolicyRead::Form(k))
            }
        }
        Some(_) => Err(PolicyRead::Form(k)),
    }
}

fn lower(alloc: Global, text: &str) -> Result<Text, PolicyRead>
    ensures ok { IfOk result (λ t. t ≡ texts.lower text.now) }
    ensures err { IfErr result IsMemory }
{
    Ok(Text::from_string(text.to_ascii_lowercase(alloc)?))
}

fn read_header(alloc: Global, node: Option<&Node>, k: u32) -> Result<Option<Text>, PolicyRead>
    ensures { Gives (λ t. t) result (wanted (document.name_in spec.header (option_map (λ n. tree_of n.now) node.entry)) k) }
{
    match node {
        None => Ok(None),
        Some(Node::Words(text)) => {
            if is_header_name(text.as_str()) {
                Ok(Some(lower(alloc, text.as_str())?))
            } else {
                Err(PolicyRead::Form(k))
            }
        }
        Some(_) => Err(PolicyRead::Form(k)),
    }
}

// The pointer that a text is, `None` exactly where it is none.
fn pointer_in(alloc: Global, text: &str) -> Result<Option<Pointer>, NoMemory>
    ensures { IfOk result (λ p. pointer_name p ≡ document.name_of spec.body text.now) }
{
    match read_pointer(alloc, text) {
        Ok(pointer) => Ok(Some(pointer)),
        Err(PointerRead::Fault(_)) => Ok(None),
        Err(PointerRead::NoMemory) => Err(NoMemory),
    }
}

fn read_body_pointer(
    alloc: Global,
    node: Option<&Node>,
    k: u32,
) -> Result<Option<Pointer>, PolicyRead>
    ensures { Gives pointer_name result (wanted (document.name_in spec.body (option_map (λ n. tree_of n.now) node.entry)) k) }
{
    match node {
        None => Ok(None),
        Some(Node::Words(text)) => match pointer_in(alloc, text.as_str())? {
            Some(pointer) => Ok(Some(pointer)),
            None => Err(PolicyRead::Form(k)),
        },
        Some(_) => Err(PolicyRead::Form(k)),
    }
}

fn read_target(alloc: Global, location: IeLoc, map: &NodeMap, k: u32) -> Result<Target, PolicyRead>
    ensures { Gives target_view result (document.target_at (location_view location) k map.now) }
{
    match location {
        IeLoc::UriParam => Ok(Target::UriParam(Names {
            request: read_text(alloc, map.get("reqIe"), Grammar::QueryName, k)?,
            response: read_text(alloc, map.get("rspIe"), Grammar::QueryName, k)?,
        })),
        IeLoc::Header => Ok(Target::Header(Names {
            request: read_header(alloc, map.get("reqIe"), k)?,
            response: read_header(alloc, map.get("rspIe"), k)?,
        })),
        IeLoc::Body => Ok(Target::Body(Names {
            request: read_body_pointer(alloc, map.get("reqIe"), k)?,
            response: read_body_pointer(alloc, map.get("rspIe"), k)?,
        })),
        IeLoc::MultipartBinary => Ok(Target::MultipartBinary(Names {
            request: read_text(alloc, map.get("reqIe"), Grammar::Any, k)?,
            response: read_text(alloc, map.get("rspIe"), Grammar::Any, k)?,
        })),
    }
}

// ---- elements

fn read_location(node: Option<&Node>, k: u32) -> Result<IeLoc, PolicyRead>
    ensures { Gives location_view result (wanted (document.chosen document.location_of (option_map (λ n. tree_of n.now) node.entry)) k) }
{
    if let Some(Node::Words(text)) = node {
        if let Some(location) = IeLoc::of_word(text.as_str()) {
            return Ok(location);
        }
    }
    Err(PolicyRead::Form(k))
}

fn read_type(node: Option<&Node>, k: u32) -> Result<IeType, PolicyRead>
    ensures { Gives sort_view result (wanted (document.chosen document.sort_of (option_map (λ n. tree_of n.now) node.entry)) k) }
{
    if let Some(Node::Words(text)) = node {
        if let Some(sort) = IeType::of_word(text.as_str()) {
            return Ok(sort);
        }
    }
    Err(PolicyRead::Form(k))
}

fn read_truth(node: Option<&Node>, k: u32) -> Result<Option<bool>, PolicyRead>
    ensures { Gives (λ b. b) result (wanted (document.if_there document.truth_of (option_map (λ n. tree_of n.now) node.entry)) k) }
{
    match node {
        None => Ok(None),
        Some(Node::Truth(truth)) => Ok(Some(*truth)),
        Some(_) => Err(PolicyRead::Form(k)),
    }
}

fn read_grants(alloc: Global, node: Option<&Node>, k: u32) -> Result<Option<Grants>, PolicyRead>
    ensures { Gives (λ g. g) result (wanted (document.if_there document.grants_of (option_map (λ n. tree_of n.now) node.entry)) k) }
{
    let Some(node) = node else {
        return Ok(None);
    };
    match Grants::read(alloc, node)? {
        Some(grants) => Ok(Some(grants)),
        None => Err(PolicyRead::Form(k)),
    }
}

fn read_element(alloc: Global, node: &Node, k: u32) -> Result<Element, PolicyRead>
    ensures { Gives element_view result (document.element_of k (tree_of node.now)) }
{
    let Node::Members(map) = node else {
        return Err(PolicyRead::Form(k));
    };
    let location = read_location(map.get("ieLoc"), k)?;
    let sort = read_type(map.get("ieType"), k)?;
    let target = read_target(alloc, location, map, k)?;
    let modifiable = read_truth(map.get("isModifiable"), k)?;
    let by_ipx = read_grants(alloc, map.get("isModifiableByIpx"), k)?;
    Ok(Element {
        target,
        sort,
        modifiable,
        by_ipx,
    })
}

fn read_elements(alloc: Global, list: &NodeList, k: u32) -> Result<ElementList, PolicyRead>
    ensures { Gives (map element_view) result (document.each_read (document.element_of k) list.now) }
{
    let mut elements = ElementList::new(alloc);
    for i in 0..list.len() {
        elements.push(read_element(alloc, list.item(i), k)?)?;
    }
    Ok(elements)
}

// ---- mappings

fn read_signature(alloc: Global, node: Option<&Node>, k: u32) -> Result<PatternList, PolicyRead>
    ensures { Gives (map pattern_view) result (wanted (document.chosen document.template_of (option_map (λ n. tree_of n.now) node.entry)) k) }
{
    match node {
        Some(Node::Words(text)) => read_template(alloc, text.as_str(), k),
        _ => Err(PolicyRead::Form(k)),
    }
}

#[tactic(auto, using(doc_forms::proofs::Tokens::limited_token))]
fn is_method(text: &str) -> bool
    ensures { result ≡ texts.is_method text.now }
{
    text.len() <= 15 && is_token(text)
}

fn read_method(alloc: Global, map: &NodeMap, k: u32) -> Result<Text, PolicyRead>
    ensures { Gives (λ t. t) result (wanted (text_at texts.is_method (codes "apiMethod") map.now) k) }
{
    match text_at(map, "apiMethod", Grammar::Any) {
        Some(text) => {
            if is_method(text) {
                Ok(Text::from_text(alloc, text)?)
            } else {
                Err(PolicyRead::Form(k))
            }
        }
        None => Err(PolicyRead::Form(k)),
    }
}

#[tactic(auto, using(spec_documents::proofs::FieldLemmas::views))]
fn wanted_list(node: Option<&Node>, k: u32) -> Result<&NodeList, PolicyRead>
    ensures { Gives (λ l. l.now) result (wanted (items_in (option_map (λ n. tree_of n.now) node.entry)) k) }
{
    match node {
        Some(Node::Items(list)) => Ok(list),
        _ => Err(PolicyRead::Form(k)),
    }
}

fn read_mapping(alloc: Global, node: &Node, k: u32) -> Result<Mapping, PolicyRead>
    ensures { Gives mapping_view result (document.mapping_of k (tree_of node.now)) }
{
    let Node::Members(map) = node else {
        return Err(PolicyRead::Form(k));
    };
    let patterns = read_signature(alloc, map.get("apiSignature"), k)?;
    let method = read_method(alloc, map, k)?;
    let list = wanted_list(map.get("IeList"), k)?;
    let elements = read_elements(alloc, list, k)?;
    Ok(Mapping {
        method,
        patterns,
        elements,
    })
}

fn read_mappings(alloc: Global, list: &NodeList) -> Result<MappingList, PolicyRead>
    requires { length list.now ≤ 65536 }
    ensures { Gives (map mapping_view) result (document.mappings_from 1 list.now) }
{
    let mut mappings = MappingList::new(alloc);
    for i in 0..list.len() {
        let k = i as u32 + 1;
        mappings.push(read_mapping(alloc, list.item(i), k)?)?;
    }
    Ok(mappings)
}

// ---- types

fn read_type_list(alloc: Global, list: &NodeList) -> Result<TypeList, PolicyRead>
    ensures { Gives (map sort_view) result (wanted (document.listed_sorts list.now) 0) }
{
    let mut types = TypeList::new(alloc);
    for i in 0..list.len() {
        types.push(read_type(Some(list.item(i)), 0)?)?;
    }
    Ok(types)
}

pub(crate) fn is_listed(types: &TypeList, sort: IeType) -> bool
    ensures { result ≡ list_any (spec.same_sort (sort_view sort)) (map sort_view types.now) }
{
    for i in 0..types.len() {
        if sort.is_same(*types.item(i)) {
            return true;
        }
    }
    false
}

// Those of the types that are listed.
fn kept(alloc: Global, all: &TypeList, listed: &TypeList) -> Result<TypeList, NoMemory>
    ensures { IfOk result (λ ts. map sort_view ts ≡ filter (λ x. list_any (spec.same_sort x) (map sort_view listed.now)) (map sort_view all.now)) }
{
    let mut types = TypeList::new(alloc);
    for i in 0..all.len() {
        let sort = *all.item(i);
        if is_listed(listed, sort) {
            types.push(sort)?;
        }
    }
    Ok(types)
}

// The types that are listed, in their order, each once.
fn in_order(alloc: Global, listed: &TypeList) -> Result<TypeList, NoMemory>
    ensures { IfOk result (λ ts. map sort_view ts ≡ document.in_order (map sort_view listed.now)) }
{
    let all = TypeList::from_vec(IeType::ALL.to_vec(alloc)?);
    kept(alloc, &all, listed)
}

fn read_listed_types(alloc: Global, list: &NodeList) -> Result<TypeList, PolicyRead>
    ensures { Gives (map sort_view) result (wanted (option_map document.in_order (document.listed_sorts list.now)) 0) }
{
    let listed = read_type_list(alloc, list)?;
    Ok(in_order(alloc, &listed)?)
}

#[tactic(auto, using(spec_documents::proofs::FieldLemmas::views))]
fn read_types(alloc: Global, node: Option<&Node>) -> Result<TypeList, PolicyRead>
    ensures { Gives (map sort_view) result (wanted (document.sorts_in (option_map (λ n. tree_of n.now) node.entry)) 0) }
{
    match node {
        None => Ok(TypeList::new(alloc)),
        Some(Node::Items(list)) => read_listed_types(alloc, list),
        Some(_) => Err(PolicyRead::Form(0)),
    }
}

// ---- the policy

fn few_mappings(node: Option<&Node>) -> Result<&NodeList, PolicyRead>
    ensures value { Gives (λ l. l.now) result (wanted (document.if_few (items_in (option_map (λ n. tree_of n.now) node.entry))) 0) }
    ensures few { IfOk result (λ l. length l.now ≤ 65536) }
{
    let list = wanted_list(node, 0)?;
    if list.len() <= 65536 {
        Ok(list)
    } else {
        Err(PolicyRead::Form(0))
    }
}

fn read_parts(alloc: Global, node: &Node) -> Result<(MappingList, TypeList), PolicyRead>
    ensures { Gives (λ p. policy_view p.0 p.1) result (document.policy_of (tree_of node.now)) }
{
    let Node::Members(map) = node else {
        return Err(PolicyRead::Form(0));
    };
    let list = few_mappings(map.get("apiIeMappingList"))?;
    let types = read_types(alloc, map.get("dataTypeEncPolicy"))?;
    let mappings = read_mappings(alloc, list)?;
    Ok((mappings, types))
}

/// The policy that a document is of.
///
/// It goes once over the document. The variables of one template are compared pairwise.
///
/// # Errors
/// `Form` with the number of the first bad mapping, from 1, or with 0 where the policy itself or its
/// list of types is bad, which is looked at first.
pub fn read_policy(alloc: Global, node: &Node) -> Result<Policy, PolicyRead>
    ensures { Gives (λ p. p) result (document.policy_of (tree_of node.now)) }
{
    let (mappings, types) = read_parts(alloc, node)?;
    Ok(Policy::of_parts(mappings, types))
}
