// The document of a policy.
ghost use Rattle.std.specs.Prelude.{◌≡◌, ◌++◌, map, OnOk, IfOk, Ok, string_bytes, codes};
ghost use Rattle.spec_documents.specs.Tree.{words, truth};
ghost use Rattle.spec_messages.specs.PolicyDocument as document;
ghost use Rattle.n32_values.specs.View.{tree_of};
ghost use Rattle.policy_documents.specs.Words.{sort_view};
ghost use Rattle.policy_documents.specs.Target.{target_view, pointer_name};
ghost use Rattle.policy_documents.specs.View.{pattern_view, element_view, mapping_view};

use crate::grants::Grants;
use crate::policy::{
    Element, ElementList, Mapping, MappingList, Names, Pattern, PatternList, Policy, Target,
    TypeList,
};
use doc_forms::{put, put_text};
use json_ptr::{Pointer, pointer_text};
use n32_values::{NoMemory, Node, NodeList, NodeMap, Text};
use std::alloc::Global;

fn push_pattern(out: &mut String, pattern: &Pattern) -> Result<(), NoMemory>
    ensures { OnOk result (string_bytes out.new ≡ string_bytes out.old ++ document.pattern_text (pattern_view pattern.now)) }
{
    match pattern {
        Pattern::Fixed(segment) => {
            out.push_str(segment.as_str())?;
            Ok(())
        }
        Pattern::Variable(name) => {
            out.push_str("{")?;
            out.push_str(name.as_str())?;
            out.push_str("}")?;
            Ok(())
        }
    }
}

fn push_template(out: &mut String, patterns: &PatternList) -> Result<(), NoMemory>
    ensures { OnOk result (string_bytes out.new ≡ string_bytes out.old ++ document.template_text (map pattern_view patterns.now)) }
{
    for i in 0..patterns.len() {
        out.push_str("/")?;
        push_pattern(out, patterns.item(i))?;
    }
    Ok(())
}

fn template_of(alloc: Global, patterns: &PatternList) -> Result<Text, NoMemory>
    ensures { IfOk result (λ t. t ≡ document.template_text (map pattern_view patterns.now)) }
{
    let mut out = String::new(alloc);
    push_template(&mut out, patterns)?;
    Ok(Text::from_string(out))
}

// ---- members that may be absent

fn put_name(
    alloc: Global,
    map: &mut NodeMap,
    key: &str,
    name: &Option<Text>,
) -> Result<(), NoMemory>
    ensures ok { OnOk result (map.new ≡ document.with_member words key.now name.now map.old) }
{
    match name {
        Some(name) => {
            put_text(alloc, map, key, name.as_str())?;
            Ok(())
        }
        None => Ok(()),
    }
}

fn put_pointer(
    alloc: Global,
    map: &mut NodeMap,
    key: &str,
    pointer: &Option<Pointer>,
) -> Result<(), NoMemory>
    ensures ok { OnOk result (map.new ≡ document.with_member words key.now (pointer_name pointer.now) map.old) }
{
    match pointer {
        Some(pointer) => {
            put(alloc, map, key, Node::Words(pointer_text(alloc, pointer)?))?;
            Ok(())
        }
        None => Ok(()),
    }
}

fn put_texts(alloc: Global, map: &mut NodeMap, names: &Names<Text>) -> Result<(), NoMemory>
    ensures ok { OnOk result (map.new ≡ document.with_member words (codes "rspIe") names.now.response
        (document.with_member words (codes "reqIe") names.now.request map.old)) }
{
    put_name(alloc, map, "reqIe", &names.request)?;
    put_name(alloc, map, "rspIe", &names.response)?;
    Ok(())
}

fn put_pointers(alloc: Global, map: &mut NodeMap, names: &Names<Pointer>) -> Result<(), NoMemory>
    ensures ok { OnOk result (map.new ≡ document.with_member words (codes "rspIe") (pointer_name names.now.response)
        (document.with_member words (codes "reqIe") (pointer_name names.now.request) map.old)) }
{
    put_pointer(alloc, map, "reqIe", &names.request)?;
    put_pointer(alloc, map, "rspIe", &names.response)?;
    Ok(())
}

fn put_names(alloc: Global, map: &mut NodeMap, target: &Target) -> Result<(), NoMemory>
    ensures ok { OnOk result (map.new ≡ document.with_member words (codes "rspIe") (target_view target.now).in_response
        (document.with_member words (codes "reqIe") (target_view target.now).in_request map.old)) }
{
    match target {
        Target::UriParam(names) => put_texts(alloc, map, names),
        Target::Header(names) => put_texts(alloc, map, names),
        Target::Body(pointers) => put_pointers(alloc, map, pointers),
        Target::MultipartBinary(names) => put_texts(alloc, map, names),
    }
}

fn put_truth(
    alloc: Global,
    map: &mut NodeMap,
    key: &str,
    value: Option<bool>,
) -> Result<(), NoMemory>
    ensures ok { OnOk result (map.new ≡ document.with_member truth key.now value map.old) }
{
    match value {
        Some(value) => {
            put(alloc, map, key, Node::Truth(value))?;
            Ok(())
        }
        None => Ok(()),
    }
}

fn put_grants(
    alloc: Global,
    map: &mut NodeMap,
    key: &str,
    grants: &Option<Grants>,
) -> Result<(), NoMemory>
    ensures ok { OnOk result (map.new ≡ document.with_member document.grants_tree key.now grants.now map.old) }
{
    match grants {
        Some(grants) => {
            put(alloc, map, key, grants.node(alloc)?)?;
            Ok(())
        }
        None => Ok(()),
    }
}

// ---- elements, mappings, types

fn element_node(alloc: Global, element: &Element) -> Result<Node, NoMemory>
    ensures { IfOk result (λ n. tree_of n ≡ document.element_tree (element_view element.now)) }
{
    let mut map = NodeMap::new(alloc);
    put_text(alloc, &mut map, "ieLoc", element.target.location().as_str())?;
    put_text(alloc, &mut map, "ieType", element.sort.as_str())?;
    put_names(alloc, &mut map, &element.target)?;
    put_truth(alloc, &mut map, "isModifiable", element.modifiable)?;
    put_grants(alloc, &mut map, "isModifiableByIpx", &element.by_ipx)?;
    Ok(Node::Members(map))
}

fn elements_node(alloc: Global, elements: &ElementList) -> Result<Node, NoMemory>
    ensures { IfOk result (λ n. tree_of n ≡ document.list_of document.element_tree (map element_view elements.now)) }
{
    let mut list = NodeList::new(alloc);
    for i in 0..elements.len() {
        list.push(element_node(alloc, elements.item(i))?)?;
    }
    Ok(Node::Items(list))
}

/// The document of one mapping.
pub fn mapping_doc(alloc: Global, mapping: &Mapping) -> Result<Node, NoMemory>
    ensures { IfOk result (λ n. tree_of n ≡ document.mapping_tree (mapping_view mapping.now)) }
{
    let mut map = NodeMap::new(alloc);
    let template = template_of(alloc, &mapping.patterns)?;
    put_text(alloc, &mut map, "apiSignature", template.as_str())?;
    put_text(alloc, &mut map, "apiMethod", mapping.method.as_str())?;
    put(
        alloc,
        &mut map,
        "IeList",
        elements_node(alloc, &mapping.elements)?,
    )?;
    Ok(Node::Members(map))
}

fn mappings_node(alloc: Global, mappings: &MappingList) -> Result<Node, NoMemory>
    ensures { IfOk result (λ n. tree_of n ≡ document.list_of document.mapping_tree (map mapping_view mappings.now)) }
{
    let mut list = NodeList::new(alloc);
    for i in 0..mappings.len() {
        list.push(mapping_doc(alloc, mappings.item(i))?)?;
    }
    Ok(Node::Items(list))
}

fn types_node(alloc: Global, types: &TypeList) -> Result<Node, NoMemory>
    ensures { IfOk result (λ n. tree_of n ≡ document.list_of document.sort_tree (map sort_view types.now)) }
{
    let mut list = NodeList::new(alloc);
    for i in 0..types.len() {
        let word = Text::from_text(alloc, types.item(i).as_str())?;
        list.push(Node::Words(word))?;
    }
    Ok(Node::Items(list))
}

/// The document of a policy: names and signatures as they were read, without `{apiRoot}` and with
/// header names in lower case, the members that are absent left out, and the types in their order,
/// each once. Read again it gives the same policy.
pub fn policy_doc(alloc: Global, policy: &Policy) -> Result<Node, NoMemory>
    ensures document { IfOk result (λ n. tree_of n ≡ document.policy_tree policy.now) }
    ensures reads_back { IfOk result (λ n. document.policy_of (tree_of n) ≡ Ok policy.now) }
{
    let _read = policy.len();
    let node = policy_node(alloc, policy)?;
    Ok(node)
}

fn policy_node(alloc: Global, policy: &Policy) -> Result<Node, NoMemory>
    ensures { IfOk result (λ n. tree_of n ≡ document.policy_tree policy.now) }
{
    let mut map = NodeMap::new(alloc);
    put(
        alloc,
        &mut map,
        "apiIeMappingList",
        mappings_node(alloc, policy.mappings())?,
    )?;
    put(
        alloc,
        &mut map,
        "dataTypeEncPolicy",
        types_node(alloc, policy.types())?,
    )?;
    Ok(Node::Members(map))
}
