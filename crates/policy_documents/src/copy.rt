// Equal policies, and their parts.
ghost use Rattle.std.specs.Prelude.{◌≡◌, IfOk};

use crate::grants::Grants;
use crate::policy::{
    Element, ElementList, Mapping, MappingList, Names, Pattern, PatternList, Target, TypeList,
};
use json_ptr::Pointer;
use n32_values::{NoMemory, Text};
use std::alloc::Global;

fn copy_name(alloc: Global, name: &Option<Text>) -> Result<Option<Text>, NoMemory>
    ensures { IfOk result (λ n. n ≡ name.now) }
{
    match name {
        Some(name) => Ok(Some(name.copy(alloc)?)),
        None => Ok(None),
    }
}

fn copy_names(alloc: Global, names: &Names<Text>) -> Result<Names<Text>, NoMemory>
    ensures { IfOk result (λ n. n ≡ names.now) }
{
    Ok(Names {
        request: copy_name(alloc, &names.request)?,
        response: copy_name(alloc, &names.response)?,
    })
}

fn copy_pointer(alloc: Global, pointer: &Option<Pointer>) -> Result<Option<Pointer>, NoMemory>
    ensures { IfOk result (λ p. p ≡ pointer.now) }
{
    match pointer {
        Some(pointer) => Ok(Some(pointer.copy(alloc)?)),
        None => Ok(None),
    }
}

fn copy_pointers(alloc: Global, names: &Names<Pointer>) -> Result<Names<Pointer>, NoMemory>
    ensures { IfOk result (λ n. n ≡ names.now) }
{
    Ok(Names {
        request: copy_pointer(alloc, &names.request)?,
        response: copy_pointer(alloc, &names.response)?,
    })
}

fn copy_target(alloc: Global, target: &Target) -> Result<Target, NoMemory>
    ensures { IfOk result (λ t. t ≡ target.now) }
{
    match target {
        Target::UriParam(names) => Ok(Target::UriParam(copy_names(alloc, names)?)),
        Target::Header(names) => Ok(Target::Header(copy_names(alloc, names)?)),
        Target::Body(names) => Ok(Target::Body(copy_pointers(alloc, names)?)),
        Target::MultipartBinary(names) => Ok(Target::MultipartBinary(copy_names(alloc, names)?)),
    }
}

fn copy_grants(alloc: Global, grants: &Option<Grants>) -> Result<Option<Grants>, NoMemory>
    ensures { IfOk result (λ g. g ≡ grants.now) }
{
    match grants {
        Some(grants) => Ok(Some(grants.copy(alloc)?)),
        None => Ok(None),
    }
}

fn copy_element(alloc: Global, element: &Element) -> Result<Element, NoMemory>
    ensures { IfOk result (λ e. e ≡ element.now) }
{
    Ok(Element {
        target: copy_target(alloc, &element.target)?,
        sort: element.sort,
        modifiable: element.modifiable,
        by_ipx: copy_grants(alloc, &element.by_ipx)?,
    })
}

#[tactic(auto, using(n32_values::proofs::Trees::take_at))]
fn copy_elements(alloc: Global, elements: &ElementList) -> Result<ElementList, NoMemory>
    ensures { IfOk result (λ l. l ≡ elements.now) }
{
    let mut copies = ElementList::new(alloc);
    for i in 0..elements.len() {
        copies.push(copy_element(alloc, elements.item(i))?)?;
    }
    Ok(copies)
}

fn copy_pattern(alloc: Global, pattern: &Pattern) -> Result<Pattern, NoMemory>
    ensures { IfOk result (λ p. p ≡ pattern.now) }
{
    match pattern {
        Pattern::Fixed(segment) => Ok(Pattern::Fixed(segment.copy(alloc)?)),
        Pattern::Variable(name) => Ok(Pattern::Variable(name.copy(alloc)?)),
    }
}

#[tactic(auto, using(n32_values::proofs::Trees::take_at))]
fn copy_patterns(alloc: Global, patterns: &PatternList) -> Result<PatternList, NoMemory>
    ensures { IfOk result (λ l. l ≡ patterns.now) }
{
    let mut copies = PatternList::new(alloc);
    for i in 0..patterns.len() {
        copies.push(copy_pattern(alloc, patterns.item(i))?)?;
    }
    Ok(copies)
}

fn copy_mapping(alloc: Global, mapping: &Mapping) -> Result<Mapping, NoMemory>
    ensures { IfOk result (λ g. g ≡ mapping.now) }
{
    Ok(Mapping {
        method: mapping.method.copy(alloc)?,
        patterns: copy_patterns(alloc, &mapping.patterns)?,
        elements: copy_elements(alloc, &mapping.elements)?,
    })
}

#[tactic(auto, using(n32_values::proofs::Trees::take_at))]
pub(crate) fn copy_mappings(alloc: Global, mappings: &MappingList) -> Result<MappingList, NoMemory>
    ensures { IfOk result (λ l. l ≡ mappings.now) }
{
    let mut copies = MappingList::new(alloc);
    for i in 0..mappings.len() {
        copies.push(copy_mapping(alloc, mappings.item(i))?)?;
    }
    Ok(copies)
}

#[tactic(auto, using(n32_values::proofs::Trees::take_at))]
pub(crate) fn copy_types(alloc: Global, types: &TypeList) -> Result<TypeList, NoMemory>
    ensures { IfOk result (λ l. l ≡ types.now) }
{
    let mut copies = TypeList::new(alloc);
    for i in 0..types.len() {
        copies.push(*types.item(i))?;
    }
    Ok(copies)
}
