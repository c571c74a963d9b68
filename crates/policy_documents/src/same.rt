// Whether two policies are the same, or where they differ first.
ghost use Rattle.std.specs.Prelude.{◌≡◌, ◌≤◌, map, length, bytes_eq, IfSome};
ghost use Rattle.spec_documents.specs.Tree.{same_truth};
ghost use Rattle.spec_messages.specs.Policy.{same_sort, same_option, same_list};
ghost use Rattle.policy_documents.specs.Same.{Tells, DiffersAt, same_names, same_target, same_grants, same_element, same_pattern, same_mapping};
ghost use Rattle.spec_documents.specs.Place.{pointer_text};
ghost use Rattle.policy_documents.specs.Target.{target_view, pointer_name};
ghost use Rattle.policy_documents.specs.View.{pattern_view, element_view, mapping_view};
ghost use Rattle.policy_documents.specs.Words.{sort_view};

use crate::grants::Grants;
use crate::policy::{
    Element, ElementList, Mapping, MappingList, Names, Pattern, PatternList, Policy, Target,
    TypeList,
};
use json_ptr::{Pointer, is_prefix};
use n32_values::Text;

/// How two policies differ.
#[derive(Clone, Copy, Debug, PartialEq, Eq, Drop)]
pub enum PolicyMatch {
    /// They are the same: equal mappings in the same order, and the same set of types.
    Same,
    /// The number, from 0, of the first mapping that differs or that one of them lacks.
    Mapping(u32),
    /// The mappings are equal, and the sets of types differ.
    Types,
}

fn is_same_text(one: &Text, other: &Text) -> bool
    ensures { result ≡ bytes_eq one.now other.now }
{
    one.as_str() == other.as_str()
}

fn is_same_name(one: &Option<Text>, other: &Option<Text>) -> bool
    ensures { result ≡ same_option bytes_eq one.now other.now }
{
    match (one, other) {
        (None, None) => true,
        (Some(one), Some(other)) => is_same_text(one, other),
        (None, Some(_)) | (Some(_), None) => false,
    }
}

fn is_same_names(one: &Names<Text>, other: &Names<Text>) -> bool
    ensures { result ≡ same_names one.now.request one.now.response other.now.request other.now.response }
{
    is_same_name(&one.request, &other.request) && is_same_name(&one.response, &other.response)
}

fn is_equal(one: &Pointer, other: &Pointer) -> bool
    ensures { result ≡ bytes_eq (pointer_text one.now) (pointer_text other.now) }
{
    is_prefix(one, other) && is_prefix(other, one)
}

fn is_same_pointer(one: &Option<Pointer>, other: &Option<Pointer>) -> bool
    ensures { result ≡ same_option bytes_eq (pointer_name one.now) (pointer_name other.now) }
{
    match (one, other) {
        (None, None) => true,
        (Some(one), Some(other)) => is_equal(one, other),
        (None, Some(_)) | (Some(_), None) => false,
    }
}

fn is_same_pointers(one: &Names<Pointer>, other: &Names<Pointer>) -> bool
    ensures { result ≡ same_names (pointer_name one.now.request) (pointer_name one.now.response) (pointer_name other.now.request) (pointer_name other.now.response) }
{
    is_same_pointer(&one.request, &other.request) && is_same_pointer(&one.response, &other.response)
}

fn is_same_target(one: &Target, other: &Target) -> bool
    ensures { result ≡ same_target (target_view one.now) (target_view other.now) }
{
    match one {
        Target::UriParam(one) => match other {
            Target::UriParam(other) => is_same_names(one, other),
            _ => false,
        },
        Target::Header(one) => match other {
            Target::Header(other) => is_same_names(one, other),
            _ => false,
        },
        Target::Body(one) => match other {
            Target::Body(other) => is_same_pointers(one, other),
            _ => false,
        },
        Target::MultipartBinary(one) => match other {
            Target::MultipartBinary(other) => is_same_names(one, other),
            _ => false,
        },
    }
}

fn is_same_truth(one: Option<bool>, other: Option<bool>) -> bool
    ensures { result ≡ same_option same_truth one other }
{
    match (one, other) {
        (None, None) => true,
        (Some(one), Some(other)) => one == other,
        (None, Some(_)) | (Some(_), None) => false,
    }
}

fn are_equal(one: &Grants, other: &Grants) -> bool
    ensures { result ≡ same_grants one.now other.now }
{
    one.is_same(other)
}

fn is_same_grants(one: &Option<Grants>, other: &Option<Grants>) -> bool
    ensures { result ≡ same_option same_grants one.now other.now }
{
    match (one, other) {
        (None, None) => true,
        (Some(one), Some(other)) => are_equal(one, other),
        (None, Some(_)) | (Some(_), None) => false,
    }
}

fn is_same_element(one: &Element, other: &Element) -> bool
    ensures { result ≡ same_element (element_view one.now) (element_view other.now) }
{
    is_same_target(&one.target, &other.target)
        && (one.sort.is_same(other.sort)
            && (is_same_truth(one.modifiable, other.modifiable)
                && is_same_grants(&one.by_ipx, &other.by_ipx)))
}

fn is_same_elements(one: &ElementList, other: &ElementList) -> bool
    ensures { result ≡ same_list same_element (map element_view one.now) (map element_view other.now) }
{
    if one.len() != other.len() {
        return false;
    }
    for i in 0..one.len() {
        if !is_same_element(one.item(i), other.item(i)) {
            return false;
        }
    }
    true
}

fn is_same_pattern(one: &Pattern, other: &Pattern) -> bool
    ensures { result ≡ same_pattern (pattern_view one.now) (pattern_view other.now) }
{
    match (one, other) {
        (Pattern::Fixed(one), Pattern::Fixed(other)) => is_same_text(one, other),
        (Pattern::Variable(one), Pattern::Variable(other)) => is_same_text(one, other),
        (Pattern::Fixed(_), Pattern::Variable(_)) | (Pattern::Variable(_), Pattern::Fixed(_)) => {
            false
        }
    }
}

fn is_same_patterns(one: &PatternList, other: &PatternList) -> bool
    ensures { result ≡ same_list same_pattern (map pattern_view one.now) (map pattern_view other.now) }
{
    if one.len() != other.len() {
        return false;
    }
    for i in 0..one.len() {
        if !is_same_pattern(one.item(i), other.item(i)) {
            return false;
        }
    }
    true
}

fn is_same_mapping(one: &Mapping, other: &Mapping) -> bool
    ensures { result ≡ same_mapping (mapping_view one.now) (mapping_view other.now) }
{
    is_same_text(&one.method, &other.method)
        && (is_same_patterns(&one.patterns, &other.patterns)
            && is_same_elements(&one.elements, &other.elements))
}

fn is_same_types(one: &TypeList, other: &TypeList) -> bool
    ensures { result ≡ same_list same_sort (map sort_view one.now) (map sort_view other.now) }
{
    if one.len() != other.len() {
        return false;
    }
    for i in 0..one.len() {
        if !one.item(i).is_same(*other.item(i)) {
            return false;
        }
    }
    true
}

// The number of the first mapping that differs or that one list lacks.
fn first_differing(one: &MappingList, other: &MappingList) -> Option<usize>
    ensures value { DiffersAt (map mapping_view one.now) (map mapping_view other.now) result }
    ensures within { IfSome result (λ k. k ≤ length one.now) }
{
    for i in 0..one.len() {
        if other.len() <= i {
            return Some(i);
        }
        if !is_same_mapping(one.item(i), other.item(i)) {
            return Some(i);
        }
    }
    if one.len() < other.len() {
        return Some(one.len());
    }
    None
}

/// Whether two policies are the same, or the first place where they differ. It goes once over both.
pub fn same_policy(one: &Policy, other: &Policy) -> PolicyMatch
    ensures { Tells result one.now other.now }
{
    let _few = one.len();
    match first_differing(one.mappings(), other.mappings()) {
        Some(k) => PolicyMatch::Mapping(k as u32),
        None => {
            if is_same_types(one.types(), other.types()) {
                PolicyMatch::Same
            } else {
                PolicyMatch::Types
            }
        }
    }
}
