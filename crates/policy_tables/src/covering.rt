// Which elements of a mapping cover an address, and which one of them decides on it.
ghost use Rattle.std.specs.Prelude.{◌≡◌, ◌&&◌, Some, map, filter, option_map};
ghost use Rattle.std.specs.List.{list_any};
ghost use Rattle.spec_messages.specs.Policy as spec;
ghost use Rattle.http_message.specs.Reading.{kind_view};
ghost use Rattle.n32_values.specs.View.{tree_of};
ghost use Rattle.policy_documents.specs.View.{element_view};
ghost use Rattle.policy_tables.specs.View.{site_view};

use crate::address::Site;
use crate::mapping::mapping_at;
use http_message::Kind;
use json_ptr::{Pointer, is_prefix};
use n32_values::{Node, Text};
use policy_documents::{Element, ElementList, Policy, Target};

fn is_named(own: &Option<Text>, name: &Text) -> bool
    ensures { result ≡ spec.is_named own.now name.now }
{
    match own {
        Some(own) => own.as_str() == name.as_str(),
        None => false,
    }
}

fn is_above(own: &Option<Pointer>, pointer: &Pointer) -> bool
    ensures { result ≡ spec.is_above own.now pointer.now }
{
    match own {
        Some(own) => is_prefix(own, pointer),
        None => false,
    }
}

fn covers_uri(kind: Kind, element: &Element, name: &Text) -> bool
    ensures { result ≡ spec.covers_uri (kind_view kind) (element_view element.now).place (spec.counted (kind_view kind) (element_view element.now)) name.now }
{
    match kind {
        Kind::Response => false,
        Kind::Request => match &element.target {
            Target::UriParam(names) => is_named(&names.request, name),
            Target::Header(_) => false,
            Target::Body(_) => false,
            Target::MultipartBinary(_) => false,
        },
    }
}

fn covers_header(kind: Kind, element: &Element, name: &Text) -> bool
    ensures { result ≡ spec.covers_header (element_view element.now).place (spec.counted (kind_view kind) (element_view element.now)) name.now }
{
    match &element.target {
        Target::Header(names) => match kind {
            Kind::Request => is_named(&names.request, name),
            Kind::Response => is_named(&names.response, name),
        },
        Target::UriParam(_) => false,
        Target::Body(_) => false,
        Target::MultipartBinary(_) => false,
    }
}

#[tactic(auto, using(crate::proofs::CoverLemmas::kept_pointer))]
fn covers_body(kind: Kind, element: &Element, pointer: &Pointer) -> bool
    ensures { result ≡ spec.covers_body (element_view element.now).place (spec.counted (kind_view kind) (element_view element.now)) pointer.now }
{
    match &element.target {
        Target::Body(pointers) => match kind {
            Kind::Request => is_above(&pointers.request, pointer),
            Kind::Response => is_above(&pointers.response, pointer),
        },
        Target::UriParam(_) => false,
        Target::Header(_) => false,
        Target::MultipartBinary(_) => false,
    }
}

fn covers(kind: Kind, site: Site<'_>, element: &Element) -> bool
    ensures { result ≡ spec.covers (kind_view kind) (site_view site.entry) (element_view element.now) }
{
    match site {
        Site::Line(_) => false,
        Site::PathVar(name) => covers_uri(kind, element, name),
        Site::Query(name) => covers_uri(kind, element, name),
        Site::Header(name) => covers_header(kind, element, name),
        Site::Body(pointer) => covers_body(kind, element, pointer),
    }
}

fn counts(policy: &Policy, kind: Kind, site: Site<'_>, element: &Element) -> bool
    ensures { result ≡ (spec.is_sensitive policy.now (element_view element.now) && spec.covers (kind_view kind) (site_view site.entry) (element_view element.now)) }
{
    policy.is_sensitive(element) && covers(kind, site, element)
}

// Whether a sensitive element covers the site.
fn any_covers(policy: &Policy, elements: &ElementList, kind: Kind, site: Site<'_>) -> bool
    ensures { result ≡ list_any (spec.covers (kind_view kind) (site_view site.entry)) (filter (spec.is_sensitive policy.now) (map element_view elements.now)) }
{
    for i in 0..elements.len() {
        if counts(policy, kind, site, elements.item(i)) {
            return true;
        }
    }
    false
}

/// Whether a sensitive element of the mapping covers an address: one pass over the mapping's elements.
pub(crate) fn is_covered(policy: &Policy, mapping: Option<u32>, kind: Kind, site: Site<'_>) -> bool
    ensures { result ≡ spec.is_covered policy.now mapping (kind_view kind) (site_view site.entry) }
{
    match mapping_at(policy, mapping) {
        Some(mapping) => any_covers(policy, &mapping.elements, kind, site),
        None => false,
    }
}

/// Whether the body's node at a pointer is covered for secrecy. This is the one place that decides it.
pub(crate) fn is_body_covered(
    policy: &Policy,
    mapping: Option<u32>,
    kind: Kind,
    _body: &Node,
    pointer: &Pointer,
) -> bool
    ensures { result ≡ spec.is_body_covered policy.now mapping (kind_view kind) (tree_of _body.now) pointer.now }
{
    is_covered(policy, mapping, kind, Site::Body(pointer))
}

fn pointer_length(own: &Option<Pointer>) -> usize
    ensures { result ≡ spec.pointer_length own.now }
{
    match own {
        Some(own) => own.len(),
        None => 0,
    }
}

// The number of tokens of the element's body pointer that counts.
#[tactic(auto, using(crate::proofs::CoverLemmas::kept_pointer))]
fn weight(kind: Kind, element: &Element) -> usize
    ensures { result ≡ spec.weight (kind_view kind) (element_view element.now) }
{
    match &element.target {
        Target::Body(pointers) => match kind {
            Kind::Request => pointer_length(&pointers.request),
            Kind::Response => pointer_length(&pointers.response),
        },
        Target::UriParam(_) => 0,
        Target::Header(_) => 0,
        Target::MultipartBinary(_) => 0,
    }
}

// Of an element and the one that decides behind it, the one that decides: the longer pointer, else the first.
fn heavier<'a>(kind: Kind, element: &'a Element, behind: Option<&'a Element>) -> &'a Element
    ensures { Some (element_view result.now) ≡ spec.heavier (kind_view kind) (element_view element.now) (option_map (λ e. element_view e.now) behind.entry) }
{
    match behind {
        None => element,
        Some(other) => {
            if weight(kind, element) < weight(kind, other) {
                other
            } else {
                element
            }
        }
    }
}

/// The element that decides on an address: of those that cover it the one with the longest body
/// pointer, and among equals the first.
pub(crate) fn deciding<'a>(
    elements: &'a ElementList,
    kind: Kind,
    site: Site<'_>,
) -> Option<&'a Element>
    ensures { option_map (λ e. element_view e.now) result ≡ spec.deciding (kind_view kind) (map element_view elements.now) (site_view site.entry) }
{
    let mut found = None;
    let mut i = elements.len();
    'backwards: while 0 < i {
        i -= 1;
        let element = elements.item(i);
        if covers(kind, site, element) {
            found = Some(heavier(kind, element, found));
        }
    }
    found
}
