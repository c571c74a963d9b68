ghost use Rattle.std.specs.Prelude.{◌≡◌, [], length, slice_get, option_map, IsTrue, ◌↔◌, ◌≤◌, IfOk};
ghost use Rattle.std.specs.Option.{option_copied};

use crate::copy::{copy_mappings, copy_types};
use crate::grants::Grants;
use crate::read::is_listed;
use crate::words::{IeLoc, IeType};
use json_ptr::Pointer;
use n32_values::{List, NoMemory, Text};
use std::alloc::Global;
use std::marker::Model;

/// The names of an element: the one that counts in requests, and the one that counts in responses.
#[derive(Drop)]
pub struct Names<N> {
    /// `reqIe`
    pub request: Option<N>,
    /// `rspIe`
    pub response: Option<N>,
}

/// Where an element is, and its names there.
#[derive(Drop)]
pub enum Target {
    /// Names of a path's variable or of query pairs.
    UriParam(Names<Text>),
    /// Names of headers, in lower case.
    Header(Names<Text>),
    /// Pointers to nodes of the body (RFC 6901).
    Body(Names<Pointer>),
    /// Names of binary parts, which cover nothing here.
    MultipartBinary(Names<Text>),
}

impl Target {
    ghost use Rattle.policy_documents.specs.Target.{target_view};
    ghost use Rattle.policy_documents.specs.Words.{location_view};

    /// Where the element is.
    pub fn location(&self) -> IeLoc
        ensures { location_view result ≡ (target_view self.now).place }
    {
        match self {
            Target::UriParam(_) => IeLoc::UriParam,
            Target::Header(_) => IeLoc::Header,
            Target::Body(_) => IeLoc::Body,
            Target::MultipartBinary(_) => IeLoc::MultipartBinary,
        }
    }
}

/// One item of a mapping's `IeList` (`IeInfo` of TS 29.573).
#[derive(Drop)]
pub struct Element {
    /// `ieLoc`, `reqIe` and `rspIe`
    pub target: Target,
    /// `ieType`
    pub sort: IeType,
    /// `isModifiable`
    pub modifiable: Option<bool>,
    /// `isModifiableByIpx`
    pub by_ipx: Option<Grants>,
}

/// The elements of a mapping, in the order of the document.
pub type ElementList = List<Element>;

/// One segment of a path template.
#[derive(Drop)]
pub enum Pattern {
    /// The segment itself.
    Fixed(Text),
    /// Any segment, under the name between the braces.
    Variable(Text),
}

/// A path template, segment by segment.
pub type PatternList = List<Pattern>;

/// One item of `apiIeMappingList` (`ApiIeMapping` of TS 29.573).
#[derive(Drop)]
pub struct Mapping {
    /// `apiMethod`
    pub method: Text,
    /// `apiSignature`, without `{apiRoot}`
    pub patterns: PatternList,
    /// `IeList`
    pub elements: ElementList,
}

/// The mappings of a policy, in the order of the document.
pub type MappingList = List<Mapping>;

/// Types of elements.
pub type TypeList = List<IeType>;

/// A protection policy (TS 29.573 clause 6.1.5), which contracts see as its list of mappings and its
/// list of types, these in the order of `IeType` and each once. It has at most 65,536 mappings, and it
/// is what its own document is read to.
#[derive(Drop)]
pub struct Policy {
    mappings: MappingList,
    types: TypeList,
}

impl Model for Policy {
    ghost use Rattle.std.specs.Prelude.{map};
    ghost use Rattle.spec_messages.specs.Policy as spec;
    ghost use Rattle.spec_messages.specs.PolicyDocument.{ReadsBack};

    ghost Value = { spec.Policy };

    ghost use Rattle.policy_documents.specs.View.{policy_view};

    ghost view = { λ p. policy_view p.mappings p.types };

    ghost invariant = { λ p. ReadsBack (policy_view p.mappings p.types) };
}

impl Policy {
    ghost use Rattle.spec_messages.specs.PolicyDocument.{empty_policy};
    ghost use Rattle.spec_messages.specs.Policy.{is_sensitive};
    ghost use Rattle.policy_documents.specs.View.{element_view, mapping_view, pattern_view, policy_view};
    ghost use Rattle.policy_documents.specs.Words.{sort_view};
    ghost use Rattle.std.specs.Prelude.{map};
    ghost use Rattle.spec_messages.specs.PolicyDocument.{ReadsBack, most_mappings};

    pub(crate) fn of_parts(mappings: MappingList, types: TypeList) -> Policy
        requires { ReadsBack (policy_view mappings types) }
        ensures { result ≡ policy_view mappings types }
    {
        Policy { mappings, types }
    }

    /// The policy without mappings and types, under which nothing is secret. It takes no memory.
    pub fn empty(alloc: Global) -> Policy
        ensures { result ≡ empty_policy }
    {
        Policy {
            mappings: MappingList::new(alloc),
            types: TypeList::new(alloc),
        }
    }

    /// An equal policy.
    pub fn copy(&self, alloc: Global) -> Result<Policy, NoMemory>
        ensures { IfOk result (λ p. p ≡ self.now) }
    {
        Ok(Policy {
            mappings: copy_mappings(alloc, &self.mappings)?,
            types: copy_types(alloc, &self.types)?,
        })
    }

    /// The number of mappings.
    pub fn len(&self) -> usize
        ensures value { result ≡ length self.now.mappings }
        ensures few { result ≤ most_mappings }
        ensures again { ReadsBack self.now }
    {
        self.mappings.len()
    }

    /// Whether there is no mapping.
    pub fn is_empty(&self) -> bool
        ensures { IsTrue result ↔ (self.now.mappings ≡ []) }
    {
        self.mappings.is_empty()
    }

    /// Mapping `k`, or `None` exactly for a `k` past the end.
    pub fn mapping(&self, k: u32) -> Option<&Mapping>
        ensures { option_map (λ g. mapping_view g.now) result ≡ slice_get self.now.mappings k }
    {
        self.mappings.get(k as usize)
    }

    /// The method of mapping `k`, or `None` exactly for a `k` past the end.
    pub fn method_of(&self, k: u32) -> Option<&Text>
        ensures { option_copied result ≡ option_map (λ g. g.method) (slice_get self.now.mappings k) }
    {
        match self.mapping(k) {
            Some(mapping) => Some(&mapping.method),
            None => None,
        }
    }

    /// The path template of mapping `k`, or `None` exactly for a `k` past the end.
    pub fn segments_of(&self, k: u32) -> Option<&PatternList>
        ensures { option_map (λ ps. map pattern_view ps.now) result ≡ option_map (λ g. g.patterns) (slice_get self.now.mappings k) }
    {
        match self.mapping(k) {
            Some(mapping) => Some(&mapping.patterns),
            None => None,
        }
    }

    /// Whether an element's type is one of those that the policy encrypts.
    pub fn is_sensitive(&self, element: &Element) -> bool
        ensures { result ≡ is_sensitive self.now (element_view element.now) }
    {
        is_listed(&self.types, element.sort)
    }

    /// All mappings.
    pub fn mappings(&self) -> &MappingList
        ensures { map mapping_view result.now ≡ self.now.mappings }
    {
        &self.mappings
    }

    /// The types whose elements are secret, in the order of `IeType`, each once.
    pub fn types(&self) -> &TypeList
        ensures { map sort_view result.now ≡ self.now.sorts }
    {
        &self.types
    }
}
