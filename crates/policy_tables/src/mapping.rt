// Which mapping of a policy a request falls under.
ghost use Rattle.std.specs.Prelude.{◌≡◌, ◌<◌, map, length, option_map};
ghost use Rattle.spec_messages.specs.Policy as spec;
ghost use Rattle.http_message.specs.Reading.{part_view, request_line};
ghost use Rattle.policy_documents.specs.View.{pattern_view, mapping_view};

use http_message::{Part, PartList, Request};
use policy_documents::{Mapping, Pattern, PatternList, Policy};

fn fits_segment(pattern: &Pattern, part: &Part) -> bool
    ensures { result ≡ spec.fits_segment (pattern_view pattern.now) (part_view part.now) }
{
    match pattern {
        Pattern::Fixed(segment) => match part {
            Part::Clear(text) => segment.as_str() == text.as_str(),
            Part::Hole(_) => false,
        },
        Pattern::Variable(_) => true,
    }
}

fn fits_segments(patterns: &PatternList, parts: &PartList) -> bool
    ensures { result ≡ spec.fits_segments (map pattern_view patterns.now) (map part_view parts.now) }
{
    if patterns.len() != parts.len() {
        return false;
    }
    for i in 0..patterns.len() {
        if !fits_segment(patterns.item(i), parts.item(i)) {
            return false;
        }
    }
    true
}

fn fits(mapping: &Mapping, request: &Request) -> bool
    ensures { result ≡ spec.fits (mapping_view mapping.now) (request_line request.now) }
{
    mapping.method.as_str() == request.method.as_str()
        && fits_segments(&mapping.patterns, &request.segments)
}

/// The number of the first mapping that fits a request: its method is the same, and its template has
/// as many segments, each the same or a variable. `None` exactly where none fits. It takes no memory,
/// and goes over the mappings up to the first that fits.
pub fn mapping_of(policy: &Policy, request: &Request) -> Option<u32>
    ensures { result ≡ spec.mapping_of policy.now (request_line request.now) }
{
    let mappings = policy.mappings();
    for i in 0..policy.len() {
        if fits(mappings.item(i), request) {
            return Some(i as u32);
        }
    }
    None
}

/// The mapping of a number, where it is below the number of mappings.
pub(crate) fn mapping_at(policy: &Policy, mapping: Option<u32>) -> Option<&Mapping>
    ensures { option_map (λ g. mapping_view g.now) result ≡ spec.mapping_at policy.now mapping }
{
    match mapping {
        Some(k) => policy.mapping(k),
        None => None,
    }
}
