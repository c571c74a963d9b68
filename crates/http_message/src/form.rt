// The parts of a line and of headers, which may be holes in a block.
ghost use Rattle.std.specs.Prelude.{◌≡◌, Option, option_map};
ghost use Rattle.n32_values.specs.View.{tree_of};
ghost use Rattle.spec_messages.specs.Message as spec;
ghost use Rattle.http_message.specs.Reading.{Gives, part_view};
ghost use Rattle.http_message.specs.Forms.{parts_of, text_hole_in, value_hole_in};

use crate::message::Part;
use crate::refusal::{MessageMember, MessageRead};
use doc_forms::{hole_index, is_header_value, is_query_value, is_segment, text_hole};
use n32_values::{Node, Text};
use std::alloc::Global;

/// Which document a line and headers are read from.
#[derive(Clone, Copy, Debug, PartialEq, Eq, Drop)]
pub enum Form {
    /// The document of a message: each part is a text.
    Plain,
    /// A block (TS 29.573): a segment, a query's value and a header's value may be a hole.
    Block,
}

fn text_hole_of(form: Form, text: &str) -> Option<u32>
    ensures { result ≡ text_hole_in form text.now }
{
    match form {
        Form::Plain => None,
        Form::Block => text_hole(text),
    }
}

fn value_hole_of(form: Form, node: &Node) -> Option<u32>
    ensures { result ≡ value_hole_in form (tree_of node.now) }
{
    match form {
        Form::Plain => None,
        Form::Block => hole_index(node),
    }
}

// A segment of a path.
#[tactic(auto, unfolding(crate::specs::Forms::parts_of))]
pub(crate) fn read_segment(alloc: Global, form: Form, text: &str) -> Result<Part, MessageRead>
    ensures { Gives part_view result (spec.wanted ((parts_of form).segment text.now) spec.path) }
{
    if let Some(hole) = text_hole_of(form, text) {
        return Ok(Part::Hole(hole));
    }
    if !is_segment(text) {
        return Err(MessageRead::Member(MessageMember::Path));
    }
    Ok(Part::Clear(Text::from_text(alloc, text)?))
}

// The value of a pair in a query.
#[tactic(auto, unfolding(crate::specs::Forms::parts_of))]
pub(crate) fn read_value(alloc: Global, form: Form, text: &str) -> Result<Part, MessageRead>
    ensures { Gives part_view result (spec.wanted ((parts_of form).value text.now) spec.query) }
{
    if let Some(hole) = text_hole_of(form, text) {
        return Ok(Part::Hole(hole));
    }
    if !is_query_value(text) {
        return Err(MessageRead::Member(MessageMember::QueryFragment));
    }
    Ok(Part::Clear(Text::from_text(alloc, text)?))
}

// The value of a header.
#[tactic(auto, unfolding(crate::specs::Forms::parts_of))]
pub(crate) fn read_header_value(
    alloc: Global,
    form: Form,
    node: Option<&Node>,
) -> Result<Part, MessageRead>
    ensures { Gives part_view result (spec.wanted (spec.part_in (parts_of form) (option_map (λ n. tree_of n.now) node.entry)) spec.headers) }
{
    let Some(node) = node else {
        return Err(MessageRead::Member(MessageMember::Headers));
    };
    if let Some(hole) = value_hole_of(form, node) {
        return Ok(Part::Hole(hole));
    }
    match node {
        Node::Words(text) if is_header_value(text.as_str()) => Ok(Part::Clear(text.copy(alloc)?)),
        _ => Err(MessageRead::Member(MessageMember::Headers)),
    }
}
