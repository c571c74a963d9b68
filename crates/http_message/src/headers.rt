// The headers of a document.
ghost use Rattle.std.specs.Prelude.{◌≡◌, map as list_map, option_map};
ghost use Rattle.n32_values.specs.View.{tree_of};
ghost use Rattle.spec_messages.specs.Message as spec;
ghost use Rattle.http_message.specs.Forms.{parts_of};
ghost use Rattle.http_message.specs.Reading.{Gives, header_view};

use crate::form::{Form, read_header_value};
use crate::message::{Header, HeaderList};
use crate::refusal::{MessageMember, MessageRead, wanted};
use doc_forms::Grammar;
use n32_values::{Node, NodeList, Text};
use std::alloc::Global;

fn read_header(alloc: Global, form: Form, node: &Node) -> Result<Header, MessageRead>
    ensures { Gives header_view result (spec.wanted (spec.header_of (parts_of form) (tree_of node.now)) spec.headers) }
{
    let Node::Members(map) = node else {
        return Err(MessageRead::Member(MessageMember::Headers));
    };
    let name = wanted(map, "header", Grammar::HeaderName, MessageMember::Headers)?;
    let value = read_header_value(alloc, form, map.get("value"))?;
    Ok(Header {
        name: Text::lowered(alloc, name)?,
        value,
    })
}

fn read_header_list(alloc: Global, form: Form, list: &NodeList) -> Result<HeaderList, MessageRead>
    ensures { Gives (list_map header_view) result (spec.wanted (spec.all_read (spec.header_of (parts_of form)) list.now) spec.headers) }
{
    let mut headers = HeaderList::new(alloc);
    for i in 0..list.len() {
        headers.push(read_header(alloc, form, list.item(i))?)?;
    }
    Ok(headers)
}

/// Reads the member `headers` of a document, if it is there: a list of objects with the texts
/// `header` and `value`. Names are read in lower case. An absent list is an empty one.
#[tactic(auto, using(spec_documents::proofs::FieldLemmas::views))]
pub fn read_headers(
    alloc: Global,
    form: Form,
    node: Option<&Node>,
) -> Result<HeaderList, MessageRead>
    ensures { Gives (list_map header_view) result (spec.wanted (spec.headers_of (parts_of form) (option_map (λ n. tree_of n.now) node.entry)) spec.headers) }
{
    match node {
        None => Ok(HeaderList::new(alloc)),
        Some(Node::Items(list)) => read_header_list(alloc, form, list),
        Some(_) => Err(MessageRead::Member(MessageMember::Headers)),
    }
}
