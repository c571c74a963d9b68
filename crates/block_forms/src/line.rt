// The line of a block.
ghost use Rattle.std.specs.Prelude.{◌≡◌, IfOk, MatchResult, OnOk, None, option_map, true, is_ok, ◌&&◌, codes};
ghost use Rattle.spec_documents.specs.Tree.{members, get_member, same_tree, put_member, words};
ghost use Rattle.spec_messages.specs.Message.{any_text, text_at, head_of};
ghost use Rattle.spec_messages.specs.Block.{block_parts, request_tree, members_of};
ghost use Rattle.spec_messages.specs.Fault as spec;
ghost use Rattle.n32_values.specs.View.{tree_of};
ghost use Rattle.block_forms.specs.Lines.{put_query};
ghost use Rattle.block_forms.specs.Kept.{ReadsHead, RefusesLine, RefusesMembers};

use crate::parts::MembersRead;
use doc_forms::{Grammar, put_text, text_at};
use http_message::{Form, Head, MessageRead, block_parts_are_kept, read_head};
use n32_values::{NoMemory, Node, NodeMap, is_same_doc};
use std::alloc::Global;

// The text of a member, or the empty text where it is none.
pub(crate) fn text_of<'a>(map: &'a NodeMap, name: &str) -> &'a str
    ensures { result.now ≡ spec.text_of name.now map.now }
{
    match text_at(map, name, Grammar::Any) {
        Some(text) => text,
        None => "",
    }
}

// Puts the query of one line into another, if there is one.
fn put_query(alloc: Global, line: &mut NodeMap, map: &NodeMap) -> Result<(), NoMemory>
    ensures { OnOk result (line.new ≡ put_query (text_at any_text (codes "queryFragment") map.now) line.old) }
{
    let Some(query) = text_at(map, "queryFragment", Grammar::Any) else {
        return Ok(());
    };
    put_text(alloc, line, "queryFragment", query)
}

// What is read of a request's line, written again.
#[tactic(auto, using(crate::proofs::LineForms::query_put))]
fn line_again(alloc: Global, map: &NodeMap) -> Result<Node, NoMemory>
    ensures { IfOk result (λ n. tree_of n ≡ request_tree (spec.request_text_of map.now)) }
{
    let mut line = NodeMap::new(alloc);
    put_text(alloc, &mut line, "method", text_of(map, "method"))?;
    put_text(alloc, &mut line, "scheme", text_of(map, "scheme"))?;
    put_text(alloc, &mut line, "authority", text_of(map, "authority"))?;
    put_text(alloc, &mut line, "path", text_of(map, "path"))?;
    put_text(
        alloc,
        &mut line,
        "protocolVersion",
        text_of(map, "protocolVersion"),
    )?;
    put_query(alloc, &mut line, map)?;
    Ok(Node::Members(line))
}

fn is_same(left: &Node, right: &Node) -> bool
    ensures { result ≡ same_tree (tree_of left.now) (tree_of right.now) }
{
    is_same_doc(left, right)
}

// Whether a request's line has the members of one alone.
fn is_exact_line(alloc: Global, line: &Node) -> Result<bool, NoMemory>
    ensures { IfOk result (λ exact. exact ≡ same_tree (tree_of line.now) (request_tree (spec.request_text_of (members_of (tree_of line.now))))) }
{
    let Node::Members(map) = line else {
        return Ok(false);
    };
    let again = line_again(alloc, map)?;
    Ok(is_same(line, &again))
}

/// Why the line of a block isn't read.
#[derive(Clone, Copy, Drop)]
pub(crate) enum LineRead {
    // It has no such form.
    NoLine,
    NoMemory,
}

impl From<NoMemory> for LineRead {
    ghost use Rattle.std.specs.Prelude.{◌≡◌};
    ghost use Rattle.block_forms.specs.declared.line.LineRead.TheVariants.{NoMemory as refused_memory};

    ghost from_gives = { λ _ e. e ≡ refused_memory };

    fn from(_refused: NoMemory) -> LineRead {
        LineRead::NoMemory
    }
}

// The line, whose parts may be holes.
#[tactic(auto, using(crate::proofs::LineForms::same_ok))]
fn read_parts(alloc: Global, map: &NodeMap) -> Result<Head, LineRead>
    ensures { MatchResult result
        (λ head. (is_ok (head_of block_parts map.now) ≡ true) × ReadsHead head (members map.now))
        (λ why. RefusesLine why (is_ok (head_of block_parts map.now))) }
{
    block_parts_are_kept();
    match read_head(alloc, Form::Block, map) {
        Ok(head) => Ok(head),
        Err(MessageRead::NoMemory) => Err(LineRead::NoMemory),
        Err(_) => Err(LineRead::NoLine),
    }
}

// The line of a request, with the members of one alone.
fn read_request(alloc: Global, map: &NodeMap, line: &Node) -> Result<Head, LineRead>
    ensures { MatchResult result
        (λ head. ((same_tree (tree_of line.now) (request_tree (spec.request_text_of (members_of (tree_of line.now)))) && is_ok (head_of block_parts map.now)) ≡ true) × ReadsHead head (members map.now))
        (λ why. RefusesLine why (same_tree (tree_of line.now) (request_tree (spec.request_text_of (members_of (tree_of line.now)))) && is_ok (head_of block_parts map.now))) }
{
    if !is_exact_line(alloc, line)? {
        return Err(LineRead::NoLine);
    }
    read_parts(alloc, map)
}

// The line of a block. Where neither or both lines are there, or the one that is has a wrong form, a
// member is named.
pub(crate) fn read_line(alloc: Global, map: &NodeMap) -> Result<Head, MembersRead<'static>>
    ensures { MatchResult result
        (λ head. (spec.line_fault (get_member (codes "requestLine") map.now) (get_member (codes "statusLine") map.now) ≡ None) × ReadsHead head (members map.now))
        (λ why. RefusesMembers why (spec.line_fault (get_member (codes "requestLine") map.now) (get_member (codes "statusLine") map.now))) }
{
    match (map.get("requestLine"), map.get("statusLine")) {
        (Some(line), None) => match read_request(alloc, map, line) {
            Ok(head) => Ok(head),
            Err(LineRead::NoLine) => Err(MembersRead::Member("requestLine")),
            Err(LineRead::NoMemory) => Err(MembersRead::NoMemory),
        },
        (None, Some(_)) => match read_parts(alloc, map) {
            Ok(head) => Ok(head),
            Err(LineRead::NoLine) => Err(MembersRead::Member("statusLine")),
            Err(LineRead::NoMemory) => Err(MembersRead::NoMemory),
        },
        (None, None) => Err(MembersRead::Member("requestLine")),
        (Some(_), Some(_)) => Err(MembersRead::Member("statusLine")),
    }
}
