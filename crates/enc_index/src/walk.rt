// All holes and faulty objects of a block, in walking order.
ghost use Rattle.std.specs.Prelude.{◌≡◌, ◌++◌, ◌∷◌, [], ◌<◌, IfOk, OnOk, map, length, option_map, false, codes};
ghost use Rattle.std.specs.Option.{option_map_or};
ghost use Rattle.std.specs.Result.{result_ok};
ghost use Rattle.std.specs.Prelude.{List as ListOf, ℕ};
ghost use Rattle.spec_documents.specs.Place.{at, child, is_index};
ghost use Rattle.spec_documents.specs.Tree.{items, trees};
ghost use Rattle.spec_documents.specs.Text.{index_text};
ghost use Rattle.spec_documents.specs.Hole as spec;
ghost use Rattle.spec_documents.specs.Hole.{Mark, Marks};
ghost use Rattle.n32_values.specs.View.{tree_of};
ghost use Rattle.enc_index.specs.Lines.{look_of, pieces_of, pointer_of};
ghost use Rattle.enc_index.specs.Marks.{mark_view, held, under, token_of, tokens, list_name, list_look};

use crate::holes::Place;
use crate::line::Line;
use crate::spelling::{is_marked_map, is_marked_node};
use doc_forms::{cut, hole_index, number_text};
use json_ptr::Pointer;
use n32_values::{List, NoMemory, Node, NodeList, NodeMap, Text};
use std::alloc::Global;

// A hole, or an object with a member `encBlockIndex` that is none, which has no index. An index that 32 bits don't hold is
// the greatest that they do.
#[derive(Drop)]
pub(crate) struct Found {
    pub(crate) place: Place,
    pub(crate) index: Option<u32>,
}

// The two lists of a block whose items have values.
#[derive(Clone, Copy, Drop)]
enum Values {
    Headers,
    Payload,
}

impl Values {
    fn name(self) -> &'static str
        ensures { result.now ≡ list_name self }
    {
        match self {
            Values::Headers => "headers",
            Values::Payload => "payload",
        }
    }
}

// A token of the way to a node: the name of a member, or the index of an item.
#[derive(Clone, Copy, Drop)]
enum Step<'a> {
    Name(&'a str),
    Index(usize),
}

pub(crate) fn found_in(alloc: Global, block: &Node) -> Result<List<Found>, NoMemory>
    ensures { IfOk result (λ found. map mark_view found ≡ map held (spec.all_marks (tree_of block.now))) }
{
    let mut found = List::new(alloc);
    push_texts(alloc, Line::Path, block, &mut found)?;
    push_texts(alloc, Line::Query, block, &mut found)?;
    push_values(alloc, Values::Headers, block, &mut found)?;
    push_values(alloc, Values::Payload, block, &mut found)?;
    Ok(found)
}

// ---- text holes

fn push_texts(
    alloc: Global,
    line: Line,
    block: &Node,
    found: &mut List<Found>,
) -> Result<(), NoMemory>
    ensures { OnOk result (map mark_view found.new ≡ map mark_view found.old
        ++ map held (spec.words_marks (λ s. spec.piece_marks (pointer_of line) (look_of line) 0 (pieces_of line s)) (at (tree_of block.now) (pointer_of line)))) }
{
    match text_of(line, block) {
        Some(text) => push_pieces(alloc, line, text, found),
        None => Ok(()),
    }
}

fn text_of<'a>(line: Line, block: &'a Node) -> Option<&'a str>
    ensures { (look : ListOf ℕ → ListOf Mark) → spec.words_marks look (at (tree_of block.now) (pointer_of line)) ≡ option_map_or (λ s. look s.now) result [] }
{
    let member = member(member(block, "requestLine")?, line.name())?;
    match member {
        Node::Words(text) => Some(text.as_str()),
        _ => None,
    }
}

fn push_pieces(
    alloc: Global,
    line: Line,
    text: &str,
    found: &mut List<Found>,
) -> Result<(), NoMemory>
    ensures { OnOk result (map mark_view found.new ≡ map mark_view found.old
        ++ map held (spec.piece_marks (pointer_of line) (look_of line) 0 (pieces_of line text.now))) }
{
    let mut rest = line.pieces(text);
    let mut number: usize = 0;
    'pieces: while let Some(left) = rest {
        let (piece, after) = cut(left, line.separator());
        push_piece(alloc, line, number, piece, found)?;
        number += 1;
        rest = after;
    }
    Ok(())
}

fn push_piece(
    alloc: Global,
    line: Line,
    number: usize,
    piece: &str,
    found: &mut List<Found>,
) -> Result<(), NoMemory>
    ensures { OnOk result (map mark_view found.new ≡ map mark_view found.old
        ++ map held (spec.text_mark (pointer_of line) number (look_of line piece.now))) }
{
    match line.hole(piece) {
        Some(index) => {
            let place = Place {
                pointer: line.pointer(alloc)?,
                part: Some(number),
            };
            found.push(Found {
                place,
                index: Some(index),
            })?;
            Ok(())
        }
        None => Ok(()),
    }
}

// ---- objects

fn push_values(
    alloc: Global,
    values: Values,
    block: &Node,
    found: &mut List<Found>,
) -> Result<(), NoMemory>
    ensures { OnOk result (map mark_view found.new ≡ map mark_view found.old
        ++ map (under []) (spec.beneath (list_name values) (spec.marks_in (spec.list_marks (list_look values)) (child (list_name values) (tree_of block.now))))) }
{
    match member(block, values.name()) {
        Some(Node::Items(list)) => {
            push_list(alloc, values, list, found)?;
            Ok(())
        }
        _ => Ok(()),
    }
}

fn push_list(
    alloc: Global,
    values: Values,
    list: &NodeList,
    found: &mut List<Found>,
) -> Result<(), NoMemory>
    ensures { OnOk result (map mark_view found.new ≡ map mark_view found.old
        ++ map (under (list_name values ∷ [])) (spec.value_marks (list_look values) 0 (trees list.now))) }
{
    let mut path = Vec::new(alloc);
    for i in 0..list.len() {
        path.truncate(0);
        push_step(&mut path, Step::Name(values.name()))?;
        push_step(&mut path, Step::Index(i))?;
        push_step(&mut path, Step::Name("value"))?;
        push_value(alloc, values, list.item(i), &mut path, found)?;
    }
    Ok(())
}

// What an item has at its member `value`, to which the path goes.
fn push_value<'a>(
    alloc: Global,
    values: Values,
    item: &'a Node,
    path: &mut Vec<Step<'a>>,
    found: &mut List<Found>,
) -> Result<(), NoMemory>
    ensures { OnOk result (map mark_view found.new ≡ map mark_view found.old
        ++ map (under (tokens path.old.items)) (spec.marks_in (list_look values) (child (codes "value") (tree_of item.now)))) }
{
    match member(item, "value") {
        Some(value) => match values {
            Values::Headers => push_marked(alloc, value, path.as_slice(), found),
            Values::Payload => walk(alloc, value, path, found),
        },
        None => Ok(()),
    }
}

fn push_marked(
    alloc: Global,
    node: &Node,
    path: &[Step<'_>],
    found: &mut List<Found>,
) -> Result<(), NoMemory>
    ensures { OnOk result (map mark_view found.new ≡ map mark_view found.old
        ++ map (under (tokens path.now)) (spec.mark_here (tree_of node.now))) }
{
    if !is_marked_node(node) {
        return Ok(());
    }
    push_mark(alloc, node, path, found)
}

fn push_mark(
    alloc: Global,
    node: &Node,
    path: &[Step<'_>],
    found: &mut List<Found>,
) -> Result<(), NoMemory>
    ensures { OnOk result (map mark_view found.new ≡ map mark_view found.old
        ++ map (under (tokens path.now)) (([], spec.hole_index (tree_of node.now)) ∷ [])) }
{
    let place = Place {
        pointer: pointer_to(alloc, path)?,
        part: None,
    };
    found.push(Found {
        place,
        index: hole_index(node),
    })?;
    Ok(())
}

fn pointer_to(alloc: Global, path: &[Step<'_>]) -> Result<Pointer, NoMemory>
    ensures { IfOk result (λ p. p ≡ tokens path.now) }
{
    let mut pointer = Pointer::new(alloc);
    for i in 0..path.len() {
        pointer.push(token(alloc, path[i])?)?;
    }
    Ok(pointer)
}

fn token(alloc: Global, step: Step<'_>) -> Result<Text, NoMemory>
    ensures { IfOk result (λ t. t ≡ token_of step.entry) }
{
    match step {
        Step::Name(name) => Text::from_text(alloc, name),
        Step::Index(i) => Ok(Text::from_string(number_text(alloc, i as u64)?)),
    }
}

// The objects with a member `encBlockIndex` at or beneath a node, to which the path goes. The path is as before.
#[cycle(walk)]
fn walk<'a>(
    alloc: Global,
    node: &'a Node,
    path: &mut Vec<Step<'a>>,
    found: &mut List<Found>,
) -> Result<(), NoMemory>
    ensures marks { OnOk result (map mark_view found.new ≡ map mark_view found.old
        ++ map (under (tokens path.old.items)) (spec.marks (tree_of node.now))) }
    ensures path { OnOk result (path.new.items ≡ path.old.items) }
{
    match node {
        Node::Items(list) => walk_items(alloc, list, path, found),
        Node::Members(map) => {
            if is_marked_map(map) {
                push_mark(alloc, node, path.as_slice(), found)
            } else {
                walk_members(alloc, map, path, found)
            }
        }
        _ => Ok(()),
    }
}

#[cycle(walk)]
fn walk_items<'a>(
    alloc: Global,
    list: &'a NodeList,
    path: &mut Vec<Step<'a>>,
    found: &mut List<Found>,
) -> Result<(), NoMemory>
    ensures marks { OnOk result (map mark_view found.new ≡ map mark_view found.old
        ++ map (under (tokens path.old.items)) (spec.items_marks 0 (trees list.now))) }
    ensures path { OnOk result (path.new.items ≡ path.old.items) }
{
    let depth = path.len();
    for i in 0..list.len() {
        push_step(path, Step::Index(i))?;
        walk(alloc, list.item(i), path, found)?;
        path.truncate(depth);
    }
    Ok(())
}

#[cycle(walk)]
fn walk_members<'a>(
    alloc: Global,
    object: &'a NodeMap,
    path: &mut Vec<Step<'a>>,
    found: &mut List<Found>,
) -> Result<(), NoMemory>
    ensures marks { OnOk result (map mark_view found.new ≡ map mark_view found.old
        ++ map (under (tokens path.old.items)) (spec.members_marks object.now)) }
    ensures path { OnOk result (path.new.items ≡ path.old.items) }
{
    let depth = path.len();
    for i in 0..object.len() {
        let (name, node) = object.entry(i);
        push_step(path, Step::Name(name.as_str()))?;
        walk(alloc, node, path, found)?;
        path.truncate(depth);
    }
    Ok(())
}

fn push_step<'a>(path: &mut Vec<Step<'a>>, step: Step<'a>) -> Result<(), NoMemory>
    ensures { OnOk result (path.new.items ≡ path.old.items ++ step.entry ∷ []) }
{
    match path.push(step) {
        Ok(()) => Ok(()),
        Err(_) => Err(NoMemory),
    }
}

// The member of an object, if it is one and has it.
fn member<'a>(node: &'a Node, name: &str) -> Option<&'a Node>
    requires { is_index name.now ≡ false }
    ensures { option_map (λ n. tree_of n.now) result ≡ result_ok (child name.now (tree_of node.now)) }
{
    match node {
        Node::Members(map) => map.get(name),
        _ => None,
    }
}
