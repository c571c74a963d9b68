//! JSON Pointers (RFC 6901): read, written and compared, and the node at one.
#![tactic(auto)]

mod index;
mod reader;
mod spell;

ghost use Rattle.std.specs.Prelude.{◌≡◌, [], ◌∷◌, ◌++◌, ◌<◌, Ok, Err, Some, MatchResult, OnOk, OnErr, OnSome, IfOk, IsTrue, ◌↔◌, length, slice_get, take, bytes_eq};
ghost use Rattle.std.specs.Option.{option_copied};
ghost use Rattle.spec_documents.specs.Place.{at, child, is_prefix as begins_with};
ghost use Rattle.n32_values.specs.View.{tree_of};
ghost use Rattle.json_ptr.specs.Causes.{cause_of};

pub use index::{capped_number, is_dash, is_index};
use n32_values::{NoMemory, Node, NodeList, Text, TextList};
pub use reader::{PointerRead, read_pointer};
pub use spell::pointer_text;
use std::alloc::Global;
use std::marker::Model;

/// A JSON Pointer (RFC 6901): a list of tokens, each the name of a member or the index of an item.
#[derive(Drop)]
pub struct Pointer {
    tokens: TextList,
}

impl Model for Pointer {
    ghost use Rattle.std.specs.Prelude.{List, ℕ};

    ghost Value = { List (List ℕ) };

    ghost view = { λ p. p.tokens };
}

impl Pointer {
    /// The pointer without tokens, which is the place of the whole document. It takes no memory.
    pub fn new(alloc: Global) -> Pointer
        ensures { result ≡ [] }
    {
        Pointer {
            tokens: TextList::new(alloc),
        }
    }

    /// The pointer of these tokens, made without taking memory.
    pub fn from_tokens(tokens: TextList) -> Pointer
        ensures { result ≡ tokens }
    {
        Pointer { tokens }
    }

    /// Gives the tokens back without taking memory.
    pub fn into_tokens(self) -> TextList
        ensures { result ≡ self }
    {
        let Pointer { tokens } = self;
        tokens
    }

    /// Its tokens.
    pub fn tokens(&self) -> &TextList
        ensures { result.now ≡ self.now }
    {
        &self.tokens
    }

    /// How many tokens it has.
    pub fn len(&self) -> usize
        ensures { result ≡ length self.now }
    {
        self.tokens.len()
    }

    /// Whether it has no token.
    pub fn is_empty(&self) -> bool
        ensures { IsTrue result ↔ (self.now ≡ []) }
    {
        self.tokens.is_empty()
    }

    /// The token at place `i`, or `None` exactly at or past the end.
    pub fn get(&self, i: usize) -> Option<&Text>
        ensures value { option_copied result ≡ slice_get self.now i }
        ensures within { OnSome result (i < length self.now) }
    {
        self.tokens.get(i)
    }

    /// The token at a place that is there.
    pub fn token(&self, i: usize) -> &Text
        requires { i < length self.now }
        ensures { slice_get self.now i ≡ Some result.now }
    {
        self.tokens.item(i)
    }

    /// Adds a token at the end. A refused push leaves the pointer as it was, and lets the token go.
    pub fn push(&mut self, token: Text) -> Result<(), NoMemory>
        ensures ok { OnOk result (self.new ≡ self.old ++ token ∷ []) }
        ensures err { OnErr result (self.new ≡ self.old) }
    {
        self.tokens.push(token)
    }

    /// Lets the tokens go that stand past the first `length`.
    pub fn truncate(&mut self, length: usize)
        ensures { self.new ≡ take length self.old }
    {
        self.tokens.truncate(length)
    }

    /// An equal pointer.
    pub fn copy(&self, alloc: Global) -> Result<Pointer, NoMemory>
        ensures { IfOk result (λ p. p ≡ self.now) }
    {
        Ok(Pointer {
            tokens: self.tokens.copy(alloc)?,
        })
    }
}

/// Whether the tokens of `front` are the first ones of `whole`, which may be all of them.
pub fn is_prefix(front: &Pointer, whole: &Pointer) -> bool
    ensures { result ≡ begins_with front.now whole.now }
{
    if front.len() > whole.len() {
        return false;
    }
    for i in 0..front.len() {
        if !is_same(front.token(i), whole.token(i)) {
            return false;
        }
    }
    true
}

fn is_same(left: &Text, right: &Text) -> bool
    ensures { result ≡ bytes_eq left.now right.now }
{
    left.as_str() == right.as_str()
}

/// Why nothing is at a place, by the first token that fails.
#[derive(Clone, Copy, Debug, PartialEq, Eq, Drop)]
pub enum FindFault {
    /// The token names no member or item. `-` and an index past the end are among these.
    NoPlace,
    /// The token meets a list, and is neither `-` nor an index: `0`, or digits without a leading zero.
    BadIndex,
}

/// The node at a place (RFC 6901, section 4).
#[tactic(auto, using(n32_values::proofs::Trees::drop_at))]
pub fn find<'a>(node: &'a Node, pointer: &Pointer) -> Result<&'a Node, FindFault>
    ensures { MatchResult result
        (λ n. at (tree_of node.now) pointer.now ≡ Ok (tree_of n.now))
        (λ e. at (tree_of node.now) pointer.now ≡ Err (cause_of e)) }
{
    let mut place = node;
    for i in 0..pointer.len() {
        place = step(place, pointer.token(i).as_str())?;
    }
    Ok(place)
}

/// The member or item that a token names: one step of `find`.
pub fn step<'a>(node: &'a Node, token: &str) -> Result<&'a Node, FindFault>
    ensures { MatchResult result
        (λ n. child token.now (tree_of node.now) ≡ Ok (tree_of n.now))
        (λ e. child token.now (tree_of node.now) ≡ Err (cause_of e)) }
{
    match node {
        Node::Items(list) => item_at(list, token),
        Node::Members(map) => match map.get(token) {
            Some(member) => Ok(member),
            None => Err(FindFault::NoPlace),
        },
        _ => Err(FindFault::NoPlace),
    }
}

ghost use Rattle.spec_documents.specs.Tree.{items, trees};

fn item_at<'a>(list: &'a NodeList, token: &str) -> Result<&'a Node, FindFault>
    ensures { MatchResult result
        (λ n. child token.now (items (trees list.now)) ≡ Ok (tree_of n.now))
        (λ e. child token.now (items (trees list.now)) ≡ Err (cause_of e)) }
{
    let bytes = token.as_bytes();
    if index::is_index(bytes) {
        let i = index::capped_number(bytes);
        if i < list.len() {
            Ok(list.item(i))
        } else {
            Err(FindFault::NoPlace)
        }
    } else if index::is_dash(bytes) {
        Err(FindFault::NoPlace)
    } else {
        Err(FindFault::BadIndex)
    }
}
