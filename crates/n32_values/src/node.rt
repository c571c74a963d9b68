ghost use Rattle.std.specs.Prelude.{◌≡◌, [], ◌∷◌, ◌++◌, ◌<◌, length, slice_get, slice_set, IfOk, OnOk, OnErr, OnSome, option_map};
ghost use Rattle.std.specs.Prelude.{min, ◌^◌, ◌-◌};
ghost use Rattle.spec_documents.specs.Tree.{depth as nesting, items_depth as items_nesting, members_depth as members_nesting, trees};
ghost use Rattle.spec_documents.specs.Fields.{AreAscending, field_list};
ghost use Rattle.spec_documents.specs.Tree.{is_tree, items, members};
ghost use Rattle.std.specs.Prelude.{IsTrue, MatchResult, MatchOption, ◌≤◌};
ghost use Rattle.std.specs.List.{insert, remove};
ghost use Rattle.spec_documents.specs.Tree.{name_cmp};
ghost use Rattle.n32_values.specs.Search.{StandsAt, BelongsAt};
ghost use Rattle.n32_values.specs.View.{tree_of, entries_view};

use crate::memory::{self, NoMemory};
use crate::text::Text;
use crate::whole::Whole;
use std::alloc::Global;
use std::cmp::Ordering;
use std::marker::Model;
use std::mem;

/// A JSON value (RFC 8259) with whole numbers alone. `tree_of` gives the tree that contracts see.
#[cycle(node)]
#[derive(Drop)]
pub enum Node {
    Null,
    /// `true` or `false`.
    Truth(bool),
    /// A number.
    Whole(Whole),
    /// A text.
    Words(Text),
    /// A list.
    Items(NodeList),
    /// An object.
    Members(NodeMap),
}

/// A list of nodes, which contracts see as the list of their trees.
#[cycle(node)]
#[derive(Drop)]
pub struct NodeList {
    inner: Vec<Node>,
}

/// A finite map from texts to nodes, which contracts see as the members of an object, in byte order of their names.
#[cycle(node)]
#[derive(Drop)]
pub struct NodeMap {
    inner: Vec<Member>,
}

#[cycle(node)]
#[derive(Drop)]
struct Member {
    name: Text,
    node: Node,
}

impl Model for NodeList {
    ghost use Rattle.std.specs.Prelude.{List};
    ghost use Rattle.spec_documents.specs.Tree.{Tree, trees, items_depth};
    ghost use Rattle.spec_documents.specs.TreeCode.{list_code};

    ghost Value = { List Tree };

    ghost coded = { list_code };

    ghost use Rattle.n32_values.specs.View.{list_view};

    ghost view = { λ l. list_view l.inner.items };

    ghost size = { λ ts. items_depth (trees ts) };

    ghost use Rattle.std.proofs.Common.{arith};
    ghost use Rattle.n32_values.specs.Falls.{most_le-items_depth};

    ghost size_decreases = { λ a h. Prim.omega (arith, most_le-items_depth a.inner.items) };
}

impl Model for NodeMap {
    ghost use Rattle.spec_documents.specs.Tree.{Members, members_depth};
    ghost use Rattle.spec_documents.specs.Fields.{AreAscending};
    ghost use Rattle.spec_documents.specs.TreeCode.{members_code};

    ghost Value = { Members };

    ghost coded = { members_code };

    ghost use Rattle.n32_values.specs.View.{entries_view, map_view};

    ghost view = { λ m. map_view m.inner.items };

    ghost invariant = { λ m. AreAscending (entries_view m.inner.items) };

    ghost size = { λ ms. members_depth ms };

    ghost use Rattle.std.proofs.Common.{arith};
    ghost use Rattle.n32_values.specs.Falls.{most_le-members_depth};

    ghost size_decreases = { λ a h. Prim.omega (arith, most_le-members_depth a.inner.items) };
}

impl NodeList {
    ghost use Rattle.std.specs.Borrow.{sem};
    ghost use Rattle.n32_values.specs.Lending.{LendsItem};

    /// The empty list. It takes no memory.
    pub fn new(alloc: Global) -> NodeList
        ensures { result ≡ [] }
    {
        NodeList {
            inner: Vec::new(alloc),
        }
    }

    /// The empty list, with room for so many items.
    pub fn with_capacity(alloc: Global, count: usize) -> Result<NodeList, NoMemory>
        ensures { IfOk result (λ l. l ≡ []) }
    {
        Ok(NodeList {
            inner: Vec::with_capacity(alloc, count)?,
        })
    }

    /// How many items it has.
    pub fn len(&self) -> usize
        ensures { result ≡ length self.now }
    {
        self.inner.len()
    }

    /// The item at place `i`, or `None` exactly at or past the end.
    pub fn get(&self, i: usize) -> Option<&Node>
        ensures value { option_map (λ n. tree_of n.now) result ≡ slice_get self.now i }
        ensures within { OnSome result (i < length self.now) }
    {
        self.inner.get(i)
    }

    /// The item at a place that is there.
    pub fn item(&self, i: usize) -> &Node
        requires { i < length self.now }
        ensures { slice_get self.now i ≡ Some (tree_of result.now) }
    {
        &self.inner[i]
    }

    /// Lends the item at place `i` for writing, or `None` exactly at or past the end. All else stays.
    pub fn get_mut(&mut self, i: usize) -> Option<&mut Node>
        ensures* writes_back { sem 𝓛 (LendsItem self.entry i result) }
        ensures value { option_map (λ n. tree_of n.now) result ≡ slice_get self.old i }
    {
        self.inner.get_mut(i)
    }

    /// Takes the item at place `i` out and closes up, or `None` exactly at or past the end.
    #[tactic(auto, using(crate::proofs::Trees::remove_view))]
    pub fn take(&mut self, i: usize) -> Option<Node>
        ensures taken { option_map tree_of result ≡ slice_get self.old i }
        ensures after { MatchOption result (self.new ≡ self.old) (λ _. self.new ≡ remove self.old i) }
    {
        if i < self.inner.len() {
            Some(self.inner.remove(i))
        } else {
            None
        }
    }

    /// Puts an item in before place `i`. A refused insert leaves the list as it was, and lets the item go.
    #[tactic(auto, using(crate::proofs::Trees::insert_view))]
    pub fn insert(&mut self, i: usize, item: Node) -> Result<(), NoMemory>
        requires { i ≤ length self.old }
        ensures ok { OnOk result (self.new ≡ insert self.old i (tree_of item)) }
        ensures err { OnErr result (self.new ≡ self.old) }
    {
        memory::insert(&mut self.inner, i, item)?;
        Ok(())
    }

    /// Adds an item at the end. A refused push leaves the list as it was, and lets the item go.
    pub fn push(&mut self, item: Node) -> Result<(), NoMemory>
        ensures ok { OnOk result (self.new ≡ self.old ++ tree_of item ∷ []) }
        ensures err { OnErr result (self.new ≡ self.old) }
    {
        memory::push(&mut self.inner, item)
    }
}

impl NodeMap {
    ghost use Rattle.std.specs.Borrow.{sem};
    ghost use Rattle.n32_values.specs.Lending.{LendsMember};
    ghost use Rattle.std.specs.Option.{option_copied};
    ghost use Rattle.spec_documents.specs.Tree.{no_members, get_member, put_member, drop_member};

    /// The empty map. It takes no memory.
    pub fn new(alloc: Global) -> NodeMap
        ensures { result ≡ no_members }
    {
        NodeMap {
            inner: Vec::new(alloc),
        }
    }

    /// The empty map, with room for so many members.
    pub fn with_capacity(alloc: Global, count: usize) -> Result<NodeMap, NoMemory>
        ensures { IfOk result (λ m. m ≡ no_members) }
    {
        Ok(NodeMap {
            inner: Vec::with_capacity(alloc, count)?,
        })
    }

    /// How many members it has.
    #[tactic(auto, using(spec_documents::proofs::FieldLemmas::views))]
    pub fn len(&self) -> usize
        ensures value { result ≡ length (field_list self.now) }
        ensures ascending { AreAscending (field_list self.now) }
    {
        self.inner.len()
    }

    /// The member of this name, or `None` exactly where there is none.
    pub fn get(&self, name: &str) -> Option<&Node>
        ensures { option_map (λ n. tree_of n.now) result ≡ get_member name.now self.now }
    {
        match search(&self.inner, name) {
            Ok(i) => Some(&self.inner[i].node),
            Err(_) => None,
        }
    }

    /// The name at place `i` in byte order of names, or `None` exactly at or past the end.
    #[tactic(auto, using(spec_documents::proofs::FieldLemmas::views))]
    pub fn name_at(&self, i: usize) -> Option<&Text>
        ensures value { option_copied result ≡ option_map (λ e. e.0) (slice_get (field_list self.now) i) }
    {
        if i < self.inner.len() {
            Some(&self.inner[i].name)
        } else {
            None
        }
    }

    /// The node at place `i` in byte order of names, or `None` exactly at or past the end.
    #[tactic(auto, using(spec_documents::proofs::FieldLemmas::views))]
    pub fn node_at(&self, i: usize) -> Option<&Node>
        ensures value { option_map (λ n. tree_of n.now) result ≡ option_map (λ e. e.1) (slice_get (field_list self.now) i) }
    {
        if i < self.inner.len() {
            Some(&self.inner[i].node)
        } else {
            None
        }
    }

    /// The member at a place that is there.
    #[tactic(auto, using(spec_documents::proofs::FieldLemmas::views))]
    pub fn entry(&self, i: usize) -> (&Text, &Node)
        requires { i < length (field_list self.now) }
        ensures { slice_get (field_list self.now) i ≡ Some (result.0.now, tree_of result.1.now) }
    {
        let member = &self.inner[i];
        (&member.name, &member.node)
    }

    /// Adds a member whose name comes after all others, with no search for its place. A refused push leaves the map as it was.
    #[tactic(auto, using(spec_documents::proofs::FieldLemmas::views))]
    pub fn push_last(&mut self, name: Text, node: Node) -> Result<(), NoMemory>
        requires { AreAscending (field_list self.old ++ (name, tree_of node) ∷ []) }
        ensures ok { OnOk result (field_list self.new ≡ field_list self.old ++ (name, tree_of node) ∷ []) }
        ensures err { OnErr result (self.new ≡ self.old) }
    {
        memory::push(&mut self.inner, Member { name, node })?;
        Ok(())
    }

    /// Lends the member of this name for writing, or `None` exactly where there is none. All else stays.
    pub fn get_mut(&mut self, name: &str) -> Option<&mut Node>
        ensures* writes_back { sem 𝓛 (LendsMember self.entry name.now result) }
        ensures value { option_map (λ n. tree_of n.now) result ≡ get_member name.now self.old }
    {
        match search(&self.inner, name) {
            Ok(i) => {
                let member = &mut self.inner[i];
                Some(&mut member.node)
            }
            Err(_) => None,
        }
    }

    /// Gives a name this node, and hands back the node that it replaces. A refused put leaves the map as it was.
    pub fn put(&mut self, name: Text, node: Node) -> Result<Option<Node>, NoMemory>
        ensures ok { OnOk result (self.new ≡ put_member name (tree_of node) self.old) }
        ensures replaced { IfOk result (λ old. option_map tree_of old ≡ get_member name self.old) }
        ensures err { OnErr result (self.new ≡ self.old) }
    {
        match search(&self.inner, name.as_str()) {
            Ok(i) => {
                let member = &mut self.inner[i];
                Ok(Some(mem::replace(&mut member.node, node)))
            }
            Err(i) => {
                memory::insert(&mut self.inner, i, Member { name, node })?;
                Ok(None)
            }
        }
    }

    /// Takes the member of this name out, or `None` exactly where there is none.
    pub fn take(&mut self, name: &str) -> Option<Node>
        ensures taken { option_map tree_of result ≡ get_member name.now self.old }
        ensures after { self.new ≡ drop_member name.now self.old }
    {
        match search(&self.inner, name) {
            Ok(i) => {
                let Member { name: _, node } = self.inner.remove(i);
                Some(node)
            }
            Err(_) => None,
        }
    }
}

fn search(members: &[Member], name: &str) -> Result<usize, usize>
    requires { AreAscending (entries_view members.now) }
    ensures { MatchResult result (StandsAt name.now (entries_view members.now)) (BelongsAt name.now (entries_view members.now)) }
{
    members.binary_search_by(|member| compare(member, name))
}

fn compare(member: &Member, name: &str) -> Ordering
    ensures { result ≡ name_cmp member.now.name name.now }
{
    member.name.as_str().cmp(name)
}

/// How deep lists and maps nest: 0 for a value that is neither, and one more than the deepest member for one that is.
/// Every greater depth is 4,294,967,295. What is counted through is a tree: names in order, numbers in range.
#[cycle(depth)]
pub fn depth(node: &Node) -> u32
    ensures deep { result ≡ min (nesting (tree_of node.now)) (2 ^ 32 - 1) }
    ensures tree { IsTrue (is_tree (tree_of node.now)) }
{
    match node {
        Node::Items(list) => items_depth(list).saturating_add(1),
        Node::Members(map) => members_depth(map).saturating_add(1),
        Node::Whole(number) => {
            let _in_range = number.value();
            0
        }
        _ => 0,
    }
}

#[cycle(depth)]
fn items_depth(list: &NodeList) -> u32
    ensures deep { result ≡ min (items_nesting (trees list.now)) (2 ^ 32 - 1) }
    ensures tree { IsTrue (is_tree (items (trees list.now))) }
{
    let mut deepest = 0;
    for node in &list.inner {
        deepest = deepest.max(depth(node));
    }
    deepest
}

#[cycle(depth)]
fn members_depth(map: &NodeMap) -> u32
    ensures deep { result ≡ min (members_nesting map.now) (2 ^ 32 - 1) }
    ensures tree { IsTrue (is_tree (members map.now)) }
{
    let mut deepest = 0;
    for member in &map.inner {
        deepest = deepest.max(depth(&member.node));
    }
    deepest
}

/// A node with the same tree.
#[cycle(copy)]
pub fn copy_doc(alloc: Global, node: &Node) -> Result<Node, NoMemory>
    ensures { IfOk result (λ n. tree_of n ≡ tree_of node.now) }
{
    match node {
        Node::Null => Ok(Node::Null),
        Node::Truth(b) => Ok(Node::Truth(*b)),
        Node::Whole(number) => Ok(Node::Whole(*number)),
        Node::Words(text) => Ok(Node::Words(text.copy(alloc)?)),
        Node::Items(list) => Ok(Node::Items(copy_list(alloc, list)?)),
        Node::Members(map) => Ok(Node::Members(copy_map(alloc, map)?)),
    }
}

#[cycle(copy)]
fn copy_list(alloc: Global, list: &NodeList) -> Result<NodeList, NoMemory>
    ensures { IfOk result (λ l. l ≡ list.now) }
{
    let mut copies = NodeList::with_capacity(alloc, list.inner.len())?;
    for node in &list.inner {
        copies.push(copy_doc(alloc, node)?)?;
    }
    Ok(copies)
}

#[cycle(copy)]
fn copy_map(alloc: Global, map: &NodeMap) -> Result<NodeMap, NoMemory>
    ensures { IfOk result (λ m. m ≡ map.now) }
{
    let mut copies = Vec::with_capacity(alloc, map.inner.len())?;
    for member in &map.inner {
        let name = member.name.copy(alloc)?;
        let node = copy_doc(alloc, &member.node)?;
        memory::push(&mut copies, Member { name, node })?;
    }
    Ok(NodeMap { inner: copies })
}
