ghost use Rattle.std.specs.Prelude.{◌≡◌, [], ◌∷◌, ◌++◌, ◌<◌, ◌↔◌, length, slice_get, IfOk, IsTrue, OnOk, OnErr, OnSome, Some, take};
ghost use Rattle.std.specs.Option.{option_copied};

use crate::doc::Doc;
use crate::memory::{self, NoMemory};
use crate::text::Text;
use std::alloc::Global;
use std::marker::Model;

/// A list, which contracts see as the list of its items.
#[derive(Drop)]
pub struct List<T> {
    inner: Vec<T>,
}

/// A list of texts.
pub type TextList = List<Text>;

/// A list of documents.
pub type DocList = List<Doc>;

impl<T> Model for List<T> {
    ghost use Rattle.std.specs.Prelude.{List as ListOf};
    ghost use Rattle.std.specs.Coded.{coded_list};

    ghost Value = { ListOf T };

    ghost coded = { coded_list T.code };

    ghost view = { λ l. l.inner.items };
}

impl<T> List<T> {
    /// The empty list. It takes no memory.
    pub fn new(alloc: Global) -> List<T>
        ensures { result ≡ [] }
    {
        List {
            inner: Vec::new(alloc),
        }
    }

    /// The empty list, with room for so many items.
    pub fn with_capacity(alloc: Global, count: usize) -> Result<List<T>, NoMemory>
        ensures { IfOk result (λ l. l ≡ []) }
    {
        Ok(List {
            inner: Vec::with_capacity(alloc, count)?,
        })
    }

    /// Takes a `Vec` without taking memory.
    pub fn from_vec(inner: Vec<T>) -> List<T>
        ensures { result ≡ inner.items }
    {
        List { inner }
    }

    /// Gives the `Vec` back without taking memory.
    pub fn into_vec(self) -> Vec<T>
        ensures { result.items ≡ self }
    {
        let List { inner } = self;
        inner
    }

    /// How many items it has.
    pub fn len(&self) -> usize
        ensures { result ≡ length self.now }
    {
        self.inner.len()
    }

    /// Whether it has no item.
    pub fn is_empty(&self) -> bool
        ensures { IsTrue result ↔ (self.now ≡ []) }
    {
        self.inner.is_empty()
    }

    /// The item at place `i`, or `None` exactly at or past the end.
    pub fn get(&self, i: usize) -> Option<&T>
        ensures value { option_copied result ≡ slice_get self.now i }
        ensures within { OnSome result (i < length self.now) }
    {
        self.inner.get(i)
    }

    /// The items as a slice.
    pub fn as_slice(&self) -> &[T]
        ensures { result.now ≡ self.now }
    {
        self.inner.as_slice()
    }

    /// The item at a place that is there.
    pub fn item(&self, i: usize) -> &T
        requires { i < length self.now }
        ensures { slice_get self.now i ≡ Some result.now }
    {
        &self.inner[i]
    }
}

impl<T: Drop> List<T> {
    /// Adds an item at the end. A refused push leaves the list as it was, and lets the item go.
    pub fn push(&mut self, item: T) -> Result<(), NoMemory>
        ensures ok { OnOk result (self.new ≡ self.old ++ item ∷ []) }
        ensures err { OnErr result (self.new ≡ self.old) }
    {
        memory::push(&mut self.inner, item)
    }

    /// Lets the items go that stand past the first `length`.
    pub fn truncate(&mut self, length: usize)
        ensures { self.new ≡ take length self.old }
    {
        self.inner.truncate(length)
    }
}

impl List<Text> {
    /// A list of equal texts.
    pub fn copy(&self, alloc: Global) -> Result<TextList, NoMemory>
        ensures { IfOk result (λ l. l ≡ self.now) }
    {
        let mut copies = TextList::with_capacity(alloc, self.inner.len())?;
        for text in &self.inner {
            copies.push(text.copy(alloc)?)?;
        }
        Ok(copies)
    }
}
