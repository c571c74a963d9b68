use json_ptr::Pointer;
use n32_values::{List, Node};

/// An operation of a patch (RFC 6902, section 4).
#[derive(Drop)]
pub enum Op {
    /// Puts a value at a place: a member, which takes it in place of what it had, an item before the
    /// one at the index or, for `-`, after the last, or the whole document.
    Add { path: Pointer, value: Node },
    /// Takes out the member or item at a place.
    Remove { path: Pointer },
    /// Puts a value in place of what stands at a place.
    Replace { path: Pointer, value: Node },
    /// Takes out what stands at one place and adds it at another.
    Move { from: Pointer, path: Pointer },
    /// Adds at a place what stands at another.
    Copy { from: Pointer, path: Pointer },
    /// Changes nothing, and is refused where another value stands at the place.
    Test { path: Pointer, value: Node },
}

/// A list of operations.
pub type OpList = List<Op>;
