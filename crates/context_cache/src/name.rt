// The name of a context: that of its node, and its id there.
ghost use Rattle.std.specs.Prelude.{◌&&◌, ◌==◌};
ghost use Rattle.std.specs.Str.{bytes_eq};
ghost use Rattle.std.specs.String.{string_bytes};
ghost use Rattle.context_cache.specs.Names.{alike, same_names};

use indexmap::Equivalent;
use std::hash::{Hash, Hasher};

#[derive(PartialEq, Eq, Hash, Drop)]
pub(crate) struct Name {
    pub node: String,
    pub id: u64,
}

// A name by which a context is looked up.
#[derive(Clone, Copy, PartialEq, Eq, Hash)]
pub(crate) struct NameRef<'a> {
    pub node: &'a str,
    pub id: u64,
}

impl<'a> Equivalent<Name> for NameRef<'a> {
    ghost equivalent = { λ q k. bytes_eq q.node.now (string_bytes k.node) && (q.id == k.id) };

    ghost respects_hash = { λ q k h. alike q.node.now (string_bytes k.node) q.id k.id h };

    ghost respects_eq = { λ q x y h. same_names q.node.now (string_bytes x.node) (string_bytes y.node) q.id x.id y.id h };

    fn equivalent(&self, key: &Name) -> bool {
        self.node == key.node.as_str() && self.id == key.id
    }
}
