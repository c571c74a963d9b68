ghost use Rattle.std.specs.Prelude.{◌≡◌, ◌≤◌, ◌<◌, IfOk, IfErr, IsTrue};
ghost use Rattle.spec_documents.specs.Tree.{depth as nesting, is_tree};
ghost use Rattle.n32_values.specs.View.{tree_of};

use crate::memory::NoMemory;
use crate::node::{Node, copy_doc, depth};
use std::alloc::Global;
use std::marker::Model;

const MAX_DEPTH: u32 = 127;

/// A node that nests at most 127 deep, which contracts see as its tree.
#[derive(Drop)]
pub struct Doc {
    node: Node,
}

impl Model for Doc {
    ghost use Rattle.std.specs.Prelude.{◌≤◌, IsTrue};
    ghost use Rattle.spec_documents.specs.Tree.{Tree, depth, is_tree};
    ghost use Rattle.spec_documents.specs.TreeCode.{tree_code};

    ghost Value = { Tree };

    ghost coded = { tree_code };

    ghost use Rattle.n32_values.specs.View.{tree_of};

    ghost view = { λ d. tree_of d.node };

    ghost invariant = { λ d. (depth (tree_of d.node) ≤ 127) × IsTrue (is_tree (tree_of d.node)) };
}

impl Doc {
    /// The document of a node. A node that nests deeper than 127 is handed back.
    pub fn new(node: Node) -> Result<Doc, Node>
        ensures ok { IfOk result (λ d. d ≡ tree_of node) }
        ensures shallow { IfOk result (λ d. nesting d ≤ 127) }
        ensures tree { IfOk result (λ d. IsTrue (is_tree d)) }
        ensures deep { IfErr result (λ n. (n ≡ node) × (127 < nesting (tree_of node))) }
    {
        if depth(&node) <= MAX_DEPTH {
            Ok(Doc { node })
        } else {
            Err(node)
        }
    }

    /// A node that is known to nest at most 127 deep.
    pub fn from_shallow(node: Node) -> Doc
        requires { nesting (tree_of node) ≤ 127 }
        ensures { result ≡ tree_of node }
    {
        match Doc::new(node) {
            Ok(doc) => doc,
            Err(_) => unreachable!(),
        }
    }

    /// A document with the same tree.
    pub fn copy(&self, alloc: Global) -> Result<Doc, NoMemory>
        ensures { IfOk result (λ d. d ≡ self.now) }
    {
        let node = copy_doc(alloc, self.node())?;
        Ok(Doc::from_shallow(node))
    }

    /// A node that is known to be a tree and to nest at most 127 deep. It is not walked.
    pub fn of_shallow(node: Node) -> Doc
        requires { (nesting (tree_of node) ≤ 127) × IsTrue (is_tree (tree_of node)) }
        ensures { result ≡ tree_of node }
    {
        Doc { node }
    }

    /// Its node.
    pub fn node(&self) -> &Node
        ensures value { tree_of result.now ≡ self.now }
        ensures shallow { nesting self.now ≤ 127 }
        ensures tree { IsTrue (is_tree self.now) }
    {
        &self.node
    }

    /// Gives the node back.
    pub fn into_node(self) -> Node
        ensures { tree_of result ≡ self }
    {
        let Doc { node } = self;
        node
    }
}
