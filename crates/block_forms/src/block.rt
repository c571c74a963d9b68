// A block, which is seen as its tree.
ghost use Rattle.std.specs.Prelude.{◌≡◌, IfOk, None};
ghost use Rattle.spec_messages.specs.Fault.{block_fault};

use n32_values::{Doc, NoMemory};
use std::alloc::Global;
use std::marker::Model;

/// A block, which contracts see as its tree. It is known to be in the grammar, with one hole for each
/// value of a list: `holes` says how many.
#[derive(Drop)]
pub struct Block {
    doc: Doc,
    holes: u32,
}

impl Model for Block {
    ghost use Rattle.std.specs.Prelude.{◌≡◌, None};
    ghost use Rattle.spec_documents.specs.Tree.{Tree};
    ghost use Rattle.spec_documents.specs.TreeCode.{tree_code};
    ghost use Rattle.spec_messages.specs.Fault.{block_fault};

    ghost Value = { Tree };

    ghost coded = { tree_code };

    ghost view = { λ b. b.doc };

    ghost invariant = { λ b. block_fault b.doc b.holes ≡ None };
}

impl Block {
    /// The block that a document without a fault is, which is moved.
    pub fn of_doc(doc: Doc, holes: u32) -> Block
        requires { block_fault doc holes ≡ None }
        ensures value { result ≡ doc }
        ensures holes { block_fault result holes ≡ None }
    {
        Block { doc, holes }
    }

    /// How many holes it has, numbered from 0.
    pub fn holes(&self) -> u32
        ensures { block_fault self.now result ≡ None }
    {
        self.holes
    }

    /// An equal block.
    pub fn copy(&self, alloc: Global) -> Result<Block, NoMemory>
        ensures { IfOk result (λ b. b ≡ self.now) }
    {
        Ok(Block {
            doc: self.doc.copy(alloc)?,
            holes: self.holes,
        })
    }

    /// The document of a block that is given up.
    pub fn into_doc(self) -> Doc
        ensures { result ≡ self }
    {
        let Block { doc, .. } = self;
        doc
    }

    /// Its document.
    pub fn doc(&self) -> &Doc
        ensures { result.now ≡ self.now }
    {
        &self.doc
    }
}

/// The document of a block.
pub fn block_doc(alloc: Global, block: &Block) -> Result<Doc, NoMemory>
    ensures { IfOk result (λ d. d ≡ block.now) }
{
    block.doc.copy(alloc)
}
