// The whole document.
ghost use Rattle.std.specs.Prelude.{◌≡◌, List, [], IsTrue, is_some, option_map, unwrap_or, codes};
ghost use Rattle.spec_documents.specs.Gives.{Gives};
ghost use Rattle.spec_documents.specs.Tree.{Tree, get_member, items_in};
ghost use Rattle.spec_messages.specs.Block.{is_meta};
ghost use Rattle.spec_messages.specs.Message.{wanted};
ghost use Rattle.n32_values.specs.View.{tree_of};
ghost use Rattle.spec_sealing.specs.Received.{entries_in, metadata_of, parts_of, received};
ghost use Rattle.block_forms.specs.Metadata.{meta_view};
ghost use Rattle.jwe_flat.specs.View.{jwe_view};
ghost use Rattle.prins_document.specs.View.{entries_of, part_name, part_told, parts_view, wire_view};

use crate::block::{Block, id_of, kind_of, read_block};
use crate::data::{data_in, members_in, read_data};
use block_forms::Meta;
use http_message::Kind;
use jwe_flat::{FlatJwe, JweMember};
use n32_values::{Doc, Hex64, NoMemory, Node, NodeList, NodeMap, Text};
use std::alloc::Global;

/// What a reformatted document holds.
#[derive(Drop)]
pub struct WireDoc {
    /// The JWE, whose additional data is the block and whose plaintext are the values.
    pub jwe: FlatJwe,
    /// The document that the bytes of `aad` are.
    pub block: Doc,
    /// The receiver's context.
    pub context: Hex64,
    /// The message in the context.
    pub message: Hex64,
    /// The intermediary that may modify the message, or `null`.
    pub authorized: Text,
    /// A response exactly where the block has a member `statusLine`.
    pub kind: Kind,
}

/// The parts of a reformatted document that a reading may refuse, in the order in which they are read.
#[derive(Clone, Copy, Debug, PartialEq, Eq, Drop)]
pub enum WireMember {
    /// The document is no object.
    Document,
    /// A member of the JWE `reformattedData` (RFC 7516, section 7.2.2), or the whole, which is absent or no object.
    Jwe(JweMember),
    /// The bytes of `aad` are no document, or one that is no object, or whose `metaData` is missing or
    /// out of the grammar.
    Block,
    /// `modificationsBlock` is there and is neither null nor a list of at most two entries.
    ModificationsBlock,
}

impl WireMember {
    /// The name by which a refusal tells it.
    pub fn name(self) -> &'static str
        ensures { result.now ≡ part_name self }
    {
        match self {
            WireMember::Document => "document",
            WireMember::Jwe(member) => member.name(),
            WireMember::Block => "aad",
            WireMember::ModificationsBlock => "modificationsBlock",
        }
    }
}

/// Why a document isn't read.
#[derive(Clone, Copy, Debug, PartialEq, Eq, Drop)]
pub enum WireRead {
    /// The first part that has not its form.
    Form(WireMember),
    /// Memory was refused.
    NoMemory,
}

impl From<NoMemory> for WireRead {
    ghost use Rattle.std.specs.Prelude.{◌≡◌};
    ghost use Rattle.prins_document.specs.declared.document.WireRead.TheVariants.{NoMemory as refused_memory};

    ghost from_gives = { λ _ e. e ≡ refused_memory };

    fn from(_refused: NoMemory) -> WireRead {
        WireRead::NoMemory
    }
}

#[tactic(auto, using(spec_documents::proofs::FieldLemmas::views))]
fn list_in(node: Option<&Node>) -> Option<&NodeList>
    ensures { option_map (λ l. l.now) result ≡ items_in (option_map (λ n. tree_of n.now) node.entry) }
{
    match node {
        Some(Node::Items(list)) => Some(list),
        _ => None,
    }
}

/// The entries of a document: its member `modificationsBlock`, or `None` exactly where that is absent or
/// no list. It takes no memory.
pub fn entries(doc: &Doc) -> Option<&NodeList>
    ensures { option_map (λ l. l.now) result ≡ entries_of doc.now }
{
    match doc.node() {
        Node::Members(map) => list_in(map.get("modificationsBlock")),
        _ => None,
    }
}

// Whether the entries are absent, null, or a list of at most two.
#[tactic(auto, using(spec_documents::proofs::FieldLemmas::views))]
fn has_entries(map: &NodeMap) -> bool
    ensures { result ≡ is_some (entries_in (get_member (codes "modificationsBlock") map.now)) }
{
    match map.get("modificationsBlock") {
        None | Some(Node::Null) => true,
        Some(Node::Items(list)) => list.len() <= 2,
        Some(_) => false,
    }
}

// Refuses entries out of their form.
#[tactic(auto, using(crate::proofs::ListedEntries::listed_entries))]
fn check_entries(map: &NodeMap) -> Result<(), WireRead>
    ensures { Gives part_told (λ _. unwrap_or (items_in (get_member (codes "modificationsBlock") map.now)) []) result (wanted (entries_in (get_member (codes "modificationsBlock") map.now)) (codes "modificationsBlock")) }
{
    if has_entries(map) {
        Ok(())
    } else {
        Err(WireRead::Form(WireMember::ModificationsBlock))
    }
}

// What a document with this JWE and this block holds.
fn whole_of(jwe: FlatJwe, block: Block) -> WireDoc
    requires meta { metadata_of block.doc ≡ meta_view block.meta }
    requires grammar { IsTrue (is_meta (meta_view block.meta)) }
    ensures { (entries : List Tree) → parts_view entries result ≡ parts_of (jwe_view jwe) block.doc entries }
{
    let kind = kind_of(&block.doc);
    let context = id_of(&block.meta.context);
    let message = id_of(&block.meta.message);
    WireDoc {
        jwe,
        block: block.doc,
        context,
        message,
        authorized: block.meta.ipx,
        kind,
    }
}

/// Reads a reformatted document: `{"reformattedData":{..},"modificationsBlock":[..]}`, where
/// `reformattedData` is a flattened JWE. Other members are ignored, and the entries aren't read.
///
/// `Form` names the first part that has not its form, in the order of `WireMember`.
#[tactic(auto, unfolding(spec_documents::specs::Chain::chains))]
pub fn read_wire_doc(alloc: Global, doc: &Doc) -> Result<WireDoc, WireRead>
    ensures { Gives part_told (wire_view doc.now) result (received doc.now) }
{
    let map = members_in(doc.node())?;
    let data = data_in(map)?;
    let jwe = read_data(alloc, data)?;
    let block = read_block(alloc, jwe.aad.as_str())?;
    check_entries(map)?;
    Ok(whole_of(jwe, block))
}
