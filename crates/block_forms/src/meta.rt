// What a block says of its context, its message and its intermediary.
ghost use Rattle.std.specs.Prelude.{◌≡◌, ◌&&◌, Some, option_map, MatchResult, IfOk, codes};
ghost use Rattle.spec_documents.specs.Text as texts;
ghost use Rattle.spec_messages.specs.Block.{meta_tree};
ghost use Rattle.spec_messages.specs.Block as spec;
ghost use Rattle.spec_messages.specs.Fault.{is_meta_node};
ghost use Rattle.spec_documents.specs.Tree.{get_member};
ghost use Rattle.n32_values.specs.View.{tree_of};
ghost use Rattle.block_forms.specs.Metadata.{meta_view, texts_view, lower_ids, meta_in, meta_node_in, RefusesMeta};

use crate::exact::three_members;
use doc_forms::{is_id, is_node_name, put, put_text};
use n32_values::{Doc, NoMemory, Node, NodeMap, Text};
use std::alloc::Global;

/// The `metaData` of a block: the ids of the N32-f context and of the message, each 16 hexadecimal
/// digits of either case, and the identity of the authorized IPX, or `null` where there is none
/// (after the metadata block of TS 33.501, clause 13.2.4.3.1).
#[derive(Drop)]
pub struct Meta {
    pub context: Text,
    pub message: Text,
    pub ipx: Text,
}

/// Why a document has no `Meta`.
#[derive(Clone, Copy, Debug, PartialEq, Eq, Drop)]
pub enum MetaRead {
    /// It is no object, or its `metaData` is missing or out of the grammar.
    Form,
    /// Memory was refused.
    NoMemory,
}

impl From<NoMemory> for MetaRead {
    ghost use Rattle.std.specs.Prelude.{◌≡◌};
    ghost use Rattle.block_forms.specs.declared.meta.MetaRead.TheVariants.{NoMemory as refused_memory};

    ghost from_gives = { λ _ e. e ≡ refused_memory };

    fn from(_refused: NoMemory) -> MetaRead {
        MetaRead::NoMemory
    }
}

// The texts of a `metaData`.
#[derive(Clone, Copy, Drop)]
struct MetaTexts<'a> {
    context: &'a str,
    message: &'a str,
    ipx: &'a str,
}

/// Whether both ids are 16 hexadecimal digits, and the identity is one, or `null`.
pub fn is_meta(meta: &Meta) -> bool
    ensures { result ≡ spec.is_meta (meta_view meta.now) }
{
    are_meta(
        meta.context.as_str(),
        meta.message.as_str(),
        meta.ipx.as_str(),
    )
}

fn are_meta(context: &str, message: &str, ipx: &str) -> bool
    ensures { result ≡ ((texts.is_id context.now && texts.is_id message.now) && texts.is_node_name ipx.now) }
{
    are_ids(context, message) && is_node_name(ipx)
}

fn are_ids(context: &str, message: &str) -> bool
    ensures { result ≡ (texts.is_id context.now && texts.is_id message.now) }
{
    is_id(context) && is_id(message)
}

/// The object of a `metaData`, with its ids in lower case.
pub fn meta_node(alloc: Global, meta: &Meta) -> Result<Node, NoMemory>
    ensures { IfOk result (λ n. tree_of n ≡ meta_tree (lower_ids (meta_view meta.now))) }
{
    let context = Text::lowered(alloc, meta.context.as_str())?;
    let message = Text::lowered(alloc, meta.message.as_str())?;
    let mut map = NodeMap::with_capacity(alloc, 3)?;
    put(alloc, &mut map, "n32fContextId", Node::Words(context))?;
    put(alloc, &mut map, "messageId", Node::Words(message))?;
    put_text(alloc, &mut map, "authorizedIpxId", meta.ipx.as_str())?;
    Ok(Node::Members(map))
}

// The texts of a node that is a `metaData`.
#[tactic(auto, using(crate::proofs::Exactly::exact_meta))]
fn texts_in(node: Option<&Node>) -> Option<MetaTexts<'_>>
    ensures { option_map texts_view result ≡ meta_node_in (option_map (λ n. tree_of n.now) node.entry) }
{
    let Some(Node::Members(map)) = node else {
        return None;
    };
    match three_members(map, "authorizedIpxId", "messageId", "n32fContextId") {
        Some((Node::Words(ipx), Node::Words(message), Node::Words(context))) => {
            let context = context.as_str();
            let message = message.as_str();
            let ipx = ipx.as_str();
            if are_meta(context, message, ipx) {
                Some(MetaTexts {
                    context,
                    message,
                    ipx,
                })
            } else {
                None
            }
        }
        _ => None,
    }
}

// The texts of the `metaData` that a document has.
fn meta_texts(node: &Node) -> Option<MetaTexts<'_>>
    ensures { option_map texts_view result ≡ meta_in (tree_of node.now) }
{
    match node {
        Node::Members(map) => texts_in(map.get("metaData")),
        _ => None,
    }
}

// Whether a document has a `metaData` in the grammar.
pub(crate) fn has_meta(node: &Node) -> bool
    ensures { result ≡ (spec.is_object (tree_of node.now) && is_meta_node (get_member (codes "metaData") (spec.members_of (tree_of node.now)))) }
{
    meta_texts(node).is_some()
}

/// The `metaData` of a document, as it stands there. `Form` is answered exactly where the document is
/// no object, or its `metaData` is missing or out of the grammar: an object with the texts
/// `n32fContextId`, `messageId` and `authorizedIpxId`, and no other member.
pub fn read_meta(alloc: Global, doc: &Doc) -> Result<Meta, MetaRead>
    ensures { MatchResult result
        (λ meta. meta_in doc.now ≡ Some (meta_view meta))
        (λ why. RefusesMeta why (meta_in doc.now)) }
{
    let Some(texts) = meta_texts(doc.node()) else {
        return Err(MetaRead::Form);
    };
    Ok(Meta {
        context: Text::from_text(alloc, texts.context)?,
        message: Text::from_text(alloc, texts.message)?,
        ipx: Text::from_text(alloc, texts.ipx)?,
    })
}
