// The block, which is the additional data of the JWE.
ghost use Rattle.std.specs.Prelude.{◌≡◌, IfOk, IsTrue, codes, option_and_then};
ghost use Rattle.spec_documents.specs.Base64url.{bytes_of};
ghost use Rattle.spec_documents.specs.Gives.{Gives};
ghost use Rattle.spec_documents.specs.Ids.{hex_after};
ghost use Rattle.spec_documents.specs.Reading.{document_of};
ghost use Rattle.spec_documents.specs.Text.{is_id};
ghost use Rattle.spec_messages.specs.Block.{is_meta};
ghost use Rattle.spec_messages.specs.Message.{wanted};
ghost use Rattle.spec_sealing.specs.Received as spec;
ghost use Rattle.block_forms.specs.Metadata.{meta_in, meta_view};
ghost use Rattle.http_message.specs.Reading.{kind_view};
ghost use Rattle.prins_document.specs.View.{part_told};

use crate::document::{WireMember, WireRead};
use block_forms::{Meta, MetaRead, read_meta};
use http_message::Kind;
use n32_values::{
    B64Fault, Doc, DocFault, Hex64, Node, Text, read_base64url, read_doc, read_hex64,
};
use std::alloc::Global;

// A block, and its `metaData`.
#[derive(Drop)]
pub(crate) struct Block {
    pub(crate) doc: Doc,
    pub(crate) meta: Meta,
}

fn read_bytes(alloc: Global, bytes: &[u8]) -> Result<Doc, WireRead>
    ensures { Gives part_told (λ d. d) result (wanted (document_of bytes.now) (codes "aad")) }
{
    match read_doc(alloc, bytes) {
        Ok(block) => Ok(block),
        Err(DocFault::Syntax) => Err(WireRead::Form(WireMember::Block)),
        Err(DocFault::Number) => Err(WireRead::Form(WireMember::Block)),
        Err(DocFault::NoMemory) => Err(WireRead::NoMemory),
    }
}

// The document whose bytes a base64url text is of.
fn read_text(alloc: Global, aad: &str) -> Result<Doc, WireRead>
    ensures { Gives part_told (λ d. d) result (wanted (option_and_then document_of (bytes_of aad.now)) (codes "aad")) }
{
    match read_base64url(alloc, aad) {
        Ok(bytes) => read_bytes(alloc, bytes.as_slice()),
        Err(B64Fault::NotText) => Err(WireRead::Form(WireMember::Block)),
        Err(B64Fault::NoMemory) => Err(WireRead::NoMemory),
    }
}

// The `metaData` of a block.
fn read_block_meta(alloc: Global, block: &Doc) -> Result<Meta, WireRead>
    ensures { Gives part_told meta_view result (wanted (meta_in block.now) (codes "aad")) }
{
    match read_meta(alloc, block) {
        Ok(meta) => Ok(meta),
        Err(MetaRead::Form) => Err(WireRead::Form(WireMember::Block)),
        Err(MetaRead::NoMemory) => Err(WireRead::NoMemory),
    }
}

// The block of an `aad` text, which has its `metaData`.
pub(crate) fn read_block(alloc: Global, aad: &str) -> Result<Block, WireRead>
    ensures block { Gives part_told (λ b. b.doc) result (wanted (spec.block_in aad.now) (codes "aad")) }
    ensures meta { IfOk result (λ b. spec.metadata_of b.doc ≡ meta_view b.meta) }
    ensures grammar { IfOk result (λ b. IsTrue (is_meta (meta_view b.meta))) }
{
    let doc = read_text(alloc, aad)?;
    let meta = read_block_meta(alloc, &doc)?;
    Ok(Block { doc, meta })
}

// The id that a text in the grammar is.
pub(crate) fn id_of(text: &Text) -> Hex64
    requires { IsTrue (is_id text.now) }
    ensures { result.value ≡ hex_after 0 text.now }
{
    read_hex64(text.as_str()).unwrap()
}

// A response has a member `statusLine`.
pub(crate) fn kind_of(block: &Doc) -> Kind
    ensures { kind_view result ≡ spec.kind_in block.now }
{
    match block.node() {
        Node::Members(map) => if map.get("statusLine").is_some() {
            Kind::Response
        } else {
            Kind::Request
        },
        _ => Kind::Request,
    }
}
