//! Reading a JWE out of its document.

ghost use Rattle.std.specs.Prelude.{◌≡◌, length, codes};
ghost use Rattle.spec_documents.specs.Base64url.{bytes_of};
ghost use Rattle.spec_documents.specs.Gives.{Gives};
ghost use Rattle.spec_messages.specs.Message.{any_text, text_at, wanted};
ghost use Rattle.spec_sealing.specs.Header.{header_in};
ghost use Rattle.spec_sealing.specs.Jwe as spec;
ghost use Rattle.n32_values.specs.View.{tree_of};
ghost use Rattle.jwe_flat.specs.Documents.{jwe_of};
ghost use Rattle.jwe_flat.specs.View.{jwe_view, member_name, member_told};

use crate::header::{has_text, read_header};
use crate::jwe::FlatJwe;
use doc_forms::{Grammar, text_at};
use n32_values::{B64Fault, Bytes, NoMemory, Node, NodeMap, Text, read_base64url};
use std::alloc::Global;

/// The members of a JWE's document (RFC 7516, section 7.2.2). They are asked in this order, and the whole before them.
#[derive(Clone, Copy, Debug, PartialEq, Eq, Drop)]
pub enum JweMember {
    /// `protected` isn't base64url of a JSON object.
    Protected,
    /// `aad` isn't base64url.
    Aad,
    /// `iv` isn't base64url of 12 bytes.
    Iv,
    /// `ciphertext` isn't base64url.
    Ciphertext,
    /// `tag` isn't base64url of 16 bytes.
    Tag,
    /// `encrypted_key` is there and isn't the empty text (RFC 7518, section 4.5).
    EncryptedKey,
    /// `unprotected` is there.
    Unprotected,
    /// `header` is there.
    Header,
    /// It is no object.
    Whole,
}

impl JweMember {
    /// The name by which a refusal tells it: a member's, or `reformattedData` for the whole.
    pub fn name(self) -> &'static str
        ensures { result.now ≡ member_name self }
    {
        match self {
            JweMember::Protected => "protected",
            JweMember::Aad => "aad",
            JweMember::Iv => "iv",
            JweMember::Ciphertext => "ciphertext",
            JweMember::Tag => "tag",
            JweMember::EncryptedKey => "encrypted_key",
            JweMember::Unprotected => "unprotected",
            JweMember::Header => "header",
            JweMember::Whole => "reformattedData",
        }
    }
}

/// Why a node isn't read to a JWE.
#[derive(Clone, Copy, Debug, PartialEq, Eq, Drop)]
pub enum JweRead {
    /// The first member that has not its form.
    Form(JweMember),
    /// Memory was refused.
    NoMemory,
}

impl From<NoMemory> for JweRead {
    ghost use Rattle.std.specs.Prelude.{◌≡◌};
    ghost use Rattle.jwe_flat.specs.declared.read.JweRead.TheVariants.{NoMemory as refused_memory};

    ghost from_gives = { λ _ e. e ≡ refused_memory };

    fn from(_refused: NoMemory) -> JweRead {
        JweRead::NoMemory
    }
}

// The bytes of a member that is base64url.
fn read_bytes(alloc: Global, map: &NodeMap, name: &str, member: JweMember) -> Result<Bytes, JweRead>
    ensures { Gives member_told (λ b. b) result (wanted (spec.bytes_at name.now map.now) (member_name member)) }
{
    let Some(text) = text_at(map, name, Grammar::Any) else {
        return Err(JweRead::Form(member));
    };
    match read_base64url(alloc, text) {
        Ok(bytes) => Ok(bytes),
        Err(B64Fault::NotText) => Err(JweRead::Form(member)),
        Err(B64Fault::NoMemory) => Err(JweRead::NoMemory),
    }
}

// Fills a slice with the bytes of a member that is base64url of as many.
fn fill_bytes(
    alloc: Global,
    map: &NodeMap,
    name: &str,
    member: JweMember,
    out: &mut [u8],
) -> Result<(), JweRead>
    ensures { Gives member_told (λ _. out.new) result (wanted (spec.if_so_many (length out.old) (spec.bytes_at name.now map.now)) (member_name member)) }
{
    let bytes = read_bytes(alloc, map, name, member)?;
    if bytes.as_slice().len() != out.len() {
        return Err(JweRead::Form(member));
    }
    out.copy_from_slice(bytes.as_slice());
    Ok(())
}

// The text of `aad`, which is base64url.
fn read_aad(alloc: Global, map: &NodeMap) -> Result<Text, JweRead>
    ensures { Gives member_told (λ t. t) result (wanted (spec.text_with bytes_of (text_at any_text (codes "aad") map.now)) (codes "aad")) }
{
    let Some(text) = text_at(map, "aad", Grammar::Any) else {
        return Err(JweRead::Form(JweMember::Aad));
    };
    match read_base64url(alloc, text) {
        Ok(_bytes) => Ok(Text::from_text(alloc, text)?),
        Err(B64Fault::NotText) => Err(JweRead::Form(JweMember::Aad)),
        Err(B64Fault::NoMemory) => Err(JweRead::NoMemory),
    }
}

// The text of `protected`, which is a header's.
fn read_protected(alloc: Global, map: &NodeMap) -> Result<Text, JweRead>
    ensures { Gives member_told (λ t. t) result (wanted (spec.text_with header_in (text_at any_text (codes "protected") map.now)) (codes "protected")) }
{
    let Some(text) = text_at(map, "protected", Grammar::Any) else {
        return Err(JweRead::Form(JweMember::Protected));
    };
    match read_header(alloc, text) {
        Ok(Some(_header)) => Ok(Text::from_text(alloc, text)?),
        Ok(None) => Err(JweRead::Form(JweMember::Protected)),
        Err(NoMemory) => Err(JweRead::NoMemory),
    }
}

// Whether no key is enclosed: `encrypted_key` is absent or empty.
fn has_no_key(map: &NodeMap) -> bool
    ensures { result ≡ spec.has_no_key map.now }
{
    map.get("encrypted_key").is_none() || has_text(map, "encrypted_key", "")
}

/// Reads the JWE that an object with these members is of, as `read_jwe` does.
#[tactic(auto, unfolding(spec_documents::specs::Chain::chains))]
pub fn read_jwe_members(alloc: Global, map: &NodeMap) -> Result<FlatJwe, JweRead>
    ensures { Gives member_told jwe_view result (spec.jwe_in map.now) }
{
    let protected = read_protected(alloc, map)?;
    let aad = read_aad(alloc, map)?;
    let mut iv = [0; 12];
    fill_bytes(alloc, map, "iv", JweMember::Iv, &mut iv)?;
    let ciphertext = read_bytes(alloc, map, "ciphertext", JweMember::Ciphertext)?;
    let mut tag = [0; 16];
    fill_bytes(alloc, map, "tag", JweMember::Tag, &mut tag)?;
    if !has_no_key(map) {
        return Err(JweRead::Form(JweMember::EncryptedKey));
    }
    if map.get("unprotected").is_some() {
        return Err(JweRead::Form(JweMember::Unprotected));
    }
    if map.get("header").is_some() {
        return Err(JweRead::Form(JweMember::Header));
    }
    Ok(FlatJwe {
        protected,
        aad,
        iv,
        ciphertext,
        tag,
    })
}

/// Reads the JWE that a node is of. The texts of `protected` and `aad` are kept as they stand. Other members are ignored.
///
/// `Form` names the first member that has not its form, in the order of `JweMember`, and `Whole` before all others.
#[tactic(auto, unfolding(spec_documents::specs::Chain::chains))]
pub fn read_jwe(alloc: Global, node: &Node) -> Result<FlatJwe, JweRead>
    ensures { Gives member_told jwe_view result (jwe_of (tree_of node.now)) }
{
    match node {
        Node::Members(map) => read_jwe_members(alloc, map),
        _ => Err(JweRead::Form(JweMember::Whole)),
    }
}
