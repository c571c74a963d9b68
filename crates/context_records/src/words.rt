// The words and numbers of a record's document.
ghost use Rattle.std.specs.Prelude.{◌≡◌, [], ◌∷◌, option_map};
ghost use Rattle.std.specs.Option.{option_copied};
ghost use Rattle.http_message.specs.Reading.{kind_view};
ghost use Rattle.n32_values.specs.View.{tree_of};
ghost use Rattle.spec_documents.specs.Ids.{id_of, plmn_of};
ghost use Rattle.spec_messages.specs.Message.{wanted, text_at, text_if};
ghost use Rattle.spec_messages.specs.PolicyDocument.{chosen};
ghost use Rattle.spec_documents.specs.Text.{is_identity as is_identity_text, is_node_name};
ghost use Rattle.spec_records.specs.RecordDocument as document;
ghost use Rattle.context_records.specs.View.{suite_view};
ghost use Rattle.context_records.specs.Reading.{Gives};

use crate::read::RecordRead;
use doc_forms::{Grammar, is_identity, text_at};
use http_message::Kind;
use jwe_flat::Suite;
use n32_values::{Hex64, Node, NodeList, NodeMap, PlmnId, Text, TextList, read_hex64, read_plmn};
use policy_documents::{Policy, PolicyRead, read_policy};
use std::alloc::Global;

/// The name of a node that a member is.
pub fn read_node_name(alloc: Global, map: &NodeMap, name: &str) -> Result<Text, RecordRead>
    ensures { Gives (λ t. t) result (wanted (text_at is_node_name name.now map.now) document.no_record) }
{
    match text_at(map, name, Grammar::NodeName) {
        Some(text) => Ok(Text::from_text(alloc, text)?),
        None => Err(RecordRead::Form),
    }
}

/// The id that a node is.
pub fn read_id(node: Option<&Node>) -> Result<Hex64, RecordRead>
    ensures { Gives (λ id. id.value) result (wanted (chosen id_of (option_map (λ n. tree_of n.now) node.entry)) document.no_record) }
{
    if let Some(Node::Words(text)) = node {
        if let Some(id) = read_hex64(text.as_str()) {
            return Ok(id);
        }
    }
    Err(RecordRead::Form)
}

/// The PLMN id that a node is.
pub fn read_network(alloc: Global, node: Option<&Node>) -> Result<PlmnId, RecordRead>
    ensures { Gives (λ p. p) result (wanted (chosen plmn_of (option_map (λ n. tree_of n.now) node.entry)) document.no_record) }
{
    if let Some(Node::Words(text)) = node {
        if let Some(plmn) = read_plmn(alloc, text.as_str())? {
            return Ok(plmn);
        }
    }
    Err(RecordRead::Form)
}

fn suite_of(word: &str) -> Option<Suite>
    ensures { option_map suite_view result ≡ document.suite_of word.now }
{
    if word == "A128GCM" {
        Some(Suite::A128Gcm)
    } else if word == "A256GCM" {
        Some(Suite::A256Gcm)
    } else {
        None
    }
}

/// The suite that a node names.
pub fn read_suite(node: Option<&Node>) -> Result<Suite, RecordRead>
    ensures { Gives suite_view result (wanted (chosen document.suite_of (option_map (λ n. tree_of n.now) node.entry)) document.no_record) }
{
    if let Some(Node::Words(text)) = node {
        if let Some(suite) = suite_of(text.as_str()) {
            return Ok(suite);
        }
    }
    Err(RecordRead::Form)
}

fn kind_named(word: &str) -> Option<Kind>
    ensures { option_map kind_view result ≡ document.kind_named word.now }
{
    if word == "request" {
        Some(Kind::Request)
    } else if word == "response" {
        Some(Kind::Response)
    } else {
        None
    }
}

pub(crate) fn read_kind(node: Option<&Node>) -> Result<Kind, RecordRead>
    ensures { Gives kind_view result (wanted (chosen document.kind_named (option_map (λ n. tree_of n.now) node.entry)) document.no_record) }
{
    if let Some(Node::Words(text)) = node {
        if let Some(kind) = kind_named(text.as_str()) {
            return Ok(kind);
        }
    }
    Err(RecordRead::Form)
}

// The word that a kind is written as.
pub(crate) fn kind_word(kind: Kind) -> &'static str
    ensures { result.now ≡ document.kind_text (kind_view kind) }
{
    match kind {
        Kind::Request => "request",
        Kind::Response => "response",
    }
}

// The word that a suite is written as.
pub(crate) fn suite_word(suite: Suite) -> &'static str
    ensures { result.now ≡ document.suite_text (suite_view suite) }
{
    match suite {
        Suite::A128Gcm => "A128GCM",
        Suite::A256Gcm => "A256GCM",
    }
}

/// The number of 32 bits that a node is.
pub fn number_of(node: &Node) -> Option<u32>
    ensures { result ≡ document.number_of (tree_of node.now) }
{
    match node {
        Node::Whole(number) => u32::try_from(number.value()).ok(),
        _ => None,
    }
}

pub(crate) fn read_number(node: Option<&Node>) -> Result<u32, RecordRead>
    ensures { Gives (λ n. n) result (wanted (document.number_in (option_map (λ n. tree_of n.now) node.entry)) document.no_record) }
{
    if let Some(node) = node {
        if let Some(number) = number_of(node) {
            return Ok(number);
        }
    }
    Err(RecordRead::Form)
}

// The number of a mapping, or null for none.
pub(crate) fn read_mapping(node: Option<&Node>) -> Result<Option<u32>, RecordRead>
    ensures { Gives (λ p. p) result (wanted (document.mapping_in (option_map (λ n. tree_of n.now) node.entry)) document.no_record) }
{
    match node {
        Some(Node::Null) => Ok(None),
        Some(node) => match number_of(node) {
            Some(number) => Ok(Some(number)),
            None => Err(RecordRead::Form),
        },
        None => Err(RecordRead::Form),
    }
}

pub(crate) fn read_policy_at(alloc: Global, node: Option<&Node>) -> Result<Policy, RecordRead>
    ensures { Gives (λ p. p) result (wanted (document.policy_in (option_map (λ n. tree_of n.now) node.entry)) document.no_record) }
{
    let Some(node) = node else {
        return Err(RecordRead::Form);
    };
    match read_policy(alloc, node) {
        Ok(policy) => Ok(policy),
        Err(PolicyRead::Form(_)) => Err(RecordRead::Form),
        Err(PolicyRead::NoMemory) => Err(RecordRead::NoMemory),
    }
}

fn identity_in(node: &Node) -> Option<&Text>
    ensures { option_copied result ≡ text_if is_identity_text (tree_of node.now) }
{
    match node {
        Node::Words(text) => {
            if is_identity(text.as_str()) {
                Some(text)
            } else {
                None
            }
        }
        _ => None,
    }
}

// The list of this identity alone.
fn one_identity(alloc: Global, node: &Node) -> Result<TextList, RecordRead>
    ensures { Gives (λ ts. ts) result (wanted (option_map (λ s. s ∷ []) (text_if is_identity_text (tree_of node.now))) document.no_record) }
{
    let Some(text) = identity_in(node) else {
        return Err(RecordRead::Form);
    };
    let mut identities = TextList::new(alloc);
    identities.push(text.copy(alloc)?)?;
    Ok(identities)
}

// A list of at most one identity.
fn read_identities(alloc: Global, list: &NodeList) -> Result<TextList, RecordRead>
    ensures { Gives (λ ts. ts) result (wanted (document.identities list.now) document.no_record) }
{
    let count = list.len();
    if count == 0 {
        return Ok(TextList::new(alloc));
    }
    if count > 1 {
        return Err(RecordRead::Form);
    }
    one_identity(alloc, list.item(0))
}

/// The list of at most one identity that a node is.
#[tactic(auto, using(spec_documents::proofs::FieldLemmas::views))]
pub fn read_ipx(alloc: Global, node: Option<&Node>) -> Result<TextList, RecordRead>
    ensures { Gives (λ ts. ts) result (wanted (document.ipx_in (option_map (λ n. tree_of n.now) node.entry)) document.no_record) }
{
    match node {
        Some(Node::Items(list)) => read_identities(alloc, list),
        _ => Err(RecordRead::Form),
    }
}
