// Lists of words and of intermediaries.
ghost use Rattle.std.specs.Prelude.{◌≡◌, [], ◌∷◌, map, option_map};
ghost use Rattle.spec_documents.specs.Gives.{Gives};
ghost use Rattle.std.specs.Option.{option_copied};
ghost use Rattle.spec_messages.specs.Message.{wanted, text_if, any_text};
ghost use Rattle.spec_records.specs.RecordDocument as document;
ghost use Rattle.jwe_flat.specs.View.{suite_view};
ghost use Rattle.context_records.specs.Reading as records;
ghost use Rattle.n32_values.specs.View.{tree_of};
ghost use Rattle.spec_handshake.specs.Documents as spec;
ghost use Rattle.n32c_handshake.specs.Members.{member_name};
ghost use Rattle.n32c_handshake.specs.View.{capability_view};
ghost use Rattle.n32c_handshake.specs.Reading.{told, known_words};

use crate::capability::{CapabilityList, capability_of};
use crate::member::HandMember;
use crate::read::DocumentRead;
use crate::suites::{SuiteList, suite_of};
use context_records::RecordRead;
use doc_forms::{Grammar, text_at};
use n32_values::{Node, NodeList, NodeMap, Text, TextList};
use std::alloc::Global;

// The text that an item is.
fn word_of(node: &Node) -> Result<&Text, RecordRead>
    ensures { records.Gives (λ t. t.now) result (wanted (text_if any_text (tree_of node.now)) document.no_record) }
{
    match node {
        Node::Words(text) => Ok(text),
        _ => Err(RecordRead::Form),
    }
}

fn known_capabilities(alloc: Global, list: &NodeList) -> Result<CapabilityList, RecordRead>
    ensures { records.Gives (map capability_view) result (wanted (known_words spec.capability_of list.now) document.no_record) }
{
    let mut capabilities = CapabilityList::new(alloc);
    for i in 0..list.len() {
        let word = word_of(list.item(i))?;
        if let Some(capability) = capability_of(word.as_str()) {
            capabilities.push(capability)?;
        }
    }
    Ok(capabilities)
}

fn known_suites(alloc: Global, list: &NodeList) -> Result<SuiteList, RecordRead>
    ensures { records.Gives (map suite_view) result (wanted (known_words document.suite_of list.now) document.no_record) }
{
    let mut suites = SuiteList::new(alloc);
    for i in 0..list.len() {
        let word = word_of(list.item(i))?;
        if let Some(suite) = suite_of(word.as_str()) {
            suites.push(suite)?;
        }
    }
    Ok(suites)
}

/// The capabilities among the words that a node lists.
#[tactic(auto, using(spec_documents::proofs::FieldLemmas::views))]
pub fn read_capabilities(alloc: Global, node: Option<&Node>) -> Result<CapabilityList, RecordRead>
    ensures { records.Gives (map capability_view) result (wanted (spec.words_in spec.capability_of (option_map (λ n. tree_of n.now) node.entry)) document.no_record) }
{
    match node {
        Some(Node::Items(list)) => known_capabilities(alloc, list),
        _ => Err(RecordRead::Form),
    }
}

/// The suites among the words that a node lists.
#[tactic(auto, using(spec_documents::proofs::FieldLemmas::views))]
pub fn read_suites(alloc: Global, node: Option<&Node>) -> Result<SuiteList, RecordRead>
    ensures { records.Gives (map suite_view) result (wanted (spec.words_in document.suite_of (option_map (λ n. tree_of n.now) node.entry)) document.no_record) }
{
    match node {
        Some(Node::Items(list)) => known_suites(alloc, list),
        _ => Err(RecordRead::Form),
    }
}

// The identity of an intermediary's object.
fn provider_in(node: &Node) -> Option<&str>
    ensures { option_copied result ≡ spec.provider_of (tree_of node.now) }
{
    match node {
        Node::Members(map) => text_at(map, "ipxProviderId", Grammar::Identity),
        _ => None,
    }
}

// The list of this intermediary alone.
fn one_provider(alloc: Global, node: &Node, member: HandMember) -> Result<TextList, DocumentRead>
    ensures { Gives told (λ ts. ts) result (wanted (option_map (λ s. s ∷ []) (spec.provider_of (tree_of node.now))) (member_name member)) }
{
    let Some(identity) = provider_in(node) else {
        return Err(DocumentRead::Member(member));
    };
    let mut providers = TextList::new(alloc);
    providers.push(Text::from_text(alloc, identity)?)?;
    Ok(providers)
}

fn read_providers(
    alloc: Global,
    list: &NodeList,
    member: HandMember,
) -> Result<TextList, DocumentRead>
    ensures { Gives told (λ ts. ts) result (wanted (spec.providers list.now) (member_name member)) }
{
    let count = list.len();
    if count == 0 {
        return Ok(TextList::new(alloc));
    }
    if count > 1 {
        return Err(DocumentRead::Member(member));
    }
    one_provider(alloc, list.item(0), member)
}

/// The intermediaries that a member lists, at most one.
#[tactic(auto, using(spec_documents::proofs::FieldLemmas::views))]
pub(crate) fn providers_at(
    alloc: Global,
    object: &NodeMap,
    member: HandMember,
) -> Result<TextList, DocumentRead>
    ensures { Gives told (λ ts. ts) result (spec.read_at spec.providers_in (member_name member) object.now) }
{
    match object.get(member.name()) {
        Some(Node::Items(list)) => read_providers(alloc, list, member),
        _ => Err(DocumentRead::Member(member)),
    }
}
