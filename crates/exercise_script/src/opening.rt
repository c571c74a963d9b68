//! The documents of the opening lines: nodes, contexts with their policy, and keys.

ghost use Rattle.std.specs.Prelude.{◌≡◌, [], ◌∷◌, IfOk, codes};
ghost use Rattle.spec_documents.specs.Tree.{object, words};
ghost use Rattle.n32_values.specs.View.{tree_of};
ghost use Rattle.spec_exercise.specs.Script.{Sender, Receiver};
ghost use Rattle.spec_exercise.specs.Documents as spec;
ghost use Rattle.exercise_script.specs.View.{sepp_view};

use crate::line::Sepp;
use crate::values::{list_of_one, list_of_text};
use doc_forms::{put, put_text};
use n32_values::{NoMemory, Node, NodeList, NodeMap, Text};
use std::alloc::Global;

/// The document that adds a node.
pub(crate) fn node_node(alloc: Global, sepp: Sepp) -> Result<Node, NoMemory>
    ensures { IfOk result (λ n. tree_of n ≡ spec.node_tree (sepp_view sepp)) }
{
    let mut map = NodeMap::new(alloc);
    put_text(alloc, &mut map, "plmn", sepp.plmn())?;
    put_text(alloc, &mut map, "node", sepp.name())?;
    put_text(alloc, &mut map, "do", "node")?;
    Ok(Node::Members(map))
}

// An element without a right to change it.
fn element(alloc: Global, location: &str, of_type: &str, place: &str) -> Result<NodeMap, NoMemory>
    ensures { IfOk result (λ m. m ≡ object ((codes "ieLoc", words location.now) ∷ (codes "ieType", words of_type.now) ∷ (codes "reqIe", words place.now) ∷ [])) }
{
    let mut map = NodeMap::new(alloc);
    put_text(alloc, &mut map, "reqIe", place)?;
    put_text(alloc, &mut map, "ieType", of_type)?;
    put_text(alloc, &mut map, "ieLoc", location)?;
    Ok(map)
}

// The right of the sender's intermediary.
fn grant(alloc: Global) -> Result<Node, NoMemory>
    ensures { IfOk result (λ n. tree_of n ≡ spec.grant.1) }
{
    let mut map = NodeMap::new(alloc);
    put(alloc, &mut map, Sepp::Sender.ipx(), Node::Truth(true))?;
    Ok(Node::Members(map))
}

// The element that the sender's intermediary may change.
fn element_granted(alloc: Global) -> Result<Node, NoMemory>
    ensures { IfOk result (λ n. tree_of n ≡ spec.element (codes "BODY") (codes "NONSENSITIVE") (codes "/t") (spec.grant ∷ [])) }
{
    let mut map = element(alloc, "BODY", "NONSENSITIVE", "/t")?;
    put(alloc, &mut map, "isModifiableByIpx", grant(alloc)?)?;
    Ok(Node::Members(map))
}

fn elements(alloc: Global) -> Result<Node, NoMemory>
    ensures { IfOk result (λ n. tree_of n ≡ spec.elements) }
{
    let mut list = NodeList::new(alloc);
    list.push(Node::Members(element(alloc, "URI_PARAM", "UEID", "supi")?))?;
    list.push(Node::Members(element(alloc, "BODY", "KEY_MATERIAL", "/s")?))?;
    list.push(element_granted(alloc)?)?;
    Ok(Node::Items(list))
}

fn mapping(alloc: Global) -> Result<Node, NoMemory>
    ensures { IfOk result (λ n. tree_of n ≡ spec.mapping) }
{
    let mut map = NodeMap::new(alloc);
    put_text(alloc, &mut map, "apiSignature", "/n/v1/u/{supi}")?;
    put_text(alloc, &mut map, "apiMethod", "POST")?;
    put(alloc, &mut map, "IeList", elements(alloc)?)?;
    Ok(Node::Members(map))
}

// The types that are encrypted.
fn secret_types(alloc: Global) -> Result<Node, NoMemory>
    ensures { IfOk result (λ n. tree_of n ≡ spec.list_of (words (codes "UEID") ∷ words (codes "KEY_MATERIAL") ∷ [])) }
{
    let mut list = NodeList::new(alloc);
    list.push(Node::Words(Text::from_text(alloc, "UEID")?))?;
    list.push(Node::Words(Text::from_text(alloc, "KEY_MATERIAL")?))?;
    Ok(Node::Items(list))
}

fn policy(alloc: Global) -> Result<Node, NoMemory>
    ensures { IfOk result (λ n. tree_of n ≡ spec.policy) }
{
    let mut map = NodeMap::new(alloc);
    put(alloc, &mut map, "dataTypeEncPolicy", secret_types(alloc)?)?;
    let mappings = list_of_one(alloc, mapping(alloc)?)?;
    put(alloc, &mut map, "apiIeMappingList", mappings)?;
    Ok(Node::Members(map))
}

/// The document that opens a SEPP's context.
pub(crate) fn context_node(alloc: Global, sepp: Sepp) -> Result<Node, NoMemory>
    ensures { IfOk result (λ n. tree_of n ≡ spec.context_tree (sepp_view sepp)) }
{
    let peer = sepp.peer();
    let mut map = NodeMap::new(alloc);
    put_text(alloc, &mut map, "suite", "A128GCM")?;
    put(alloc, &mut map, "policy", policy(alloc)?)?;
    put_text(alloc, &mut map, "plmn", peer.plmn())?;
    put_text(alloc, &mut map, "peer_node", peer.name())?;
    put(
        alloc,
        &mut map,
        "peer_ipx",
        list_of_text(alloc, peer.ipx())?,
    )?;
    put_text(alloc, &mut map, "peer", peer.context())?;
    put(alloc, &mut map, "own_ipx", list_of_text(alloc, sepp.ipx())?)?;
    put_text(alloc, &mut map, "node", sepp.name())?;
    put_text(alloc, &mut map, "id", sepp.context())?;
    put_text(alloc, &mut map, "do", "context")?;
    Ok(Node::Members(map))
}

fn key(alloc: Global, key: &str, salt: &str) -> Result<Node, NoMemory>
    ensures { IfOk result (λ n. tree_of n ≡ spec.key_tree key.now salt.now) }
{
    let mut map = NodeMap::new(alloc);
    put_text(alloc, &mut map, "salt", salt)?;
    put_text(alloc, &mut map, "key", key)?;
    Ok(Node::Members(map))
}

// The keys for requests and for responses.
fn key_pair(alloc: Global, request: Node, response: Node) -> Result<Node, NoMemory>
    ensures { IfOk result (λ n. tree_of n ≡ spec.record_of ((codes "request", tree_of request) ∷ (codes "response", tree_of response) ∷ [])) }
{
    let mut map = NodeMap::new(alloc);
    put(alloc, &mut map, "response", response)?;
    put(alloc, &mut map, "request", request)?;
    Ok(Node::Members(map))
}

// The keys that the sender seals with.
fn sender_keys(alloc: Global) -> Result<Node, NoMemory>
    ensures { IfOk result (λ n. tree_of n ≡ spec.sealing_keys Sender) }
{
    let request = key(
        alloc,
        "000102030405060708090a0b0c0d0e0f",
        "0001020304050607",
    )?;
    let response = key(
        alloc,
        "101112131415161718191a1b1c1d1e1f",
        "1011121314151617",
    )?;
    key_pair(alloc, request, response)
}

// The keys that the receiver seals with.
fn receiver_keys(alloc: Global) -> Result<Node, NoMemory>
    ensures { IfOk result (λ n. tree_of n ≡ spec.sealing_keys Receiver) }
{
    let request = key(
        alloc,
        "202122232425262728292a2b2c2d2e2f",
        "2021222324252627",
    )?;
    let response = key(
        alloc,
        "303132333435363738393a3b3c3d3e3f",
        "3031323334353637",
    )?;
    key_pair(alloc, request, response)
}

// The keys that a SEPP seals with.
fn sealing_keys(alloc: Global, sepp: Sepp) -> Result<Node, NoMemory>
    ensures { IfOk result (λ n. tree_of n ≡ spec.sealing_keys (sepp_view sepp)) }
{
    match sepp {
        Sepp::Sender => sender_keys(alloc),
        Sepp::Receiver => receiver_keys(alloc),
    }
}

/// The document that hands keys to a SEPP's context.
pub(crate) fn keys_node(alloc: Global, sepp: Sepp) -> Result<Node, NoMemory>
    ensures { IfOk result (λ n. tree_of n ≡ spec.keys_tree (sepp_view sepp)) }
{
    let mut map = NodeMap::new(alloc);
    put(alloc, &mut map, "send", sealing_keys(alloc, sepp)?)?;
    put(
        alloc,
        &mut map,
        "receive",
        sealing_keys(alloc, sepp.peer())?,
    )?;
    put_text(alloc, &mut map, "node", sepp.name())?;
    put_text(alloc, &mut map, "id", sepp.context())?;
    put_text(alloc, &mut map, "do", "keys")?;
    Ok(Node::Members(map))
}
