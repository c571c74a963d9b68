// The calls of `jws_flat` and `ipx_node`. Keys, inputs and signatures are hexadecimal digits. The signer and
// the verifier are `Hs256` with the text `root`, and fail at the calls whose numbers are listed in `fails`.
ghost use Rattle.std.specs.Prelude.{◌≤◌, IsTrue};
ghost use Rattle.spec_documents.specs.Tree.{depth as nesting};

use ipx_node::{IpxConfig, PassFault, pass_on};
use jws_flat::{
    Entry, EntryMember, FlatJws, Hs256, JwsRead, SignFault, VerifyFault, hmac_sha256, read_entry,
    read_jws, sign_entry, signing_input, verify_entry,
};
use n32_outside::{CallList, FailAt, JwsAlg, Signer, Verifier};
use n32_values::{Bytes, Doc, Node, NodeList, NodeMap, Text, depth};
use std::alloc::Global;
use worked_rows::{
    Args, Given, digits_node, fault_node, map_node, number_of, put_part, text_node, words_of,
};

fn mac(alloc: Global, key: Vec<u8>, input: &[u8]) -> Option<Node> {
    digits_node(alloc, &hmac_sha256(&key, input))
}

/// The HMAC of `bytes` under `key`.
pub fn hmac_sha256_call(alloc: Global, args: Args<'_>, given: &Given) -> Option<Node> {
    let input = given.bytes.as_ref()?.as_slice();
    match hex::decode(alloc, args.text("key")?) {
        Ok(key) => mac(alloc, key, input),
        Err(_) => None,
    }
}

fn alg_word(alg: JwsAlg) -> &'static str {
    match alg {
        JwsAlg::Hs256 => "HS256",
        JwsAlg::Es256 => "ES256",
    }
}

fn alg_of(word: &str) -> Option<JwsAlg> {
    match word {
        "HS256" => Some(JwsAlg::Hs256),
        "ES256" => Some(JwsAlg::Es256),
        _ => None,
    }
}

fn numbers_of(alloc: Global, list: &NodeList) -> Option<CallList> {
    let mut calls = CallList::new(alloc);
    for i in 0..list.len() {
        calls.push(u64::from(number_of(list.item(i))?)).ok()?;
    }
    Some(calls)
}

fn fails_in(alloc: Global, args: Args<'_>) -> Option<CallList> {
    match args.list("fails") {
        Some(list) => numbers_of(alloc, list),
        None => Some(CallList::new(alloc)),
    }
}

/// The signer and verifier of a row.
pub fn hs256_in(alloc: Global, args: Args<'_>) -> Option<FailAt<Hs256>> {
    let root = args.text("root")?.as_bytes();
    match (Hs256::new(alloc, root), fails_in(alloc, args)) {
        (Ok(inner), Some(fails)) => Some(FailAt::new(inner, fails)),
        _ => None,
    }
}

fn signature(
    alloc: Global,
    mut signer: FailAt<Hs256>,
    identity: &Text,
    input: &[u8],
) -> Option<Node> {
    match signer.sign(alloc, identity, input) {
        Ok(signature) => digits_node(alloc, signature.as_slice()),
        Err(_) => fault_node(alloc, "SIGNER"),
    }
}

/// The signature for `ipx` of `bytes`.
pub fn hs256_sign_call(alloc: Global, args: Args<'_>, given: &Given) -> Option<Node> {
    let identity = given.ipx.as_ref()?;
    let input = given.bytes.as_ref()?.as_slice();
    match hs256_in(alloc, args) {
        Some(signer) => signature(alloc, signer, identity, input),
        None => None,
    }
}

fn truth(
    alloc: Global,
    mut verifier: FailAt<Hs256>,
    alg: JwsAlg,
    identity: &Text,
    input: &[u8],
    signature: &[u8],
) -> Option<Node> {
    match verifier.verify(alloc, alg, identity, input, signature) {
        Ok(truth) => Some(Node::Truth(truth)),
        Err(_) => fault_node(alloc, "VERIFIER"),
    }
}

/// Whether `data` is the signature by `alg` for `ipx` of `bytes`.
pub fn hs256_verify_call(alloc: Global, args: Args<'_>, given: &Given) -> Option<Node> {
    let alg = alg_of(args.text("alg")?)?;
    let identity = given.ipx.as_ref()?;
    let input = given.bytes.as_ref()?.as_slice();
    let signature = given.data.as_ref()?.as_slice();
    match hs256_in(alloc, args) {
        Some(verifier) => truth(alloc, verifier, alg, identity, input, signature),
        None => None,
    }
}

fn text_of(alloc: Global, args: Args<'_>, name: &str) -> Option<Text> {
    match args.text(name) {
        Some(text) => Text::from_text(alloc, text).ok(),
        None => None,
    }
}

fn input_of(alloc: Global, protected: Option<Text>, payload: Option<Text>) -> Option<Bytes> {
    match (&protected, &payload) {
        (Some(protected), Some(payload)) => signing_input(alloc, protected, payload).ok(),
        _ => None,
    }
}

/// What is signed of the texts `protected` and `payload`.
pub fn signing_input_call(alloc: Global, args: Args<'_>) -> Option<Node> {
    let protected = text_of(alloc, args, "protected");
    match input_of(alloc, protected, text_of(alloc, args, "payload")) {
        Some(input) => words_of(alloc, input),
        None => None,
    }
}

fn refused(alloc: Global, fault: JwsRead) -> Option<Node> {
    match fault {
        JwsRead::Form(member) => fault_node(alloc, member.name()),
        JwsRead::NoMemory => None,
    }
}

fn put_jws(alloc: Global, map: &mut NodeMap, jws: &FlatJws) -> Option<()> {
    let protected = jws.protected.as_str();
    put_part(alloc, map, "protected", text_node(alloc, protected))?;
    let payload = jws.payload.as_str();
    put_part(alloc, map, "payload", text_node(alloc, payload))?;
    put_part(alloc, map, "alg", text_node(alloc, alg_word(jws.alg)))?;
    let signature = digits_node(alloc, jws.signature.as_slice());
    put_part(alloc, map, "signature", signature)
}

fn jws_node(alloc: Global, jws: FlatJws) -> Option<Node> {
    let mut map = NodeMap::new(alloc);
    let done = put_jws(alloc, &mut map, &jws);
    map_node(map, done)
}

/// The texts, the algorithm and the signature of `entry`, or the first bad member.
pub fn read_jws_call(alloc: Global, args: Args<'_>) -> Option<Node> {
    match read_jws(alloc, args.document("entry")?) {
        Ok(jws) => jws_node(alloc, jws),
        Err(fault) => refused(alloc, fault),
    }
}

fn put_operations(alloc: Global, map: &mut NodeMap, operations: Option<Doc>) -> Option<()> {
    match operations {
        Some(doc) => put_part(alloc, map, "operations", Some(doc.into_node())),
        None => Some(()),
    }
}

fn put_entry(alloc: Global, map: &mut NodeMap, entry: Entry) -> Option<()> {
    let done = put_operations(alloc, map, entry.operations);
    put_part(alloc, map, "tag", Some(Node::Words(entry.tag)))?;
    put_part(alloc, map, "identity", Some(Node::Words(entry.identity)))?;
    done
}

fn entry_node(alloc: Global, entry: Entry) -> Option<Node> {
    let mut map = NodeMap::new(alloc);
    let done = put_entry(alloc, &mut map, entry);
    map_node(map, done)
}

fn entry_of(alloc: Global, jws: FlatJws) -> Option<Node> {
    match read_entry(alloc, &jws) {
        Ok(entry) => entry_node(alloc, entry),
        Err(fault) => refused(alloc, fault),
    }
}

/// The identity, the tag and the operations, where there are any, of `entry`, or the first bad member.
pub fn read_entry_call(alloc: Global, args: Args<'_>) -> Option<Node> {
    match read_jws(alloc, args.document("entry")?) {
        Ok(jws) => entry_of(alloc, jws),
        Err(fault) => refused(alloc, fault),
    }
}

fn made(alloc: Global, payload: Option<Text>) -> Option<FlatJws> {
    match (payload, Text::from_text(alloc, "")) {
        (Some(payload), Ok(protected)) => Some(FlatJws {
            protected,
            payload,
            alg: JwsAlg::Hs256,
            signature: Bytes::from_vec(Vec::new(alloc)),
        }),
        _ => None,
    }
}

/// The same of a JWS that is made with the text `payload`, of which no document may be.
pub fn read_payload_call(alloc: Global, args: Args<'_>) -> Option<Node> {
    match made(alloc, text_of(alloc, args, "payload")) {
        Some(jws) => entry_of(alloc, jws),
        None => None,
    }
}

// Whether the payload of an entry with these operations can be read again.
fn may_be_signed(operations: &Doc) -> bool
    ensures { IsTrue result → nesting operations.now ≤ 126 }
{
    depth(operations.node()) <= 126
}

fn signed(
    alloc: Global,
    mut signer: FailAt<Hs256>,
    identity: &Text,
    operations: &Doc,
    tag: &Text,
) -> Option<Node> {
    if !may_be_signed(operations) {
        return None;
    }
    match sign_entry(alloc, &mut signer, identity, operations, tag) {
        Ok(entry) => Some(entry),
        Err(SignFault::Signer) => fault_node(alloc, "SIGNER"),
        Err(SignFault::NoMemory) => None,
    }
}

/// The entry of `ipx` with `operations` for the tag `text`.
pub fn sign_entry_call(alloc: Global, args: Args<'_>, given: &Given) -> Option<Node> {
    let identity = given.ipx.as_ref()?;
    let operations = given.written.as_ref()?;
    let tag = given.text.as_ref()?;
    match hs256_in(alloc, args) {
        Some(signer) => signed(alloc, signer, identity, operations, tag),
        None => None,
    }
}

fn verified(
    alloc: Global,
    mut verifier: FailAt<Hs256>,
    jws: &FlatJws,
    identity: &Text,
) -> Option<Node> {
    match verify_entry(alloc, &mut verifier, jws, identity) {
        Ok(()) => Some(Node::Truth(true)),
        Err(VerifyFault::Signature) => fault_node(alloc, "SIGNATURE"),
        Err(VerifyFault::Verifier) => fault_node(alloc, "VERIFIER"),
        Err(VerifyFault::NoMemory) => None,
    }
}

fn verified_by(alloc: Global, args: Args<'_>, jws: FlatJws, identity: &Text) -> Option<Node> {
    match hs256_in(alloc, args) {
        Some(verifier) => verified(alloc, verifier, &jws, identity),
        None => None,
    }
}

/// Whether `entry` is signed by `ipx`.
pub fn verify_entry_call(alloc: Global, args: Args<'_>, given: &Given) -> Option<Node> {
    let identity = given.ipx.as_ref()?;
    match read_jws(alloc, args.document("entry")?) {
        Ok(jws) => verified_by(alloc, args, jws, identity),
        Err(fault) => refused(alloc, fault),
    }
}

fn passed(alloc: Global, mut signer: FailAt<Hs256>, doc: &Doc, config: &IpxConfig) -> Option<Node> {
    if !may_be_signed(&config.operations) {
        return None;
    }
    match pass_on(alloc, doc, config, &mut signer) {
        Ok(doc) => Some(doc.into_node()),
        Err(PassFault::Form(part)) => fault_node(alloc, part.name()),
        Err(PassFault::Signer) => fault_node(alloc, "SIGNER"),
        Err(PassFault::NoMemory) => None,
    }
}

fn config_in(alloc: Global, given: &Given) -> Option<IpxConfig> {
    let identity = given.ipx.as_ref()?;
    let operations = given.written.as_ref()?;
    match (identity.copy(alloc), operations.copy(alloc)) {
        (Ok(identity), Ok(operations)) => Some(IpxConfig {
            identity,
            operations,
        }),
        _ => None,
    }
}

fn passed_by(alloc: Global, args: Args<'_>, doc: &Doc, config: IpxConfig) -> Option<Node> {
    match hs256_in(alloc, args) {
        Some(signer) => passed(alloc, signer, doc, &config),
        None => None,
    }
}

/// What `ipx` with `operations` makes of the document `wire`, or the first bad part.
pub fn pass_on_call(alloc: Global, args: Args<'_>, given: &Given) -> Option<Node> {
    let doc = given.wire.as_ref()?;
    match config_in(alloc, given) {
        Some(config) => passed_by(alloc, args, doc, config),
        None => None,
    }
}
