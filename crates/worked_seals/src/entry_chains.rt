// The call of `entry_checks`. The route is of `ipx`, which a document authorizes, and of the lists `peer` and
// `own`; the verifier is that of the calls of `jws_flat`.
use crate::entries::hs256_in;
use block_forms::{Block, read_block};
use entry_checks::{EntriesFault, EntryTerms, RefusedEntry, apply_entries, route_for};
use jws_flat::Hs256;
use n32_outside::FailAt;
use n32_values::{Node, NodeList, NodeMap, TextList, Whole};
use std::alloc::Global;
use worked_rows::{Args, Given, map_node, put_part, text_node};

/// The intermediaries of a context.
#[derive(Drop)]
struct Ways {
    peer: Option<TextList>,
    own: Option<TextList>,
}

fn add_text(alloc: Global, texts: &mut TextList, node: &Node) -> Option<()> {
    match node {
        Node::Words(text) => match text.copy(alloc) {
            Ok(copy) => texts.push(copy).ok(),
            Err(_) => None,
        },
        _ => None,
    }
}

fn texts_in(alloc: Global, list: &NodeList) -> Option<TextList> {
    let mut texts = TextList::new(alloc);
    for i in 0..list.len() {
        add_text(alloc, &mut texts, list.item(i))?;
    }
    Some(texts)
}

fn texts_at(alloc: Global, args: Args<'_>, name: &str) -> Option<TextList> {
    match args.list(name) {
        Some(list) => texts_in(alloc, list),
        None => None,
    }
}

fn terms_in<'a>(args: Args<'_>, given: &'a Given, ways: &'a Ways) -> Option<EntryTerms<'a>> {
    let authorized = given.ipx.as_ref()?;
    let peer = ways.peer.as_ref()?;
    let own = ways.own.as_ref()?;
    Some(EntryTerms {
        policy: given.policy.as_ref()?,
        mapping: args.mapping()?,
        tag: given.text.as_ref()?,
        route: route_for(authorized, peer, own),
    })
}

fn put_detail(alloc: Global, map: &mut NodeMap, refused: &RefusedEntry) -> Option<()> {
    match refused.detail(alloc) {
        Ok(Some(text)) => put_part(alloc, map, "detail", Some(Node::Words(text))),
        Ok(None) => Some(()),
        Err(_) => None,
    }
}

// The refusal, as `{"detail":"1 tag","name":"MOD_FORM","number":28}`.
fn refused_node(alloc: Global, refused: &RefusedEntry) -> Option<Node> {
    let mut map = NodeMap::new(alloc);
    let number = Node::Whole(Whole::from_u64(refused.number()));
    let name = text_node(alloc, refused.name());
    let done = (
        put_part(alloc, &mut map, "number", Some(number)),
        put_part(alloc, &mut map, "name", name),
        put_detail(alloc, &mut map, refused),
    );
    match done {
        (Some(()), Some(()), Some(())) => map_node(map, Some(())),
        _ => None,
    }
}

fn applied(
    alloc: Global,
    mut verifier: FailAt<Hs256>,
    terms: &EntryTerms<'_>,
    block: Block,
    entries: &NodeList,
) -> Option<Node> {
    match apply_entries(alloc, &mut verifier, terms, block, entries) {
        Ok(block) => Some(block.into_doc().into_node()),
        Err(EntriesFault::Refused(refused)) => refused_node(alloc, &refused),
        Err(EntriesFault::NoMemory) => None,
    }
}

fn with_terms(
    alloc: Global,
    args: Args<'_>,
    given: &Given,
    terms: &EntryTerms<'_>,
) -> Option<Node> {
    let start = given.block.as_ref()?;
    let entries = args.list("entries")?;
    let count = args.number("count")?;
    match (read_block(alloc, start, count), hs256_in(alloc, args)) {
        (Ok(block), Some(verifier)) => applied(alloc, verifier, terms, block, entries),
        _ => None,
    }
}

/// The block that `entries` make of `block` with `count` holes, for the tag `text`, or the refusal of the first
/// entry that is refused.
pub fn apply_entries_call(alloc: Global, args: Args<'_>, given: &Given) -> Option<Node> {
    let ways = Ways {
        peer: texts_at(alloc, args, "peer"),
        own: texts_at(alloc, args, "own"),
    };
    match terms_in(args, given, &ways) {
        Some(terms) => with_terms(alloc, args, given, &terms),
        None => None,
    }
}
