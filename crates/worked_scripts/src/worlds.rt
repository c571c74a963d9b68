// Worlds that were made by hand.
ghost use Rattle.std.specs.Prelude.{◌≡◌, [], ◌∷◌, length, IfSome};
ghost use Rattle.spec_documents.specs.Compact.{compact_text};
ghost use Rattle.context_store.specs.Stores.{IsConsistent};
ghost use Rattle.replay_world.specs.Worlds.{IsReady, IsSound, AreDistinct, IsShallow, sites_view};

use crate::runs::keeper_of;
use context_store::{Store, new_store, open_store};
use http_message::Message;
use jws_flat::Hs256;
use message_screens::{OriginRule, Screen};
use n32_outside::Keeper;
use n32_values::{Doc, DocList, NoMemory, PlmnId, Text, depth, read_doc, read_plmn, text_length};
use n32c_handshake::Hands;
use replay_world::{Site, SiteList, World, new_world, step};
use std::alloc::Global;

// The records of a run up to the first request that A sent: A's context and B's, their keys, the request.
const A_OPENED: &str =
    "{\"id\":\"00000000000000a1\",\"is\":\"opened\",\"node\":\"A\",\"own_ipx\":[\"ipx-a\"],\"peer\":\"00000000000000b1\",\"peer_ipx\":[\"ipx-b\"],\"peer_node\":\"B\",\"plmn\":\"00102\",\"policy\":{\"apiIeMappingList\":[]},\"suite\":\"A128GCM\"}";

const B_OPENED: &str =
    "{\"id\":\"00000000000000b1\",\"is\":\"opened\",\"node\":\"B\",\"own_ipx\":[\"ipx-b\"],\"peer\":\"00000000000000a1\",\"peer_ipx\":[\"ipx-a\"],\"peer_node\":\"A\",\"plmn\":\"00101\",\"policy\":{\"apiIeMappingList\":[{\"IeList\":[{\"ieLoc\":\"URI_PARAM\",\"ieType\":\"UEID\",\"reqIe\":\"supi\"}],\"apiMethod\":\"GET\",\"apiSignature\":\"/nudm-sdm/v2/{supi}/nssai\"},{\"IeList\":[{\"ieLoc\":\"BODY\",\"ieType\":\"UEID\",\"reqIe\":\"/supiOrSuci\"}],\"apiMethod\":\"POST\",\"apiSignature\":\"/nausf-auth/v1/ue-authentications\"}],\"dataTypeEncPolicy\":[\"UEID\"]},\"suite\":\"A128GCM\"}";

const A_KEYED: &str =
    "{\"first\":0,\"id\":\"00000000000000a1\",\"is\":\"keyed\",\"node\":\"A\",\"receive\":{\"request\":{\"key\":\"202122232425262728292a2b2c2d2e2f\",\"salt\":\"2021222324252627\"},\"response\":{\"key\":\"303132333435363738393a3b3c3d3e3f\",\"salt\":\"3031323334353637\"}},\"send\":{\"request\":{\"key\":\"000102030405060708090a0b0c0d0e0f\",\"salt\":\"0001020304050607\"},\"response\":{\"key\":\"101112131415161718191a1b1c1d1e1f\",\"salt\":\"1011121314151617\"}}}";

const B_KEYED: &str =
    "{\"first\":0,\"id\":\"00000000000000b1\",\"is\":\"keyed\",\"node\":\"B\",\"receive\":{\"request\":{\"key\":\"000102030405060708090a0b0c0d0e0f\",\"salt\":\"0001020304050607\"},\"response\":{\"key\":\"101112131415161718191a1b1c1d1e1f\",\"salt\":\"1011121314151617\"}},\"send\":{\"request\":{\"key\":\"202122232425262728292a2b2c2d2e2f\",\"salt\":\"2021222324252627\"},\"response\":{\"key\":\"303132333435363738393a3b3c3d3e3f\",\"salt\":\"3031323334353637\"}}}";

const A_SENT: &str =
    "{\"id\":\"00000000000000a1\",\"is\":\"sent\",\"kind\":\"request\",\"mapping\":0,\"message\":\"0000000000000000\",\"node\":\"A\",\"seq\":0}";

// What was sent, computed with OpenSSL.
const DOCUMENT: &str =
    "{\"reformattedData\":{\"aad\":\"eyJoZWFkZXJzIjpbeyJoZWFkZXIiOiJhY2NlcHQiLCJ2YWx1ZSI6ImFwcGxpY2F0aW9uL2pzb24ifV0sIm1ldGFEYXRhIjp7ImF1dGhvcml6ZWRJcHhJZCI6ImlweC1hIiwibWVzc2FnZUlkIjoiMDAwMDAwMDAwMDAwMDAwMCIsIm4zMmZDb250ZXh0SWQiOiIwMDAwMDAwMDAwMDAwMGIxIn0sInJlcXVlc3RMaW5lIjp7ImF1dGhvcml0eSI6InVkbS5leGFtcGxlIiwibWV0aG9kIjoiR0VUIiwicGF0aCI6Ii9udWRtLXNkbS92Mi97ZW5jQmxvY2tJbmRleD0wfS9uc3NhaSIsInByb3RvY29sVmVyc2lvbiI6IkhUVFAvMiIsInNjaGVtZSI6Imh0dHBzIn19\",\"ciphertext\":\"Zzb2AvTVkvAtcM02dImHwnWkMh3TvbW4wDADdqoUwfX91dWf1iwKaoPu\",\"iv\":\"AAECAwQFBgcAAAAA\",\"protected\":\"eyJhbGciOiJkaXIiLCJlbmMiOiJBMTI4R0NNIn0\",\"tag\":\"mMlzCwqYoZT3QiMcA6oY2g\"}}";

const DELIVER: &str = "{\"do\":\"deliver\",\"node\":\"B\",\"wire\":1}";

const DELIVERED: &str =
    "{\"delivered\":{\"headers\":[{\"header\":\"accept\",\"value\":\"application/json\"}],\"requestLine\":{\"authority\":\"udm.example\",\"method\":\"GET\",\"path\":\"/nudm-sdm/v2/imsi-001010000000001/nssai\",\"protocolVersion\":\"HTTP/2\",\"scheme\":\"https\"}},\"line\":8,\"message\":\"0000000000000000\"}";

fn demo_keys(alloc: Global) -> Result<Hs256, NoMemory> {
    Hs256::new(alloc, b"n32-demo")
}

// Whether a line is answered so.
fn answers<K: Keeper>(
    alloc: Global,
    world: &mut World,
    keeper: &mut K,
    number: u64,
    line: &str,
    wanted: &str,
) -> bool
    requires { IsReady (K.held keeper.old) world.old }
    ensures { IsReady (K.held keeper.new) world.new }
{
    let screen = Screen::new(
        |message: &Message, plmn: &PlmnId| OriginRule::passes(message, plmn),
        OriginRule,
    );
    match (demo_keys(alloc), demo_keys(alloc)) {
        (Ok(mut signer), Ok(mut verifier)) => {
            match step(
                alloc,
                world,
                number,
                line.as_bytes(),
                keeper,
                &mut signer,
                &mut verifier,
                &screen,
            ) {
                Ok(text) => text.as_slice() == wanted.as_bytes(),
                Err(_) => false,
            }
        }
        _ => false,
    }
}

// A node of this name and network.
fn site(alloc: Global, node: &str, plmn: &str) -> Option<Site>
    ensures { IfSome result (λ s. s.node ≡ node.now) }
{
    match (Text::from_text(alloc, node), read_plmn(alloc, plmn)) {
        (Ok(node), Ok(Some(plmn))) => Some(Site { node, plmn }),
        _ => None,
    }
}

// The nodes A and B.
fn sites(alloc: Global) -> Option<SiteList>
    ensures { IfSome result (λ s. AreDistinct (sites_view s)) }
{
    let mut sites = SiteList::new(alloc);
    let Ok(()) = sites.push(site(alloc, "A", "00101")?) else {
        return None;
    };
    let Ok(()) = sites.push(site(alloc, "B", "00102")?) else {
        return None;
    };
    Some(sites)
}

fn document(alloc: Global) -> Option<Doc>
    ensures { IfSome result (λ d. IsShallow d) }
{
    match read_doc(alloc, DOCUMENT.as_bytes()) {
        Ok(document) => if depth(document.node()) > 126 {
            None
        } else {
            Some(document)
        },
        Err(_) => None,
    }
}

// The document alone.
fn wire(alloc: Global, document: Doc) -> Option<DocList>
    ensures { IfSome result (λ w. w ≡ document ∷ []) }
{
    let mut wire = DocList::new(alloc);
    match wire.push(document) {
        Ok(()) => Some(wire),
        Err(_) => None,
    }
}

// How many bytes the document has, where this has a number.
fn bytes_of(document: &Doc) -> Option<u64>
    ensures { IfSome result (λ n. n ≡ length (compact_text document.now)) }
{
    let bytes = text_length(document.node());
    if bytes == u64::MAX { None } else { Some(bytes) }
}

// A world of the nodes A and B with the document on its wire.
fn world(alloc: Global, store: Store) -> Option<World>
    ensures sound { IfSome result (λ w. IsSound w) }
    ensures store { IfSome result (λ w. w.store ≡ store) }
{
    let document = document(alloc)?;
    let wire_bytes = bytes_of(&document)?;
    Some(World {
        sites: sites(alloc)?,
        wire: wire(alloc, document)?,
        wire_bytes,
        store,
        hands: Hands::new(alloc),
    })
}

// Whether a delivery to B is answered so.
fn delivers<K: Keeper>(alloc: Global, keeper: &mut K, store: Store, wanted: &str) -> bool
    requires { IsConsistent (K.held keeper.old) store }
{
    match world(alloc, store) {
        Some(world) => {
            let mut world = world;
            answers(alloc, &mut world, keeper, 8, DELIVER, wanted)
        }
        None => false,
    }
}

fn delivers_over<K: Keeper>(alloc: Global, keeper: &mut K, wanted: &str) -> bool {
    match open_store(alloc, keeper) {
        Ok(store) => delivers(alloc, keeper, store, wanted),
        Err(_) => false,
    }
}

#[test]
fn a_world_made_by_hand_gives_the_same_answer(rt: HostRuntime) {
    let texts = [A_OPENED, B_OPENED, A_KEYED, B_KEYED, A_SENT];
    let mut keeper = keeper_of(rt.alloc(), &texts, &[]);
    assert!(rt; delivers_over(rt.alloc(), &mut keeper, DELIVERED));
}

#[test]
fn a_stale_store_is_read_first(rt: HostRuntime) {
    let mut keeper = keeper_of(rt.alloc(), &[A_OPENED, B_OPENED, A_KEYED, "{}"], &[]);
    assert!(rt;
        delivers(
            rt.alloc(),
            &mut keeper,
            new_store(rt.alloc()),
            "{\"detail\":\"3\",\"line\":8,\"name\":\"JOURNAL\",\"refused\":9}",
        )
    );
}

#[test]
fn an_empty_line_is_no_event(rt: HostRuntime) {
    assert!(rt;
        answers(
            rt.alloc(),
            &mut new_world(rt.alloc()),
            &mut keeper_of(rt.alloc(), &[], &[]),
            14,
            "",
            "{\"line\":14,\"name\":\"SYNTAX\",\"refused\":1}",
        )
    );
}
