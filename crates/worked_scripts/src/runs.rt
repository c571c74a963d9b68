// Runs over objects in memory whose calls fail, over records that were held before, and over a file.
use http_message::Message;
use jws_flat::Hs256;
use message_screens::{OriginRule, Screen};
use n32_outside::{
    CallList, FailAt, FailItem, FailList, FileKeeper, Keeper, MemKeeper, MemSink, MemSource,
};
use n32_values::{Bytes, PlmnId, Text, TextList};
use replay_runs::{Status, run};
use std::alloc::Global;
use std::fs;

// Two nodes, and a context at each: lines 1 to 4.
const OPENING: &str =
    "{\"do\":\"node\",\"node\":\"A\",\"plmn\":\"00101\"}\n{\"do\":\"node\",\"node\":\"B\",\"plmn\":\"00102\"}\n{\"do\":\"context\",\"node\":\"A\",\"id\":\"00000000000000a1\",\"peer_node\":\"B\",\"peer\":\"00000000000000b1\",\"plmn\":\"00102\",\"suite\":\"A128GCM\",\"policy\":{\"apiIeMappingList\":[{\"apiSignature\":\"/nudm-sdm/v2/{supi}/nssai\",\"apiMethod\":\"GET\",\"IeList\":[{\"ieLoc\":\"URI_PARAM\",\"ieType\":\"UEID\",\"reqIe\":\"supi\"}]},{\"apiSignature\":\"/nausf-auth/v1/ue-authentications\",\"apiMethod\":\"POST\",\"IeList\":[{\"ieLoc\":\"BODY\",\"ieType\":\"UEID\",\"reqIe\":\"/supiOrSuci\"},{\"ieLoc\":\"BODY\",\"ieType\":\"AUTHENTICATION_MATERIAL\",\"reqIe\":\"/resynchronizationInfo/rand\"},{\"ieLoc\":\"BODY\",\"ieType\":\"AUTHENTICATION_MATERIAL\",\"reqIe\":\"/resynchronizationInfo/auts\"},{\"ieLoc\":\"BODY\",\"ieType\":\"KEY_MATERIAL\",\"rspIe\":\"/kseaf\"},{\"ieLoc\":\"BODY\",\"ieType\":\"NONSENSITIVE\",\"reqIe\":\"/servingNetworkName\",\"isModifiableByIpx\":{\"ipx-a\":true}},{\"ieLoc\":\"BODY\",\"ieType\":\"NONSENSITIVE\",\"reqIe\":\"/list\",\"isModifiable\":true},{\"ieLoc\":\"HEADER\",\"ieType\":\"NONSENSITIVE\",\"reqIe\":\"x-trace\",\"isModifiableByIpx\":{\"ipx-b\":true}}]}],\"dataTypeEncPolicy\":[\"UEID\",\"AUTHENTICATION_MATERIAL\",\"KEY_MATERIAL\"]},\"own_ipx\":[\"ipx-a\"],\"peer_ipx\":[\"ipx-b\"]}\n{\"do\":\"context\",\"node\":\"B\",\"id\":\"00000000000000b1\",\"peer_node\":\"A\",\"peer\":\"00000000000000a1\",\"plmn\":\"00101\",\"suite\":\"A128GCM\",\"policy\":{\"apiIeMappingList\":[{\"apiSignature\":\"/nudm-sdm/v2/{supi}/nssai\",\"apiMethod\":\"GET\",\"IeList\":[{\"ieLoc\":\"URI_PARAM\",\"ieType\":\"UEID\",\"reqIe\":\"supi\"}]},{\"apiSignature\":\"/nausf-auth/v1/ue-authentications\",\"apiMethod\":\"POST\",\"IeList\":[{\"ieLoc\":\"BODY\",\"ieType\":\"UEID\",\"reqIe\":\"/supiOrSuci\"},{\"ieLoc\":\"BODY\",\"ieType\":\"AUTHENTICATION_MATERIAL\",\"reqIe\":\"/resynchronizationInfo/rand\"},{\"ieLoc\":\"BODY\",\"ieType\":\"AUTHENTICATION_MATERIAL\",\"reqIe\":\"/resynchronizationInfo/auts\"},{\"ieLoc\":\"BODY\",\"ieType\":\"KEY_MATERIAL\",\"rspIe\":\"/kseaf\"},{\"ieLoc\":\"BODY\",\"ieType\":\"NONSENSITIVE\",\"reqIe\":\"/servingNetworkName\",\"isModifiableByIpx\":{\"ipx-a\":true}},{\"ieLoc\":\"BODY\",\"ieType\":\"NONSENSITIVE\",\"reqIe\":\"/list\",\"isModifiable\":true},{\"ieLoc\":\"HEADER\",\"ieType\":\"NONSENSITIVE\",\"reqIe\":\"x-trace\",\"isModifiableByIpx\":{\"ipx-b\":true}}]}],\"dataTypeEncPolicy\":[\"UEID\",\"AUTHENTICATION_MATERIAL\",\"KEY_MATERIAL\"]},\"own_ipx\":[\"ipx-b\"],\"peer_ipx\":[\"ipx-a\"]}\n";

// Their keys, from the sequence number 0: lines 5 and 6.
const KEYS_OF_A: &str =
    "{\"do\":\"keys\",\"node\":\"A\",\"id\":\"00000000000000a1\",\"send\":{\"request\":{\"key\":\"000102030405060708090a0b0c0d0e0f\",\"salt\":\"0001020304050607\"},\"response\":{\"key\":\"101112131415161718191a1b1c1d1e1f\",\"salt\":\"1011121314151617\"}},\"receive\":{\"request\":{\"key\":\"202122232425262728292a2b2c2d2e2f\",\"salt\":\"2021222324252627\"},\"response\":{\"key\":\"303132333435363738393a3b3c3d3e3f\",\"salt\":\"3031323334353637\"}}}\n";

const KEYS_OF_B: &str =
    "{\"do\":\"keys\",\"node\":\"B\",\"id\":\"00000000000000b1\",\"send\":{\"request\":{\"key\":\"202122232425262728292a2b2c2d2e2f\",\"salt\":\"2021222324252627\"},\"response\":{\"key\":\"303132333435363738393a3b3c3d3e3f\",\"salt\":\"3031323334353637\"}},\"receive\":{\"request\":{\"key\":\"000102030405060708090a0b0c0d0e0f\",\"salt\":\"0001020304050607\"},\"response\":{\"key\":\"101112131415161718191a1b1c1d1e1f\",\"salt\":\"1011121314151617\"}}}\n";

const SEND: &str =
    "{\"do\":\"send\",\"node\":\"A\",\"id\":\"00000000000000a1\",\"message\":{\"headers\":[{\"header\":\"accept\",\"value\":\"application/json\"}],\"requestLine\":{\"authority\":\"udm.example\",\"method\":\"GET\",\"path\":\"/nudm-sdm/v2/imsi-001010000000001/nssai\",\"protocolVersion\":\"HTTP/2\",\"scheme\":\"https\"}}}\n";

const DELIVER: &str = "{\"do\":\"deliver\",\"node\":\"B\",\"wire\":1}\n";

const NODE_A: &str = "{\"do\":\"node\",\"node\":\"A\",\"plmn\":\"00101\"}\n";

const RESTART: &str = "{\"do\":\"restart\",\"node\":\"B\"}\n";

const OPENED: &str =
    "{\"line\":1,\"ok\":\"node\"}\n{\"line\":2,\"ok\":\"node\"}\n{\"line\":3,\"ok\":\"context\"}\n{\"line\":4,\"ok\":\"context\"}\n{\"line\":5,\"ok\":\"keys\"}\n{\"line\":6,\"ok\":\"keys\"}\n";

// The documents of the sequence numbers 0 and 1, computed with OpenSSL, each as the answer to line 7 and to line 8.
const SENT: &str =
    "{\"document\":{\"reformattedData\":{\"aad\":\"eyJoZWFkZXJzIjpbeyJoZWFkZXIiOiJhY2NlcHQiLCJ2YWx1ZSI6ImFwcGxpY2F0aW9uL2pzb24ifV0sIm1ldGFEYXRhIjp7ImF1dGhvcml6ZWRJcHhJZCI6ImlweC1hIiwibWVzc2FnZUlkIjoiMDAwMDAwMDAwMDAwMDAwMCIsIm4zMmZDb250ZXh0SWQiOiIwMDAwMDAwMDAwMDAwMGIxIn0sInJlcXVlc3RMaW5lIjp7ImF1dGhvcml0eSI6InVkbS5leGFtcGxlIiwibWV0aG9kIjoiR0VUIiwicGF0aCI6Ii9udWRtLXNkbS92Mi97ZW5jQmxvY2tJbmRleD0wfS9uc3NhaSIsInByb3RvY29sVmVyc2lvbiI6IkhUVFAvMiIsInNjaGVtZSI6Imh0dHBzIn19\",\"ciphertext\":\"Zzb2AvTVkvAtcM02dImHwnWkMh3TvbW4wDADdqoUwfX91dWf1iwKaoPu\",\"iv\":\"AAECAwQFBgcAAAAA\",\"protected\":\"eyJhbGciOiJkaXIiLCJlbmMiOiJBMTI4R0NNIn0\",\"tag\":\"mMlzCwqYoZT3QiMcA6oY2g\"}},\"line\":7,\"wire\":1}\n";

const SENT_LATE: &str =
    "{\"document\":{\"reformattedData\":{\"aad\":\"eyJoZWFkZXJzIjpbeyJoZWFkZXIiOiJhY2NlcHQiLCJ2YWx1ZSI6ImFwcGxpY2F0aW9uL2pzb24ifV0sIm1ldGFEYXRhIjp7ImF1dGhvcml6ZWRJcHhJZCI6ImlweC1hIiwibWVzc2FnZUlkIjoiMDAwMDAwMDAwMDAwMDAwMCIsIm4zMmZDb250ZXh0SWQiOiIwMDAwMDAwMDAwMDAwMGIxIn0sInJlcXVlc3RMaW5lIjp7ImF1dGhvcml0eSI6InVkbS5leGFtcGxlIiwibWV0aG9kIjoiR0VUIiwicGF0aCI6Ii9udWRtLXNkbS92Mi97ZW5jQmxvY2tJbmRleD0wfS9uc3NhaSIsInByb3RvY29sVmVyc2lvbiI6IkhUVFAvMiIsInNjaGVtZSI6Imh0dHBzIn19\",\"ciphertext\":\"Zzb2AvTVkvAtcM02dImHwnWkMh3TvbW4wDADdqoUwfX91dWf1iwKaoPu\",\"iv\":\"AAECAwQFBgcAAAAA\",\"protected\":\"eyJhbGciOiJkaXIiLCJlbmMiOiJBMTI4R0NNIn0\",\"tag\":\"mMlzCwqYoZT3QiMcA6oY2g\"}},\"line\":8,\"wire\":1}\n";

const SENT_NEXT: &str =
    "{\"document\":{\"reformattedData\":{\"aad\":\"eyJoZWFkZXJzIjpbeyJoZWFkZXIiOiJhY2NlcHQiLCJ2YWx1ZSI6ImFwcGxpY2F0aW9uL2pzb24ifV0sIm1ldGFEYXRhIjp7ImF1dGhvcml6ZWRJcHhJZCI6ImlweC1hIiwibWVzc2FnZUlkIjoiMDAwMDAwMDAwMDAwMDAwMSIsIm4zMmZDb250ZXh0SWQiOiIwMDAwMDAwMDAwMDAwMGIxIn0sInJlcXVlc3RMaW5lIjp7ImF1dGhvcml0eSI6InVkbS5leGFtcGxlIiwibWV0aG9kIjoiR0VUIiwicGF0aCI6Ii9udWRtLXNkbS92Mi97ZW5jQmxvY2tJbmRleD0wfS9uc3NhaSIsInByb3RvY29sVmVyc2lvbiI6IkhUVFAvMiIsInNjaGVtZSI6Imh0dHBzIn19\",\"ciphertext\":\"ACEYiCa0MxkrZNO6SYfHYQtFLIOsbBrUNbc7_88-nvgmOjWLy5yQYFxZ\",\"iv\":\"AAECAwQFBgcAAAAB\",\"protected\":\"eyJhbGciOiJkaXIiLCJlbmMiOiJBMTI4R0NNIn0\",\"tag\":\"VEVblh-l7tK5y-Q--Bi-yA\"}},\"line\":7,\"wire\":1}\n";

const SENT_NEXT_LATE: &str =
    "{\"document\":{\"reformattedData\":{\"aad\":\"eyJoZWFkZXJzIjpbeyJoZWFkZXIiOiJhY2NlcHQiLCJ2YWx1ZSI6ImFwcGxpY2F0aW9uL2pzb24ifV0sIm1ldGFEYXRhIjp7ImF1dGhvcml6ZWRJcHhJZCI6ImlweC1hIiwibWVzc2FnZUlkIjoiMDAwMDAwMDAwMDAwMDAwMSIsIm4zMmZDb250ZXh0SWQiOiIwMDAwMDAwMDAwMDAwMGIxIn0sInJlcXVlc3RMaW5lIjp7ImF1dGhvcml0eSI6InVkbS5leGFtcGxlIiwibWV0aG9kIjoiR0VUIiwicGF0aCI6Ii9udWRtLXNkbS92Mi97ZW5jQmxvY2tJbmRleD0wfS9uc3NhaSIsInByb3RvY29sVmVyc2lvbiI6IkhUVFAvMiIsInNjaGVtZSI6Imh0dHBzIn19\",\"ciphertext\":\"ACEYiCa0MxkrZNO6SYfHYQtFLIOsbBrUNbc7_88-nvgmOjWLy5yQYFxZ\",\"iv\":\"AAECAwQFBgcAAAAB\",\"protected\":\"eyJhbGciOiJkaXIiLCJlbmMiOiJBMTI4R0NNIn0\",\"tag\":\"VEVblh-l7tK5y-Q--Bi-yA\"}},\"line\":8,\"wire\":1}\n";

const DELIVERED: &str =
    "{\"delivered\":{\"headers\":[{\"header\":\"accept\",\"value\":\"application/json\"}],\"requestLine\":{\"authority\":\"udm.example\",\"method\":\"GET\",\"path\":\"/nudm-sdm/v2/imsi-001010000000001/nssai\",\"protocolVersion\":\"HTTP/2\",\"scheme\":\"https\"}},\"line\":8,\"message\":\"0000000000000000\"}\n";

const DELIVERED_9: &str =
    "{\"delivered\":{\"headers\":[{\"header\":\"accept\",\"value\":\"application/json\"}],\"requestLine\":{\"authority\":\"udm.example\",\"method\":\"GET\",\"path\":\"/nudm-sdm/v2/imsi-001010000000001/nssai\",\"protocolVersion\":\"HTTP/2\",\"scheme\":\"https\"}},\"line\":9,\"message\":\"0000000000000000\"}\n";

const DELIVERED_10: &str =
    "{\"delivered\":{\"headers\":[{\"header\":\"accept\",\"value\":\"application/json\"}],\"requestLine\":{\"authority\":\"udm.example\",\"method\":\"GET\",\"path\":\"/nudm-sdm/v2/imsi-001010000000001/nssai\",\"protocolVersion\":\"HTTP/2\",\"scheme\":\"https\"}},\"line\":10,\"message\":\"0000000000000000\"}\n";

const REPLAY_9: &str =
    "{\"detail\":\"5\",\"line\":9,\"name\":\"REPLAY\",\"refused\":25,\"report\":{\"n32fContextId\":\"00000000000000b1\",\"n32fErrorType\":\"MESSAGE_RECONSTRUCTION_FAILED\",\"n32fMessageId\":\"0000000000000000\"}}\n";

const REPLAY_10: &str =
    "{\"detail\":\"5\",\"line\":10,\"name\":\"REPLAY\",\"refused\":25,\"report\":{\"n32fContextId\":\"00000000000000b1\",\"n32fErrorType\":\"MESSAGE_RECONSTRUCTION_FAILED\",\"n32fMessageId\":\"0000000000000000\"}}\n";

const RESTARTED_9: &str = "{\"line\":9,\"ok\":\"restart\"}\n";

const KEEPER_7: &str = "{\"line\":7,\"name\":\"KEEPER\",\"refused\":34}\n";

const KEEPER_8: &str = "{\"line\":8,\"name\":\"KEEPER\",\"refused\":34}\n";

const KEEPER_9: &str = "{\"line\":9,\"name\":\"KEEPER\",\"refused\":34}\n";

// The answers to the opening.
const CONTEXTS_OPENED: &str =
    "{\"line\":1,\"ok\":\"node\"}\n{\"line\":2,\"ok\":\"node\"}\n{\"line\":3,\"ok\":\"context\"}\n{\"line\":4,\"ok\":\"context\"}\n";

// What a second run answers to the opening and the keys.
const KNOWN: &str =
    "{\"line\":1,\"ok\":\"node\"}\n{\"line\":2,\"ok\":\"node\"}\n{\"line\":3,\"name\":\"CONTEXT_USED\",\"refused\":44}\n{\"line\":4,\"name\":\"CONTEXT_USED\",\"refused\":44}\n{\"line\":5,\"name\":\"KEYS_TWICE\",\"refused\":8}\n{\"line\":6,\"name\":\"KEYS_TWICE\",\"refused\":8}\n";

const KNOWN_CONTEXTS: &str =
    "{\"line\":1,\"ok\":\"node\"}\n{\"line\":2,\"ok\":\"node\"}\n{\"line\":3,\"name\":\"CONTEXT_USED\",\"refused\":44}\n{\"line\":4,\"name\":\"CONTEXT_USED\",\"refused\":44}\n";

// Records: a context, its keys, and its closing.
const OPENED_RECORD: &str =
    "{\"id\":\"00000000000000a1\",\"is\":\"opened\",\"node\":\"A\",\"own_ipx\":[],\"peer\":\"00000000000000b1\",\"peer_ipx\":[],\"peer_node\":\"B\",\"plmn\":\"00102\",\"policy\":{\"apiIeMappingList\":[]},\"suite\":\"A128GCM\"}";

const KEYED_RECORD: &str =
    "{\"first\":5,\"id\":\"00000000000000a1\",\"is\":\"keyed\",\"node\":\"A\",\"receive\":{\"request\":{\"key\":\"202122232425262728292a2b2c2d2e2f\",\"salt\":\"2021222324252627\"},\"response\":{\"key\":\"303132333435363738393a3b3c3d3e3f\",\"salt\":\"3031323334353637\"}},\"send\":{\"request\":{\"key\":\"000102030405060708090a0b0c0d0e0f\",\"salt\":\"0001020304050607\"},\"response\":{\"key\":\"101112131415161718191a1b1c1d1e1f\",\"salt\":\"1011121314151617\"}}}";

const CLOSED_RECORD: &str = "{\"id\":\"00000000000000a1\",\"is\":\"closed\",\"node\":\"A\"}";

const REQUEST: &str =
    "{\"headers\":[{\"header\":\"accept\",\"value\":\"application/json\"}],\"requestLine\":{\"authority\":\"udm.example\",\"method\":\"GET\",\"path\":\"/nudm-sdm/v2/imsi-001010000000001/nssai\",\"protocolVersion\":\"HTTP/2\",\"scheme\":\"https\"}}";

const BLOCK: &str =
    "{\"headers\":[{\"header\":\"accept\",\"value\":\"application/json\"}],\"metaData\":{\"authorizedIpxId\":\"null\",\"messageId\":\"0000000000000000\",\"n32fContextId\":\"0000000000000000\"},\"requestLine\":{\"authority\":\"udm.example\",\"method\":\"GET\",\"path\":\"/nudm-sdm/v2/imsi-001010000000001/nssai\",\"protocolVersion\":\"HTTP/2\",\"scheme\":\"https\"}}";

// What a run is given beside its keeper. Where memory is refused something is missing, and the run ends otherwise.
#[derive(Drop)]
pub(crate) struct Objects {
    words: TextList,
    source: Option<MemSource>,
    sink: MemSink,
    signer: Option<FailAt<Hs256>>,
    verifier: Option<FailAt<Hs256>>,
}

fn words_of(alloc: Global, words: &[&str]) -> TextList {
    let mut list = TextList::new(alloc);
    for word in words {
        if let Ok(text) = Text::from_text(alloc, word) {
            let _ = list.push(text);
        }
    }
    list
}

fn calls(alloc: Global, numbers: &[u64]) -> CallList {
    let mut list = CallList::new(alloc);
    for number in numbers {
        let _ = list.push(*number);
    }
    list
}

fn source_of(alloc: Global, script: &[u8], fails: &[u64]) -> Option<MemSource> {
    match Bytes::from_slice(alloc, script) {
        Ok(bytes) => Some(MemSource::new(bytes, calls(alloc, fails))),
        Err(_) => None,
    }
}

// A signer, or a verifier, that fails at these calls.
fn signer_of(alloc: Global, fails: &[u64]) -> Option<FailAt<Hs256>> {
    match Hs256::new(alloc, b"n32-demo") {
        Ok(signer) => Some(FailAt::new(signer, calls(alloc, fails))),
        Err(_) => None,
    }
}

// The words of a call, a script, and the calls of source and sink that fail.
pub(crate) fn objects_of(
    alloc: Global,
    words: &[&str],
    script: &[u8],
    reads: &[u64],
    writes: &[u64],
) -> Objects {
    Objects {
        words: words_of(alloc, words),
        source: source_of(alloc, script, reads),
        sink: MemSink::new(alloc, calls(alloc, writes)),
        signer: signer_of(alloc, &[]),
        verifier: signer_of(alloc, &[]),
    }
}

// A keeper that holds these texts and fails at these calls, of which each text is one.
pub(crate) fn keeper_of(alloc: Global, texts: &[&str], calls: &[(u64, bool)]) -> MemKeeper {
    let mut fails = FailList::new(alloc);
    for (call, keeps) in calls {
        let _ = fails.push(FailItem {
            call: *call,
            keeps: *keeps,
        });
    }
    let mut keeper = MemKeeper::new(alloc, fails);
    for text in texts {
        let _ = keeper.put(text.as_bytes());
    }
    keeper
}

// Texts behind one another.
fn joined(alloc: Global, texts: &[&str]) -> String {
    let mut text = String::new(alloc);
    for part in texts {
        let _ = text.push_str(part);
    }
    text
}

// Whether a run over the objects ends so, and writes this.
pub(crate) fn ends<K: Keeper>(
    alloc: Global,
    mut objects: Objects,
    keeper: &mut K,
    wanted: Status,
    output: &str,
) -> bool {
    let screen = Screen::new(
        |message: &Message, plmn: &PlmnId| OriginRule::passes(message, plmn),
        OriginRule,
    );
    match (
        &mut objects.source,
        &mut objects.signer,
        &mut objects.verifier,
    ) {
        (Some(source), Some(signer), Some(verifier)) => {
            let status = run(
                alloc,
                &objects.words,
                source,
                &mut objects.sink,
                keeper,
                signer,
                verifier,
                &screen,
            );
            status == wanted && objects.sink.written() == output.as_bytes()
        }
        _ => false,
    }
}

// Whether `replay` over a script ends so, and writes these answers.
fn replays<K: Keeper>(
    alloc: Global,
    keeper: &mut K,
    events: &[&str],
    wanted: Status,
    answers: &[&str],
) -> bool {
    let script = joined(alloc, events);
    let output = joined(alloc, answers);
    let objects = objects_of(alloc, &["replay"], script.as_bytes(), &[], &[]);
    ends(alloc, objects, keeper, wanted, output.as_str())
}

const PASS: &str = "{\"do\":\"pass\",\"ipx\":\"ipx-a\",\"wire\":1}\n";

const INJECT: &str = "{\"do\":\"inject\",\"document\":[]}\n";

const SIGNER_8: &str = "{\"line\":8,\"name\":\"SIGNER\",\"refused\":36}\n";

const WIRE_9: &str = "{\"line\":9,\"wire\":2}\n";

// Whether a script is answered so, where the first call of the signer fails.
fn replays_unsigned(alloc: Global, events: &[&str], answers: &[&str]) -> bool {
    let script = joined(alloc, events);
    let output = joined(alloc, answers);
    let mut objects = objects_of(alloc, &["replay"], script.as_bytes(), &[], &[]);
    objects.signer = signer_of(alloc, &[0]);
    let mut keeper = keeper_of(alloc, &[], &[]);
    ends(alloc, objects, &mut keeper, Status::Done, output.as_str())
}

#[test]
fn a_fault_of_the_signer_leaves_the_wire(rt: HostRuntime) {
    assert!(rt;
        replays_unsigned(
            rt.alloc(),
            &[OPENING, KEYS_OF_A, KEYS_OF_B, SEND, PASS, INJECT],
            &[OPENED, SENT, SIGNER_8, WIRE_9],
        )
    );
}

// The document with an entry of ipx-a, computed apart from the program.
const PASSED_8: &str =
    "{\"document\":{\"modificationsBlock\":[{\"payload\":\"eyJpZGVudGl0eSI6ImlweC1hIiwib3BlcmF0aW9ucyI6W10sInRhZyI6Im1NbHpDd3FZb1pUM1FpTWNBNm9ZMmcifQ\",\"protected\":\"eyJhbGciOiJIUzI1NiJ9\",\"signature\":\"-3nabGHehIrNc_X01WmKAA5Ab91uSzyFP7PxPSxdczk\"}],\"reformattedData\":{\"aad\":\"eyJoZWFkZXJzIjpbeyJoZWFkZXIiOiJhY2NlcHQiLCJ2YWx1ZSI6ImFwcGxpY2F0aW9uL2pzb24ifV0sIm1ldGFEYXRhIjp7ImF1dGhvcml6ZWRJcHhJZCI6ImlweC1hIiwibWVzc2FnZUlkIjoiMDAwMDAwMDAwMDAwMDAwMCIsIm4zMmZDb250ZXh0SWQiOiIwMDAwMDAwMDAwMDAwMGIxIn0sInJlcXVlc3RMaW5lIjp7ImF1dGhvcml0eSI6InVkbS5leGFtcGxlIiwibWV0aG9kIjoiR0VUIiwicGF0aCI6Ii9udWRtLXNkbS92Mi97ZW5jQmxvY2tJbmRleD0wfS9uc3NhaSIsInByb3RvY29sVmVyc2lvbiI6IkhUVFAvMiIsInNjaGVtZSI6Imh0dHBzIn19\",\"ciphertext\":\"Zzb2AvTVkvAtcM02dImHwnWkMh3TvbW4wDADdqoUwfX91dWf1iwKaoPu\",\"iv\":\"AAECAwQFBgcAAAAA\",\"protected\":\"eyJhbGciOiJkaXIiLCJlbmMiOiJBMTI4R0NNIn0\",\"tag\":\"mMlzCwqYoZT3QiMcA6oY2g\"}},\"line\":8,\"wire\":2}\n";

const DELIVER_PASSED: &str = "{\"do\":\"deliver\",\"node\":\"B\",\"wire\":2}\n";

const VERIFIER_9: &str = "{\"detail\":\"1\",\"line\":9,\"name\":\"VERIFIER\",\"refused\":35}\n";

// Whether a script is answered so, where the first call of the verifier fails.
fn replays_unverified(alloc: Global, events: &[&str], answers: &[&str]) -> bool {
    let script = joined(alloc, events);
    let output = joined(alloc, answers);
    let mut objects = objects_of(alloc, &["replay"], script.as_bytes(), &[], &[]);
    objects.verifier = signer_of(alloc, &[0]);
    let mut keeper = keeper_of(alloc, &[], &[]);
    ends(alloc, objects, &mut keeper, Status::Done, output.as_str())
}

#[test]
fn a_fault_of_the_verifier_delivers_nothing(rt: HostRuntime) {
    assert!(rt;
        replays_unverified(
            rt.alloc(),
            &[
                OPENING,
                KEYS_OF_A,
                KEYS_OF_B,
                SEND,
                PASS,
                DELIVER_PASSED,
                DELIVER_PASSED
            ],
            &[OPENED, SENT, PASSED_8, VERIFIER_9, DELIVERED_10],
        )
    );
}

#[test]
fn records_outlast_a_run(rt: HostRuntime) {
    let alloc = rt.alloc();
    let mut keeper = keeper_of(alloc, &[], &[]);
    assert!(rt;
        replays(
            alloc,
            &mut keeper,
            &[OPENING, KEYS_OF_A, KEYS_OF_B, SEND, DELIVER, DELIVER],
            Status::Done,
            &[OPENED, SENT, DELIVERED, REPLAY_9],
        )
    );

    // A second run over the same records knows the contexts, their keys and the sequence number that was sent.
    assert!(rt;
        replays(
            alloc,
            &mut keeper,
            &[OPENING, KEYS_OF_A, KEYS_OF_B, SEND],
            Status::Done,
            &[KNOWN, SENT_NEXT],
        )
    );
}

// Whether three events behind a request are answered so, where these calls of the keeper fail. The load at the start is
// call 0, the puts of the opening are the calls 1 to 4, and that of the request is call 5.
fn goes_on(alloc: Global, fails: &[(u64, bool)], events: [&str; 3], answers: [&str; 3]) -> bool {
    let [one, two, three] = events;
    let [first, second, third] = answers;
    replays(
        alloc,
        &mut keeper_of(alloc, &[], fails),
        &[OPENING, KEYS_OF_A, KEYS_OF_B, SEND, one, two, three],
        Status::Done,
        &[OPENED, SENT, first, second, third],
    )
}

#[test]
fn a_failed_put_may_have_kept_its_delivery(rt: HostRuntime) {
    for (fails, events, answers) in [
        (
            [(6u64, true)].as_slice(),
            [DELIVER, DELIVER, DELIVER],
            [KEEPER_8, REPLAY_9, REPLAY_10],
        ),
        (
            [(6, false)].as_slice(),
            [DELIVER, DELIVER, DELIVER],
            [KEEPER_8, DELIVERED_9, REPLAY_10],
        ),
        (
            [(6, true)].as_slice(),
            [DELIVER, RESTART, DELIVER],
            [KEEPER_8, RESTARTED_9, REPLAY_10],
        ),
        (
            [(6, false)].as_slice(),
            [DELIVER, RESTART, DELIVER],
            [KEEPER_8, RESTARTED_9, DELIVERED_10],
        ),
        // The records are read again, and the keeper fails in that too.
        (
            [(6, false), (9, true)].as_slice(),
            [DELIVER, DELIVER, DELIVER],
            [KEEPER_8, KEEPER_9, DELIVERED_10],
        ),
    ] {
        assert!(rt; goes_on(rt.alloc(), fails, events, answers));
    }
}

#[test]
fn a_number_comes_again_where_its_put_kept_nothing(rt: HostRuntime) {
    for (keeps, answer) in [(false, SENT_LATE), (true, SENT_NEXT_LATE)] {
        assert!(rt;
            replays(
                rt.alloc(),
                &mut keeper_of(rt.alloc(), &[], &[(5, keeps)]),
                &[OPENING, KEYS_OF_A, KEYS_OF_B, SEND, SEND],
                Status::Done,
                &[OPENED, KEEPER_7, answer],
            )
        );
    }
}

#[test]
fn the_load_at_the_start_may_end_the_run(rt: HostRuntime) {
    for (texts, number) in [
        (["x"].as_slice(), 0),
        ([OPENED_RECORD, "{}"].as_slice(), 1),
        (
            [OPENED_RECORD, KEYED_RECORD, "{\"is\":\"sent\"}", "{"].as_slice(),
            2,
        ),
        (
            ["", KEYED_RECORD, OPENED_RECORD, CLOSED_RECORD].as_slice(),
            0,
        ),
        (
            [OPENED_RECORD, KEYED_RECORD, CLOSED_RECORD, "[]"].as_slice(),
            3,
        ),
    ] {
        let mut keeper = keeper_of(rt.alloc(), texts, &[]);
        assert!(rt;
            replays(
                rt.alloc(),
                &mut keeper,
                &[OPENING],
                Status::Journal(number),
                &[]
            )
        );
    }
    let mut keeper = keeper_of(rt.alloc(), &[], &[(0, false)]);
    assert!(rt;
        replays(
            rt.alloc(),
            &mut keeper,
            &[OPENING],
            Status::KeeperFault,
            &[]
        )
    );
}

#[test]
fn keys_count_behind_their_opening_alone(rt: HostRuntime) {
    let mut keeper = keeper_of(rt.alloc(), &[KEYED_RECORD, OPENED_RECORD], &[]);
    assert!(rt;
        replays(
            rt.alloc(),
            &mut keeper,
            &[NODE_A, SEND],
            Status::Done,
            &[
                "{\"line\":1,\"ok\":\"node\"}\n",
                "{\"line\":2,\"name\":\"NO_KEYS\",\"refused\":11}\n",
            ],
        )
    );
}

// Whether a run of `blocks` over a script ends so, where these calls of source and sink fail.
fn blocks(
    alloc: Global,
    script: &[u8],
    reads: &[u64],
    writes: &[u64],
    wanted: Status,
    output: &str,
) -> bool {
    let objects = objects_of(alloc, &["blocks"], script, reads, writes);
    ends(
        alloc,
        objects,
        &mut keeper_of(alloc, &[], &[]),
        wanted,
        output,
    )
}

#[test]
fn a_fault_ends_the_run_with_its_status(rt: HostRuntime) {
    let first = "{\"detail\":\"message\",\"line\":1,\"name\":\"MESSAGE\",\"refused\":13}\n";
    for (reads, writes, wanted, output) in [
        ([0u64], [9u64], Status::ReadFault, ""),
        ([9], [0], Status::WriteFault, ""),
        ([9], [1], Status::WriteFault, first),
    ] {
        assert!(rt; blocks(rt.alloc(), b"[]\n{}\n", &reads, &writes, wanted, output));
    }
}

// A request, and blanks up to this length.
fn padded(alloc: Global, length: usize) -> Vec<u8> {
    let mut line = Vec::new(alloc);
    let _ = line.extend_from_slice(REQUEST.as_bytes());
    if let Ok(blanks) = vec![in alloc; b' '; length.saturating_sub(REQUEST.len())] {
        let _ = line.extend_from_slice(&blanks);
    }
    line
}

#[test]
fn a_line_may_have_a_mebibyte_and_no_byte_more(rt: HostRuntime) {
    let alloc = rt.alloc();
    let answer = joined(
        alloc,
        &["{\"block\":", BLOCK, ",\"line\":1,\"values\":[]}\n"],
    );
    let line = padded(alloc, 1_048_576);
    assert!(rt; blocks(alloc, &line, &[], &[], Status::Done, answer.as_str()));
    let line = padded(alloc, 1_048_577);
    assert!(rt; blocks(alloc, &line, &[], &[], Status::LineTooLong(1), ""));
}

#[test]
fn words_name_a_command_and_perhaps_a_file(rt: HostRuntime) {
    for (words, wanted) in [
        ([].as_slice(), Status::Words),
        (["replay"].as_slice(), Status::Done),
        (["replay", "records"].as_slice(), Status::Done),
        (["replay", ""].as_slice(), Status::Words),
        (["replay", "records", ""].as_slice(), Status::Words),
        (["blocks", "records"].as_slice(), Status::Words),
        (["blocks", "x"].as_slice(), Status::Words),
        (["block"].as_slice(), Status::Words),
        (["records"].as_slice(), Status::Words),
    ] {
        let objects = objects_of(rt.alloc(), words, b"", &[], &[]);
        let mut keeper = keeper_of(rt.alloc(), &[], &[]);
        assert!(rt; ends(rt.alloc(), objects, &mut keeper, wanted, ""));
    }
}

// Whether a run with these words reads, writes and keeps nothing.
fn is_refused_unread(alloc: Global, words: &[&str]) -> bool {
    let objects = objects_of(alloc, words, b"[]", &[0], &[0]);
    let mut keeper = keeper_of(alloc, &[], &[]);
    ends(alloc, objects, &mut keeper, Status::Words, "")
}

#[test]
fn words_of_another_shape_are_refused_unread(rt: HostRuntime) {
    let alloc = rt.alloc();
    assert!(rt; is_refused_unread(alloc, &[]));
    assert!(rt; is_refused_unread(alloc, &["blocks", "x"]));
    assert!(rt; is_refused_unread(alloc, &["block"]));
}

fn is_told(alloc: Global, status: Status, text: &str) -> bool {
    match format!(in alloc; "{status}") {
        Ok(told) => told.as_str() == text,
        Err(_) => false,
    }
}

#[test]
fn statuses_have_their_texts(rt: HostRuntime) {
    for (status, text, number) in [
        (Status::Done, "", 0),
        (
            Status::Words,
            "usage: n32_replay blocks | replay [FILE] | exercise N",
            2,
        ),
        (Status::ReadFault, "n32_replay: read fault", 3),
        (Status::WriteFault, "n32_replay: write fault", 4),
        (Status::LineTooLong(7), "n32_replay: line 7 too long", 5),
        (Status::ScriptTooLarge, "n32_replay: script too large", 6),
        (Status::Journal(7), "n32_replay: bad record 7", 7),
        (Status::KeeperFault, "n32_replay: keeper fault", 8),
        (Status::NoMemory, "n32_replay: no memory", 9),
    ] {
        assert!(rt; is_told(rt.alloc(), status, text), "{text}");
        assert!(rt; status.exit() == number, "{text}");
    }
}

// Whether the opening, over the records of a file, is answered so.
fn opens_over_file(rt: &HostRuntime, path: &str, wanted: Status, answers: &str) -> bool {
    match FileKeeper::new(rt, rt.alloc(), path) {
        Ok(mut keeper) => replays(rt.alloc(), &mut keeper, &[OPENING], wanted, &[answers]),
        Err(_) => false,
    }
}

// Adds the front of a line to a file.
fn tear(rt: &HostRuntime, path: &str) -> bool {
    match fs::read(rt, path) {
        Ok(mut bytes) => {
            bytes.extend_from_slice(b"{\"is\":").is_ok() && fs::write(rt, path, &bytes).is_ok()
        }
        Err(_) => false,
    }
}

#[test]
fn records_are_kept_in_a_file(rt: HostRuntime) {
    let path = "replay_records.txt";
    assert!(rt; opens_over_file(&rt, path, Status::Done, CONTEXTS_OPENED));

    // An unfinished last line is no record, and is cut off.
    assert!(rt; tear(&rt, path));
    assert!(rt; opens_over_file(&rt, path, Status::Done, KNOWN_CONTEXTS));
    assert!(rt; fs::write(&rt, path, "x\n").is_ok());
    assert!(rt; opens_over_file(&rt, path, Status::Journal(0), ""));
    assert!(rt; fs::remove_file(&rt, path).is_ok());
}
