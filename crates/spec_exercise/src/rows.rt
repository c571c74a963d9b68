//! Worked examples, by computation.

ghost use Rattle.std.specs.Prelude.{◌≡◌, [], ◌∷◌, map, true, false, Some, codes};
ghost use Rattle.spec_exercise.specs.Script.{Sender, Receiver, AddNode, AddContext, AddKeys, Send, Pass, Deliver, script, turns};
ghost use Rattle.spec_exercise.specs.Documents.{line_text, fifteen_digits};
ghost use Rattle.spec_exercise.specs.Summary.{answer_has, named, counted};

/// The numbers that the first turns draw.
pub fn drawn_rows()
    ensures none { turns 0 ≡ [] }
    ensures five { map (λ turn. turn.drawn) (turns 5) ≡ 16838 ∷ 5758 ∷ 10113 ∷ 17515 ∷ 31051 ∷ [] }
    ensures wires { map (λ turn. turn.wire) (turns 8) ≡ 1 ∷ 2 ∷ 3 ∷ 5 ∷ 6 ∷ 7 ∷ 8 ∷ 10 ∷ [] }
{}

/// The third turn of four is passed on, and the fourth is delivered twice.
pub fn script_rows()
    ensures four { script 4 ≡ AddNode Sender ∷ AddNode Receiver ∷ AddContext Sender ∷ AddContext Receiver ∷ AddKeys Sender ∷ AddKeys Receiver ∷ Send 0 16838 ∷ Deliver 1 ∷ Send 1 5758 ∷ Deliver 2 ∷ Send 2 10113 ∷ Pass 3 10113 ∷ Deliver 4 ∷ Send 3 17515 ∷ Deliver 5 ∷ Deliver 5 ∷ [] }
{}

/// The texts of lines.
pub fn line_rows()
    ensures node { line_text (AddNode Sender) ≡ codes "{\"do\":\"node\",\"node\":\"A\",\"plmn\":\"00101\"}" }
    ensures peer_node { line_text (AddNode Receiver) ≡ codes "{\"do\":\"node\",\"node\":\"B\",\"plmn\":\"00102\"}" }
    ensures context { line_text (AddContext Sender) ≡ codes "{\"do\":\"context\",\"id\":\"00000000000000a1\",\"node\":\"A\",\"own_ipx\":[\"ipx-a\"],\"peer\":\"00000000000000b1\",\"peer_ipx\":[\"ipx-b\"],\"peer_node\":\"B\",\"plmn\":\"00102\",\"policy\":{\"apiIeMappingList\":[{\"IeList\":[{\"ieLoc\":\"URI_PARAM\",\"ieType\":\"UEID\",\"reqIe\":\"supi\"},{\"ieLoc\":\"BODY\",\"ieType\":\"KEY_MATERIAL\",\"reqIe\":\"/s\"},{\"ieLoc\":\"BODY\",\"ieType\":\"NONSENSITIVE\",\"isModifiableByIpx\":{\"ipx-a\":true},\"reqIe\":\"/t\"}],\"apiMethod\":\"POST\",\"apiSignature\":\"/n/v1/u/{supi}\"}],\"dataTypeEncPolicy\":[\"UEID\",\"KEY_MATERIAL\"]},\"suite\":\"A128GCM\"}" }
    ensures peer_context { line_text (AddContext Receiver) ≡ codes "{\"do\":\"context\",\"id\":\"00000000000000b1\",\"node\":\"B\",\"own_ipx\":[\"ipx-b\"],\"peer\":\"00000000000000a1\",\"peer_ipx\":[\"ipx-a\"],\"peer_node\":\"A\",\"plmn\":\"00101\",\"policy\":{\"apiIeMappingList\":[{\"IeList\":[{\"ieLoc\":\"URI_PARAM\",\"ieType\":\"UEID\",\"reqIe\":\"supi\"},{\"ieLoc\":\"BODY\",\"ieType\":\"KEY_MATERIAL\",\"reqIe\":\"/s\"},{\"ieLoc\":\"BODY\",\"ieType\":\"NONSENSITIVE\",\"isModifiableByIpx\":{\"ipx-a\":true},\"reqIe\":\"/t\"}],\"apiMethod\":\"POST\",\"apiSignature\":\"/n/v1/u/{supi}\"}],\"dataTypeEncPolicy\":[\"UEID\",\"KEY_MATERIAL\"]},\"suite\":\"A128GCM\"}" }
    ensures keys { line_text (AddKeys Sender) ≡ codes "{\"do\":\"keys\",\"id\":\"00000000000000a1\",\"node\":\"A\",\"receive\":{\"request\":{\"key\":\"202122232425262728292a2b2c2d2e2f\",\"salt\":\"2021222324252627\"},\"response\":{\"key\":\"303132333435363738393a3b3c3d3e3f\",\"salt\":\"3031323334353637\"}},\"send\":{\"request\":{\"key\":\"000102030405060708090a0b0c0d0e0f\",\"salt\":\"0001020304050607\"},\"response\":{\"key\":\"101112131415161718191a1b1c1d1e1f\",\"salt\":\"1011121314151617\"}}}" }
    ensures peer_keys { line_text (AddKeys Receiver) ≡ codes "{\"do\":\"keys\",\"id\":\"00000000000000b1\",\"node\":\"B\",\"receive\":{\"request\":{\"key\":\"000102030405060708090a0b0c0d0e0f\",\"salt\":\"0001020304050607\"},\"response\":{\"key\":\"101112131415161718191a1b1c1d1e1f\",\"salt\":\"1011121314151617\"}},\"send\":{\"request\":{\"key\":\"202122232425262728292a2b2c2d2e2f\",\"salt\":\"2021222324252627\"},\"response\":{\"key\":\"303132333435363738393a3b3c3d3e3f\",\"salt\":\"3031323334353637\"}}}" }
    ensures send { line_text (Send 0 16838) ≡ codes "{\"do\":\"send\",\"id\":\"00000000000000a1\",\"message\":{\"body\":{\"i\":0,\"s\":\"secret 16838\",\"t\":16838},\"requestLine\":{\"authority\":\"x.example\",\"method\":\"POST\",\"path\":\"/n/v1/u/imsi-000000000000000\",\"protocolVersion\":\"HTTP/2\",\"scheme\":\"https\"}},\"node\":\"A\"}" }
    ensures pass { line_text (Pass 3 10113) ≡ codes "{\"do\":\"pass\",\"ipx\":\"ipx-a\",\"operations\":[{\"op\":\"replace\",\"path\":\"/payload/2/value\",\"value\":10114}],\"wire\":3}" }
    ensures deliver { line_text (Deliver 5) ≡ codes "{\"do\":\"deliver\",\"node\":\"B\",\"wire\":5}" }
    ensures digits { fifteen_digits 1234567890 ≡ codes "000001234567890" }
{}

/// An answer has the members of its object, wherever they stand.
pub fn answer_rows()
    ensures delivered { answer_has (codes "delivered") (codes "{\"delivered\":{},\"line\":8}") ≡ true }
    ensures refused { answer_has (codes "refused") (codes "{\"line\":8,\"refused\":25}") ≡ true }
    ensures beneath { answer_has (codes "refused") (codes "{\"delivered\":{\"refused\":25},\"line\":8}") ≡ false }
    ensures no_object { answer_has (codes "refused") (codes "\"refused\"") ≡ false }
    ensures nothing { answer_has (codes "refused") [] ≡ false }
{}

/// The lines of a summary.
pub fn summary_rows()
    ensures counted { counted (codes "answers") 16 ≡ codes "answers 16\n" }
    ensures named { named (codes "sha256") (codes "00ff") ≡ codes "sha256 00ff\n" }
{}
