//! Worked examples, by computation.

ghost use Rattle.std.specs.Prelude.{◌≡◌, ℕ, List, [], ◌∷◌, Option, Some, None, Ok, Err, pos, codes};
ghost use Rattle.spec_documents.specs.Tree.{Tree, null, truth, whole, words, items, members, Trees, no_items, item, Members, no_members, member};
ghost use Rattle.spec_documents.specs.Place.{Pointer, Cause, no_place, bad_index, test_failed, into_itself, too_deep, at, read_pointer, pointer_text};
ghost use Rattle.spec_documents.specs.Patch.{Op, add, remove, replace, move, copy, test, edited, patched};
ghost use Rattle.spec_messages.specs.Policy.{values, secret_places, mapping_of, Spot, body_spot};
ghost use Rattle.spec_messages.specs.Block.{sent_block, leaves};
ghost use Rattle.spec_documents.specs.Compact.{compact_text};
ghost use Rattle.spec_documents.specs.Hole.{fill_tree, hole, HolePlace, places};
ghost use Rattle.spec_messages.specs.Entry.{op_result};
ghost use Rattle.spec_documents.specs.Examples.{number, list, map_of};
ghost use Rattle.spec_messages.specs.Rows.{message_three, policy_one, meta_one};
ghost use Rattle.spec_messages.specs.Message.{message_of, request_line, status_line};

/// Of two lines the status line is the wrong one, unless the request line is no object.
pub fn line_rows()
    ensures number { message_of (map_of ((codes "requestLine", number 5) ∷ (codes "statusLine", words (codes "200")) ∷ [])) ≡ Err request_line }
    ensures object { message_of (map_of ((codes "requestLine", map_of []) ∷ (codes "statusLine", words (codes "200")) ∷ [])) ≡ Err status_line }
    ensures response { message_of (map_of ((codes "body", null) ∷ (codes "statusLine", words (codes "201")) ∷ [])) ≡ Ok (record { head = response 201; headers = []; body = Some null }) }
{}

/// A message is split under a policy.
pub fn split_rows()
    ensures hidden { values policy_one (Some 0) message_three ≡ words (codes "0102") ∷ words (codes "0304") ∷ words (codes "suci-0-001-01-0-0-0-0000000001") ∷ [] }
    ensures block { compact_text (sent_block policy_one (Some 0) message_three meta_one) ≡ codes "{\"headers\":[{\"header\":\"content-type\",\"value\":\"application/json\"}],\"metaData\":{\"authorizedIpxId\":\"ipx-a\",\"messageId\":\"0000000000000000\",\"n32fContextId\":\"00000000000000b1\"},\"payload\":[{\"iePath\":\"/resynchronizationInfo/auts\",\"ieValueLocation\":\"BODY\",\"value\":{\"encBlockIndex\":0}},{\"iePath\":\"/resynchronizationInfo/rand\",\"ieValueLocation\":\"BODY\",\"value\":{\"encBlockIndex\":1}},{\"iePath\":\"/servingNetworkName\",\"ieValueLocation\":\"BODY\",\"value\":\"5G:mnc001.mcc001.3gppnetwork.org\"},{\"iePath\":\"/supiOrSuci\",\"ieValueLocation\":\"BODY\",\"value\":{\"encBlockIndex\":2}}],\"requestLine\":{\"authority\":\"ausf.example\",\"method\":\"POST\",\"path\":\"/nausf-auth/v1/ue-authentications\",\"protocolVersion\":\"HTTP/2\",\"scheme\":\"https\"}}" }
{}

ghost use Rattle.std.specs.Prelude.{IsOk, true, false};
ghost use Rattle.spec_messages.specs.Message.{Message, Part, clear, hole_part, Pair, Header, Head, request, response};
ghost use Rattle.spec_messages.specs.Policy.{Policy, Element, Mapping, body, key_material, differs, Address, line, path_var, query, header_at, body_at, is_modifiable};
ghost use Rattle.spec_messages.specs.Rows.{posted, block_three};

/// The outermost secret places are holes, and an object with the mark is always one.
pub fn leaf_rows()
    ensures empty { leaves [] (map_of []) ≡ ([], map_of []) ∷ [] }
    ensures nested { leaves [] (map_of ((codes "a", map_of ((codes "0", number 1) ∷ [])) ∷ [])) ≡ (codes "a" ∷ codes "0" ∷ [], number 1) ∷ [] }
    ensures listed { leaves [] (map_of ((codes "a", list (number 1 ∷ [])) ∷ [])) ≡ (codes "a" ∷ [], list (number 1 ∷ [])) ∷ [] }
    ensures marked { values policy_one None (posted (map_of ((codes "x", hole 7) ∷ []))) ≡ hole 7 ∷ [] }
    ensures unmarked { values policy_one None (posted (list (number 1 ∷ map_of ((codes "encBlockIndex", words (codes "z")) ∷ (codes "k", number 2) ∷ []) ∷ []))) ≡ map_of ((codes "encBlockIndex", words (codes "z")) ∷ (codes "k", number 2) ∷ []) ∷ [] }
{}

/// Holes have their places, and operations that go into them, take them or move them are refused.
pub fn hole_rows()
    ensures places { IsOk (places block_three 3) }
    ensures fewer { places block_three 2 ≡ Err (Rattle.spec_documents.specs.Hole.HoleFault.bad_hole (record { pointer = codes "payload" ∷ codes "3" ∷ codes "value" ∷ []; part = None })) }
    ensures more { places block_three 4 ≡ Err (Rattle.spec_documents.specs.Hole.HoleFault.missing 3) }
    ensures value { op_result block_three (replace (codes "payload" ∷ codes "0" ∷ codes "value" ∷ []) (hole 0)) ≡ Err Rattle.spec_messages.specs.Entry.OpWhy.hole_value }
    ensures into { op_result block_three (copy (codes "payload" ∷ codes "0" ∷ codes "value" ∷ codes "encBlockIndex" ∷ []) (codes "payload" ∷ codes "2" ∷ codes "value" ∷ [])) ≡ Err Rattle.spec_messages.specs.Entry.OpWhy.into_hole }
    ensures taken { op_result block_three (copy (codes "payload" ∷ codes "0" ∷ codes "value" ∷ []) (codes "payload" ∷ codes "2" ∷ codes "value" ∷ [])) ≡ Err Rattle.spec_messages.specs.Entry.OpWhy.hole_taken }
{}

ghost use Rattle.spec_messages.specs.Fault.{BlockFault, bad_member, ie_path, overlap, bad_holes, block_fault};
ghost use Rattle.spec_messages.specs.Rows.{with_items, item_at};

/// What is no block is named by its first fault.
pub fn fault_rows()
    ensures none { block_fault block_three 3 ≡ None }
    ensures missing { block_fault block_three 4 ≡ Some (bad_holes (Rattle.spec_documents.specs.Hole.HoleFault.missing 3)) }
    ensures object { block_fault (list []) 0 ≡ Some (bad_member (codes "metaData")) }
    ensures path { block_fault (with_items (item_at (codes "/a/encBlockIndex") (number 0) ∷ [])) 0 ≡ Some (ie_path 1) }
    ensures over { block_fault (with_items (item_at (codes "/a") (number 0) ∷ item_at (codes "/a/b") (number 1) ∷ [])) 0 ≡ Some (overlap 2) }
{}

ghost use Rattle.spec_messages.specs.Rows.{plain_three};
ghost use Rattle.spec_messages.specs.Policy.{is_secret};

/// Which differences there are, and which may be.
pub fn policy_rows()
    ensures root { differs policy_one (Some 0) (posted (map_of ((codes "servingNetworkName", words (codes "x")) ∷ []))) (record message_three { body = None }) ≡ body_at [] ∷ [] }
    ensures member { differs policy_one (Some 0) (posted (map_of ((codes "a", number 1) ∷ (codes "b", number 1) ∷ []))) (posted (map_of ((codes "b", number 2) ∷ (codes "c", number 1) ∷ []))) ≡ body_at (codes "a" ∷ []) ∷ body_at (codes "b" ∷ []) ∷ body_at (codes "c" ∷ []) ∷ [] }
    ensures may { is_modifiable policy_one (Some 0) message_three message_three (body_at (codes "servingNetworkName" ∷ [])) (codes "ipx-a") ≡ true }
    ensures may_not { is_modifiable policy_one (Some 0) message_three message_three (body_at (codes "servingNetworkName" ∷ [])) (codes "ipx-b") ≡ false }
    ensures secret { is_modifiable policy_one (Some 0) message_three message_three (body_at (codes "supiOrSuci" ∷ [])) (codes "ipx-a") ≡ false }
    ensures above { is_secret policy_one (Some 0) message_three (body_at (codes "resynchronizationInfo" ∷ [])) ≡ true }
    ensures fits { mapping_of policy_one plain_three ≡ Some 0 }
{}

ghost use Rattle.spec_messages.specs.Block.{clear_message};
ghost use Rattle.spec_messages.specs.Split.{cleared, filled};
ghost use Rattle.spec_messages.specs.Rows.{three_values};

/// A block stands for the clear message, and its values fill it.
pub fn clear_rows()
    ensures clear { clear_message block_three ≡ Some (cleared policy_one (Some 0) message_three) }
    ensures full { filled three_values (cleared policy_one (Some 0) message_three) ≡ Some message_three }
{}

ghost use Rattle.spec_messages.specs.Entry.{OpWhy, hole_value, into_hole, patch, hole_taken, metadata, not_block, hole_moved, not_modifiable};
ghost use Rattle.spec_messages.specs.Rows.{value_path, outcome_three, entry_three, nested};

/// Each reason against an operation, by an operation that the next reason forbids as well.
pub fn reason_rows()
    ensures value { outcome_three (codes "ipx-a") (replace (codes "payload" ∷ codes "0" ∷ codes "value" ∷ codes "x" ∷ []) (hole 0)) ≡ Err hole_value }
    ensures into { outcome_three (codes "ipx-a") (remove (codes "payload" ∷ codes "0" ∷ codes "value" ∷ codes "x" ∷ [])) ≡ Err into_hole }
    ensures place { outcome_three (codes "ipx-a") (move (value_path 0) (codes "a" ∷ codes "b" ∷ [])) ≡ Err (patch no_place) }
    ensures index { outcome_three (codes "ipx-a") (remove (codes "payload" ∷ codes "01" ∷ [])) ≡ Err (patch bad_index) }
    ensures tested { outcome_three (codes "ipx-a") (test (value_path 0) (number 5)) ≡ Err (patch test_failed) }
    ensures itself { outcome_three (codes "ipx-a") (move (codes "payload" ∷ []) (codes "payload" ∷ codes "0" ∷ [])) ≡ Err (patch into_itself) }
    ensures deep { outcome_three (codes "ipx-a") (replace (codes "payload" ∷ []) (nested 127)) ≡ Err (patch too_deep) }
    ensures taken { outcome_three (codes "ipx-a") (replace [] (number 5)) ≡ Err hole_taken }
    ensures meta { outcome_three (codes "ipx-a") (remove (codes "metaData" ∷ [])) ≡ Err metadata }
    ensures block { outcome_three (codes "ipx-a") (add (codes "payload" ∷ codes "0" ∷ []) (number 5)) ≡ Err not_block }
    ensures moved { outcome_three (codes "ipx-a") (add (codes "payload" ∷ codes "0" ∷ []) (item_at (codes "/a") (number 5))) ≡ Err hole_moved }
    ensures fixed { outcome_three (codes "ipx-b") (replace (value_path 2) (number 5)) ≡ Err (not_modifiable (body_at (codes "servingNetworkName" ∷ []))) }
    ensures allowed { IsOk (outcome_three (codes "ipx-a") (replace (value_path 2) (number 5))) }
{}

/// The first operation of an entry that isn't allowed is told by its number, from 1, and the later ones are not looked at.
pub fn entry_rows()
    ensures none { entry_three (codes "ipx-a") [] ≡ Ok (block_three, cleared policy_one (Some 0) message_three) }
    ensures second { entry_three (codes "ipx-a") (replace (value_path 2) (number 5) ∷ test (value_path 2) (number 6) ∷ remove (codes "metaData" ∷ []) ∷ []) ≡ Err (2, patch test_failed) }
    ensures back { entry_three (codes "ipx-a") (replace (value_path 2) (number 5) ∷ replace (value_path 2) (words (codes "5G:mnc001.mcc001.3gppnetwork.org")) ∷ []) ≡ Ok (block_three, cleared policy_one (Some 0) message_three) }
{}
