//! Worked examples, by computation.

ghost use Rattle.std.specs.Prelude.{◌≡◌, [], ◌∷◌, Some, None, Ok, Err, codes};
ghost use Rattle.spec_documents.specs.Tree.{null, words, items, members, trees};
ghost use Rattle.spec_documents.specs.Compact.{compact_text};
ghost use Rattle.spec_messages.specs.Policy.{ueid};
ghost use Rattle.spec_messages.specs.PolicyDocument.{empty_policy, mapping_tree};
ghost use Rattle.spec_records.specs.Records.{A128Gcm, A256Gcm, Offered, Closed};
ghost use Rattle.spec_exchange.specs.Outside.{no_fault, Own, Outside, Keeper, Read, ReadFails};
ghost use Rattle.spec_handshake.specs.Documents.{Prins, Tls, Supports, Chooses, Asks, Selects, Terminates, Terminated, document_of, document_tree};
ghost use Rattle.spec_handshake.specs.Differences.{AtMapping, InTypes, difference, difference_text};
ghost use Rattle.spec_handshake.specs.Refusals.{NotExpected, NoCommonCapability, NoCommonSuite, PolicyDiffers, ContextUsed, ContextNotFound};
ghost use Rattle.spec_handshake.specs.Starts.{ForChoice, ForSelection, without_node};
ghost use Rattle.spec_handshake.specs.Calls.{chosen, common_suite, start, Next, OpenedAs, EndedTls, replies_to, finishes_with, starts_left, if_read, waits_for, closes, closes_by};
ghost use Rattle.spec_handshake.specs.Runs.{nothing, run};
ghost use Rattle.spec_handshake.specs.Rows.{offer_with, offer_a, offer_b, node_a, node_b, plmn_a, plmn_b, policy_x, mapping_x, ask_with, selection_with, tree_with, api_field, call_field, asking, providers_field, suites_field, id_field, plmn_field, policy_field, sender_field, context_a, opened_both, whole_handshake, repeated, start_of, lost, untold};

/// The texts of the six documents.
pub fn document_rows()
    ensures supports { compact_text (document_tree (Supports 161 (codes "A") (Prins ∷ Tls ∷ []))) ≡ codes "{\"api\":\"exchange-capability\",\"call\":\"00000000000000a1\",\"request\":{\"sender\":\"A\",\"supportedSecCapabilityList\":[\"PRINS\",\"TLS\"]}}" }
    ensures chooses { compact_text (document_tree (Chooses 161 (codes "B") Prins)) ≡ codes "{\"api\":\"exchange-capability\",\"call\":\"00000000000000a1\",\"response\":{\"selectedSecCapability\":\"PRINS\",\"sender\":\"B\"}}" }
    ensures asks { compact_text (document_tree (Asks (ask_with (A256Gcm ∷ A128Gcm ∷ []) empty_policy))) ≡ codes "{\"api\":\"exchange-params\",\"call\":\"00000000000000a1\",\"request\":{\"ipxProviderSecInfoList\":[{\"ipxProviderId\":\"ipx-a\"}],\"jweCipherSuiteList\":[\"A256GCM\",\"A128GCM\"],\"n32fContextId\":\"00000000000000a1\",\"plmn\":\"00101\",\"protectionPolicyInfo\":{\"apiIeMappingList\":[],\"dataTypeEncPolicy\":[]},\"sender\":\"A\"}}" }
    ensures selects { compact_text (document_tree (Selects (selection_with (codes "B") A256Gcm empty_policy))) ≡ codes "{\"api\":\"exchange-params\",\"call\":\"00000000000000a1\",\"response\":{\"ipxProviderSecInfoList\":[{\"ipxProviderId\":\"ipx-b\"}],\"n32fContextId\":\"00000000000000b1\",\"plmn\":\"00102\",\"selProtectionPolicyInfo\":{\"apiIeMappingList\":[],\"dataTypeEncPolicy\":[]},\"selectedJweCipherSuite\":\"A256GCM\",\"sender\":\"B\"}}" }
    ensures terminates { compact_text (document_tree (Terminates 177)) ≡ codes "{\"api\":\"n32f-terminate\",\"request\":{\"n32fContextId\":\"00000000000000b1\"}}" }
    ensures terminated { compact_text (document_tree (Terminated 161)) ≡ codes "{\"api\":\"n32f-terminate\",\"response\":{\"n32fContextId\":\"00000000000000a1\"}}" }
{}

/// The first member that is missing or has not its form is named; other words in lists are ignored, and so are other members.
pub fn form_rows()
    ensures text { document_of (words []) ≡ Err (codes "api") }
    ensures empty { document_of (tree_with []) ≡ Err (codes "api") }
    ensures api { document_of (tree_with (api_field (codes "exchange-keys") ∷ call_field ∷ [])) ≡ Err (codes "api") }
    ensures call { document_of (tree_with (api_field (codes "exchange-params") ∷ (codes "request", null) ∷ (codes "response", null) ∷ [])) ≡ Err (codes "call") }
    ensures neither { document_of (tree_with (api_field (codes "exchange-params") ∷ call_field ∷ [])) ≡ Err (codes "request") }
    ensures both { document_of (tree_with (api_field (codes "n32f-terminate") ∷ (codes "request", tree_with (id_field ∷ [])) ∷ (codes "response", null) ∷ [])) ≡ Err (codes "request") }
    ensures response { document_of (tree_with (api_field (codes "n32f-terminate") ∷ (codes "response", null) ∷ [])) ≡ Err (codes "response") }
    ensures providers { document_of (asking (suites_field ∷ id_field ∷ [])) ≡ Err (codes "ipxProviderSecInfoList") }
    ensures suites { document_of (asking (providers_field ∷ id_field ∷ (codes "jweCipherSuiteList", items (trees (null ∷ []))) ∷ [])) ≡ Err (codes "jweCipherSuiteList") }
    ensures id { document_of (asking (providers_field ∷ suites_field ∷ policy_field ∷ [])) ≡ Err (codes "n32fContextId") }
    ensures plmn { document_of (asking (providers_field ∷ suites_field ∷ id_field ∷ sender_field ∷ [])) ≡ Err (codes "plmn") }
    ensures policy { document_of (asking (providers_field ∷ suites_field ∷ id_field ∷ plmn_field ∷ (codes "protectionPolicyInfo", null) ∷ [])) ≡ Err (codes "protectionPolicyInfo") }
    ensures sender { document_of (asking (providers_field ∷ suites_field ∷ id_field ∷ plmn_field ∷ policy_field ∷ [])) ≡ Err (codes "sender") }
    ensures read { document_of (asking (providers_field ∷ suites_field ∷ id_field ∷ plmn_field ∷ policy_field ∷ sender_field ∷ [])) ≡ Ok (Asks (ask_with (A256Gcm ∷ A128Gcm ∷ []) empty_policy)) }
{}

/// PRINS is preferred, and the order of the request decides on the suite.
pub fn choice_rows()
    ensures prins { chosen (Tls ∷ Prins ∷ []) (Tls ∷ Prins ∷ []) ≡ Some Prins }
    ensures tls { chosen (Prins ∷ Tls ∷ []) (Tls ∷ []) ≡ Some Tls }
    ensures no_capability { chosen (Prins ∷ []) (Tls ∷ []) ≡ None }
    ensures suite { common_suite (A256Gcm ∷ A128Gcm ∷ []) (A128Gcm ∷ A256Gcm ∷ []) ≡ Some A256Gcm }
    ensures no_suite { common_suite (A256Gcm ∷ []) (A128Gcm ∷ []) ≡ None }
{}

/// The first mapping that differs is told with both sides, and the types behind all mappings.
pub fn difference_rows()
    ensures text { difference_text (AtMapping 0 (Some (mapping_tree (mapping_x (codes "POST")))) (Some (mapping_tree (mapping_x (codes "GET"))))) ≡ codes "0 {\"IeList\":[],\"apiMethod\":\"POST\",\"apiSignature\":\"/x\"} {\"IeList\":[],\"apiMethod\":\"GET\",\"apiSignature\":\"/x\"}" }
    ensures other { difference (policy_x (codes "POST")) (policy_x (codes "GET")) ≡ Some (AtMapping 0 (Some (mapping_tree (mapping_x (codes "POST")))) (Some (mapping_tree (mapping_x (codes "GET"))))) }
    ensures missing { difference (policy_x (codes "GET")) empty_policy ≡ Some (AtMapping 0 (Some (mapping_tree (mapping_x (codes "GET")))) None) }
    ensures further { difference (record { mappings = mapping_x (codes "GET") ∷ []; sorts = [] }) (record { mappings = mapping_x (codes "GET") ∷ mapping_x (codes "PUT") ∷ []; sorts = ueid ∷ [] }) ≡ Some (AtMapping 1 None (Some (mapping_tree (mapping_x (codes "PUT"))))) }
    ensures missing_text { difference_text (AtMapping 1 None (Some (mapping_tree (mapping_x (codes "PUT"))))) ≡ codes "1 none {\"IeList\":[],\"apiMethod\":\"PUT\",\"apiSignature\":\"/x\"}" }
    ensures swapped { difference (record { mappings = mapping_x (codes "GET") ∷ mapping_x (codes "PUT") ∷ []; sorts = [] }) (record { mappings = mapping_x (codes "PUT") ∷ mapping_x (codes "GET") ∷ []; sorts = [] }) ≡ Some (AtMapping 0 (Some (mapping_tree (mapping_x (codes "GET")))) (Some (mapping_tree (mapping_x (codes "PUT"))))) }
    ensures types { difference (record { mappings = mapping_x (codes "GET") ∷ []; sorts = ueid ∷ [] }) (policy_x (codes "GET")) ≡ Some InTypes }
    ensures same { difference (policy_x (codes "GET")) (policy_x (codes "GET")) ≡ None }
{}

/// Refusals of an answer, in their order.
pub fn answer_rows()
    ensures expected { replies_to [] node_b plmn_b offer_b (Terminates 177) ≡ Err NotExpected }
    ensures capability { replies_to [] node_b plmn_b (offer_with 177 (Tls ∷ []) (A128Gcm ∷ []) empty_policy (codes "ipx-b")) (Supports 161 node_a (Prins ∷ [])) ≡ Err NoCommonCapability }
    // the suite, before the policy
    ensures suite { replies_to opened_both node_b plmn_b (offer_with 177 [] (A128Gcm ∷ []) empty_policy (codes "ipx-b")) (Asks (ask_with (A256Gcm ∷ []) (policy_x (codes "GET")))) ≡ Err NoCommonSuite }
    // the policy, before the id
    ensures policy { replies_to opened_both node_b plmn_b offer_b (Asks (ask_with (A256Gcm ∷ []) (policy_x (codes "GET")))) ≡ Err (PolicyDiffers (AtMapping 0 None (Some (mapping_tree (mapping_x (codes "GET")))))) }
    ensures used { replies_to opened_both node_b plmn_b offer_b (Asks (ask_with (A256Gcm ∷ []) empty_policy)) ≡ Err ContextUsed }
{}

/// A document is taken only from the node that was asked, by the first start that waits for it.
pub fn finish_rows()
    ensures sender { finishes_with [] (start_of offer_a node_b ForChoice ∷ []) node_a plmn_a (Chooses 161 (codes "C") Prins) ≡ Err NotExpected }
    ensures call { finishes_with [] (start_of offer_a node_b ForChoice ∷ []) node_a plmn_a (Chooses 162 node_b Prins) ≡ Err NotExpected }
    ensures node { finishes_with [] (start_of offer_a node_b ForChoice ∷ []) (codes "C") plmn_a (Chooses 161 node_b Prins) ≡ Err NotExpected }
    ensures waiting { finishes_with [] (start_of offer_a node_b ForChoice ∷ []) node_a plmn_a (Selects (selection_with node_b A256Gcm empty_policy)) ≡ Err NotExpected }
    ensures capability { finishes_with [] (start_of offer_a node_b ForChoice ∷ []) node_a plmn_a (Chooses 161 node_b Tls) ≡ Err NoCommonCapability }
    // two starts of one node and id: the first in the list counts
    ensures first { finishes_with [] (start_of (offer_with 161 (Tls ∷ []) [] empty_policy (codes "ipx-a")) node_b ForChoice ∷ start_of offer_a node_b ForChoice ∷ []) node_a plmn_a (Chooses 161 node_b Prins) ≡ Err NoCommonCapability }
    ensures tls { finishes_with [] (start_of (offer_with 161 (Tls ∷ []) [] empty_policy (codes "ipx-a")) node_b ForChoice ∷ []) node_a plmn_a (Chooses 161 node_b Tls) ≡ Ok EndedTls }
    ensures suite { finishes_with [] (start_of (offer_with 161 (Prins ∷ []) (A128Gcm ∷ []) empty_policy (codes "ipx-a")) node_b ForSelection ∷ []) node_a plmn_a (Selects (selection_with node_b A256Gcm (policy_x (codes "GET")))) ≡ Err NoCommonSuite }
    ensures policy { finishes_with [] (start_of offer_a node_b ForSelection ∷ []) node_a plmn_a (Selects (selection_with node_b A256Gcm (policy_x (codes "GET")))) ≡ Err (PolicyDiffers (AtMapping 0 None (Some (mapping_tree (mapping_x (codes "GET")))))) }
    ensures opened { finishes_with [] (start_of offer_a node_b ForSelection ∷ []) node_a plmn_a (Selects (selection_with node_b A256Gcm empty_policy)) ≡ Ok (OpenedAs context_a) }
{}

/// Which starts wait on.
pub fn start_rows()
    // a refusal of what was agreed on ends the start, and no other does
    ensures refused { starts_left (waits_for node_a (Chooses 161 node_b Tls)) (start_of offer_a node_b ForChoice ∷ start_of offer_b (codes "C") ForChoice ∷ []) (Err (Own NoCommonCapability)) ≡ start_of offer_b (codes "C") ForChoice ∷ [] }
    ensures suite { starts_left (waits_for node_a (Selects (selection_with node_b A256Gcm empty_policy))) (start_of offer_a node_b ForSelection ∷ []) (Err (Own NoCommonSuite)) ≡ [] }
    ensures policy { starts_left (waits_for node_a (Selects (selection_with node_b A256Gcm empty_policy))) (start_of offer_a node_b ForSelection ∷ []) (Err (Own (PolicyDiffers InTypes))) ≡ [] }
    ensures unexpected { starts_left (waits_for node_a (Chooses 161 node_b Tls)) (start_of offer_a node_b ForChoice ∷ []) (Err (Own NotExpected)) ≡ start_of offer_a node_b ForChoice ∷ [] }
    ensures next { starts_left (waits_for node_a (Chooses 161 node_b Prins)) (start_of offer_b node_b ForChoice ∷ start_of offer_a node_b ForChoice ∷ []) (Ok (Next (Terminates 0))) ≡ start_of offer_b node_b ForChoice ∷ start_of offer_a node_b ForSelection ∷ [] }
    // a put that failed ends it, and a store that could not be read doesn't
    ensures put { if_read Read (start_of offer_a node_b ForSelection ∷ []) (starts_left (waits_for node_a (Selects (selection_with node_b A256Gcm empty_policy))) (start_of offer_a node_b ForSelection ∷ []) (Err (Outside Keeper))) ≡ [] }
    ensures unread { if_read ReadFails (start_of offer_a node_b ForSelection ∷ []) [] ≡ start_of offer_a node_b ForSelection ∷ [] }
    ensures restart { without_node node_a (start_of offer_a node_b ForChoice ∷ []) ≡ [] }
{}

/// A whole handshake opens both contexts, and its id is used then; a document that comes again changes nothing.
pub fn handshake_rows()
    ensures opened { (run nothing whole_handshake).records ≡ opened_both }
    ensures waiting { (run nothing whole_handshake).starts ≡ [] }
    ensures again { (run nothing repeated).records ≡ opened_both }
    ensures used { (start no_fault opened_both node_a offer_a).result ≡ Err (Own ContextUsed) }
    ensures unkept { (start lost [] node_a offer_a).put ≡ None }
    ensures untold { (start untold [] node_a offer_a).put ≡ Some (Offered node_a 161) }
{}

/// Both documents of a termination have the id of the side that they go to.
pub fn termination_rows()
    ensures terminate { closes opened_both node_a 161 Terminates ≡ Ok (record { id = 161; document = Terminates 177 }) }
    ensures ended { closes_by opened_both node_b (document_tree (Terminates 177)) ≡ Ok (record { id = 177; document = Terminated 161 }) }
    ensures expected { closes_by opened_both node_b (document_tree (Terminated 177)) ≡ Err NotExpected }
    ensures gone { closes (Closed node_a 161 ∷ opened_both) node_a 161 Terminates ≡ Err ContextNotFound }
{}
